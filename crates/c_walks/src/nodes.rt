//! What stands at nodes, as it is collected.

ghost use Rattle.std.specs.Prelude.{◌≡◌, ℕ, [], ◌∷◌, ◌++◌, OnOk};
ghost use Rattle.c_annotated.specs.Views.{noted_of};
ghost use Rattle.c_erasure.specs.Noted.{Noted as ANoted};
ghost use Rattle.c_walks.specs.NodeTypes.{reference_of, references_in, taken_in, types_found};

use c_annotated::Noted;
use lay_base::{List, NoMemory, add, push};
use std::alloc::Global;

/// What stands for a type at a node.
pub trait NodeType {
    ghost Seen: { Type 0 };

    ghost seen: { Self → Seen };
}

/// A type by its number in its program.
impl NodeType for usize {
    ghost Seen = { ℕ };

    ghost seen = { λ number. number };
}

impl NodeType for Noted {
    ghost Seen = { ANoted };

    ghost seen = { noted_of };
}

/// An object or a function to which a tree refers, by its number.
#[derive(Clone, Copy)]
pub enum Reference {
    Object(usize),
    Function(usize),
}

/// What stands at nodes, in the order of the text: their types, the locals of which the address is taken, and the objects and functions
/// to which they refer.
#[derive(Drop)]
pub struct Nodes<'a, T> {
    pub types: Vec<&'a T>,
    pub taken: List<usize>,
    pub references: List<Reference>,
}

impl<'a, T: NodeType> Nodes<'a, T> {
    #[tactic(auto, unfolding(crate::specs::NodeTypes::types_found))]
    pub fn new(alloc: Global) -> Nodes<'a, T>
        ensures types { types_found T.seen result ≡ [] }
        ensures taken { taken_in result ≡ [] }
        ensures references { references_in result ≡ [] }
    {
        Nodes {
            types: Vec::new(alloc),
            taken: List::new(alloc),
            references: List::new(alloc),
        }
    }

    #[tactic(auto, unfolding(crate::specs::NodeTypes::types_found))]
    pub fn add_type(&mut self, t: &'a T) -> Result<(), NoMemory>
        ensures types { OnOk result (types_found T.seen self.new ≡ types_found T.seen self.old ++ T.seen t.entry.now ∷ []) }
        ensures taken { OnOk result (taken_in self.new ≡ taken_in self.old) }
        ensures references { OnOk result (references_in self.new ≡ references_in self.old) }
    {
        push(&mut self.types, t)
    }

    #[tactic(auto, unfolding(crate::specs::NodeTypes::types_found))]
    pub fn add_taken(&mut self, local: usize) -> Result<(), NoMemory>
        ensures types { OnOk result (types_found T.seen self.new ≡ types_found T.seen self.old) }
        ensures taken { OnOk result (taken_in self.new ≡ taken_in self.old ++ local ∷ []) }
        ensures references { OnOk result (references_in self.new ≡ references_in self.old) }
    {
        add(&mut self.taken, local)
    }

    #[tactic(auto, unfolding(crate::specs::NodeTypes::types_found))]
    pub fn add_reference(&mut self, reference: Reference) -> Result<(), NoMemory>
        ensures types { OnOk result (types_found T.seen self.new ≡ types_found T.seen self.old) }
        ensures taken { OnOk result (taken_in self.new ≡ taken_in self.old) }
        ensures references { OnOk result (references_in self.new ≡ references_in self.old ++ reference_of reference ∷ []) }
    {
        add(&mut self.references, reference)
    }
}
