//! What a walk makes of each node.

ghost use Rattle.std.specs.Prelude.{◌≡◌, ◌++◌, List as Sequence, OnOk};
ghost use Rattle.c_typed.specs.Changed.{Change as NodeChange};
ghost use Rattle.c_typed.specs.Trees.{Expression as Tree};
ghost use Rattle.c_typed.specs.TreeViews.{expression_of, path_of};
ghost use Rattle.c_walks.specs.Redone.{redone, redone_path};

use c_typed::{Expression, Path};

/// What is made of the nodes of a tree, each after its parts, and what is kept of its expressions in a `K`, each before its parts.
pub trait Change<T, K> {
    type Error;

    ghost Seen: { Type 0 };

    ghost seen: { T → Seen };

    ghost Own: { Type 0 };

    ghost change: { Self → NodeChange Seen Seen };

    ghost own: { Self → Tree Seen → Sequence Own };

    ghost held: { K → Sequence Own };

    /// Keeps what an expression has of its own, of which no part is changed.
    fn keep(&self, kept: &mut K, e: &Expression<T>) -> Result<(), Self::Error>
        ensures { OnOk result (held kept.new ≡ held kept.old ++ own self.now (expression_of seen e.now)) };

    /// Changes an expression whose parts are changed.
    fn expression(&self, e: &mut Expression<T>) -> Result<(), Self::Error>
        ensures { OnOk result (expression_of seen e.new ≡ redone (change self.now) (expression_of seen e.old)) };

    /// Changes a path whose parts are changed.
    fn path(&self, p: &mut Path<T>)
        ensures { path_of seen p.new ≡ redone_path (change self.now) (path_of seen p.old) };
}
