//! What is wrong with a name, and where.

ghost use Rattle.std.specs.Prelude.{◌≡◌, ◌++◌, ◌∷◌, [], OnOk, map};
ghost use Rattle.std.specs.Option.{option_map};
ghost use Rattle.c_link.specs.Clashes.{trouble_of};
ghost use Rattle.c_link.specs.Earliest.{earlier_of, earliest_of, is_earlier};

use crate::records::copy_of_name;
use lay_base::{List, Name, NoMemory, Place, add};
use std::alloc::Global;

/// A name, where it stands, and where it stood first.
#[derive(Drop)]
pub struct Trouble {
    pub name: Name,
    pub place: Place,
    pub first: Place,
}

/// Adds a trouble with a name.
pub fn add_trouble(
    alloc: Global,
    troubles: &mut List<Trouble>,
    name: &Name,
    place: Place,
    first: Place,
) -> Result<(), NoMemory>
    ensures { OnOk result (map trouble_of troubles.new ≡ map trouble_of troubles.old ++ record { name = name.now; place = place; first = first } ∷ []) }
{
    let name = copy_of_name(alloc, name)?;
    let trouble = Trouble { name, place, first };
    add(troubles, trouble)
}

/// Whether a place stands before another, in the order of the files and then of their bytes.
fn is_earlier(p: Place, q: Place) -> bool
    ensures { result ≡ is_earlier p q }
{
    p.file < q.file || (p.file == q.file && p.at < q.at)
}

fn earlier(best: Option<Trouble>, t: Trouble) -> Trouble
    ensures { trouble_of result ≡ earlier_of (option_map trouble_of best) (trouble_of t) }
{
    match best {
        None => t,
        Some(b) => { if is_earlier(t.place, b.place) { t } else { b } }
    }
}

/// The earliest of some troubles, if there is one.
pub fn earliest(troubles: List<Trouble>) -> Option<Trouble>
    ensures { option_map trouble_of result ≡ earliest_of (map trouble_of troubles) }
{
    let mut best: Option<Trouble> = None;
    for t in troubles.into_vec() {
        best = Some(earlier(best, t));
    }
    best
}
