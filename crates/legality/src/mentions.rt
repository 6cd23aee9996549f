//! What is said outside of functions that violates a test.

ghost use Rattle.std.specs.Prelude.{flat_map, map};
ghost use Rattle.c_types.specs.Views.{type_of};
ghost use Rattle.legality.specs.Breaches.{by_kind, by_mention};
ghost use Rattle.legality.specs.Firsts.{Marks};

use crate::facts::type_at;
use crate::holdings::held_in;
use crate::marks::{mark_all, mark_arrays, mark_itself, mark_pointed, mark_pointers};
use crate::violation::{Test, Violation};
use c_typed::{Mention, MentionKind};
use c_types::Ty;
use lay_base::{List, Place};

fn mark_kind(
    firsts: &mut [Option<Violation>],
    holdings: &[List<usize>],
    kind: MentionKind,
    t: &Ty,
    place: Place,
)
    ensures { Marks firsts.old firsts.new (by_kind holdings.now kind (type_of t.now) place) }
{
    match kind {
        MentionKind::Object => {
            mark_itself(firsts, Test::Objt, place, t);
            mark_arrays(firsts, Test::Objt, place, t);
        }
        MentionKind::Named => mark_arrays(firsts, Test::Objt, place, t),
        MentionKind::Sizeof => mark_all(firsts, Test::Size, place, held_in(holdings, t)),
        MentionKind::Used => mark_pointers(firsts, Test::Ind, place, t),
        MentionKind::From => mark_pointed(firsts, Test::Cstf, place, t),
        MentionKind::To => mark_pointed(firsts, Test::Cstt, place, t),
        MentionKind::Field => mark_itself(firsts, Test::Atkn, place, t),
    }
}

fn mark_mention(
    firsts: &mut [Option<Violation>],
    types: &[Ty],
    holdings: &[List<usize>],
    m: &Mention,
)
    ensures { Marks firsts.old firsts.new (by_mention (map type_of types.now) holdings.now m.now) }
{
    match type_at(types, m.ty) {
        None => {}
        Some(t) => mark_kind(firsts, holdings, m.kind, t, m.place),
    }
}

pub fn mark_mentions(
    firsts: &mut [Option<Violation>],
    types: &[Ty],
    holdings: &[List<usize>],
    mentions: &[Mention],
)
    ensures { Marks firsts.old firsts.new (flat_map (by_mention (map type_of types.now) holdings.now) mentions.now) }
{
    for m in mentions {
        mark_mention(firsts, types, holdings, m);
    }
}
