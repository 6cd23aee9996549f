//! Whether two types are the same.

ghost use Rattle.std.specs.Prelude.{◌≡◌, ◌↔◌, IsTrue};
ghost use Rattle.c_types.specs.Sameness.{same_kind, same_type, same_types};
ghost use Rattle.c_types.specs.Views.{type_of, types_of};

use crate::ty::{IntKind, Ty};

/// Whether two integer types are the same.
fn same_kind(k: IntKind, l: IntKind) -> bool
    ensures { result ≡ same_kind k l }
{
    k == l
}

/// Whether two types are the same: built alike, of the same integer types and of records with the same numbers.
#[tactic(auto, using(crate::proofs::SameTypes::same_is, crate::proofs::SameTypes::same_self))]
pub fn same(a: &Ty, b: &Ty) -> bool
    ensures value { result ≡ same_type (type_of a.now) (type_of b.now) }
    ensures exact { IsTrue result ↔ (type_of a.now ≡ type_of b.now) }
{
    are_alike(a, b)
}

/// Whether two types are the same.
#[cycle(sameness)]
fn are_alike(a: &Ty, b: &Ty) -> bool
    ensures { result ≡ same_type (type_of a.now) (type_of b.now) }
{
    match (a, b) {
        (Ty::Void, Ty::Void) => true,
        (Ty::Int(k), Ty::Int(l)) => same_kind(*k, *l),
        (Ty::Pointer(s), Ty::Pointer(t)) => are_alike(s.get(), t.get()),
        (Ty::Array(s, n), Ty::Array(t, m)) => n == m && are_alike(s.get(), t.get()),
        (Ty::Function(s, all), Ty::Function(t, others)) => {
            are_alike(s.get(), t.get())
                && are_all_alike(all.get().as_slice(), others.get().as_slice())
        }
        (Ty::Record(r), Ty::Record(s)) => r == s,
        _ => false,
    }
}

/// Whether two lists have as many types, each the same as the other's.
#[cycle(sameness)]
fn are_all_alike(all: &[Ty], others: &[Ty]) -> bool
    ensures { result ≡ same_types (types_of all.now) (types_of others.now) }
{
    if all.len() != others.len() {
        return false;
    }
    for (index, t) in all.iter().enumerate() {
        if !are_alike(t, &others[index]) {
            return false;
        }
    }
    true
}
