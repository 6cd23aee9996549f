//! Specifiers (C99 6.7.1 to 6.7.3): storage classes, and in which way a type is named.

ghost use Rattle.std.specs.Prelude.{◌≡◌, map};
ghost use Rattle.c_ast.specs.Views.{specifier_of, specifiers_of};
ghost use Rattle.c_erasure.specs.Specifiers.{storage_of as storage_among, storage_word, together};
ghost use Rattle.c_nodes.specs.DeclaratorTypes.SpecifierViews.{storage_view};

use c_ast::{Specifier, SpecifierKeyword};

/// The storage class that specifiers name (C99 6.7.1).
#[derive(Clone, Copy)]
pub enum Storage {
    None,
    Typedef,
    Extern,
    Static,
    Auto,
    Register,
    /// More than one stands there.
    Several,
}

/// What two parts of specifiers name together.
fn together(s: Storage, t: Storage) -> Storage
    ensures { storage_view result ≡ together (storage_view s) (storage_view t) }
{
    match (s, t) {
        (Storage::None, t) => t,
        (s, Storage::None) => s,
        _ => Storage::Several,
    }
}

/// The storage class that a keyword names.
fn storage_word(word: SpecifierKeyword) -> Storage
    ensures { storage_view result ≡ storage_word word }
{
    match word {
        SpecifierKeyword::Typedef => Storage::Typedef,
        SpecifierKeyword::Extern => Storage::Extern,
        SpecifierKeyword::Static => Storage::Static,
        SpecifierKeyword::Auto => Storage::Auto,
        SpecifierKeyword::Register => Storage::Register,
        _ => Storage::None,
    }
}

/// The storage class that specifiers name.
#[tactic(auto, using(crate::proofs::DeclaratorTypes::Storages::together_in_turn, crate::proofs::DeclaratorTypes::Storages::together_nothing))]
pub fn storage_of(all: &[Specifier]) -> Storage
    ensures { storage_view result ≡ storage_among (specifiers_of (map specifier_of all.now)) }
{
    let mut storage = Storage::None;
    for specifier in all {
        if let Specifier::Keyword(word, _) = specifier {
            storage = together(storage, storage_word(*word));
        }
    }
    storage
}
