//! Widths and signs of integer types.

ghost use Rattle.std.specs.Prelude.{◌≡◌};
ghost use Rattle.c_types.specs.IntKinds.{is_signed, width};

use crate::ty::IntKind;

/// The size of an integer type in bytes: 1, 2 or 4.
pub fn width(kind: IntKind) -> u32
    ensures { result ≡ width kind }
{
    match kind {
        IntKind::Char | IntKind::SChar | IntKind::UChar => 1,
        IntKind::Short | IntKind::UShort => 2,
        IntKind::Int | IntKind::UInt | IntKind::Long | IntKind::ULong => 4,
    }
}

/// Whether an integer type has negative values. `char` has none.
pub fn is_signed(kind: IntKind) -> bool
    ensures { result ≡ is_signed kind }
{
    match kind {
        IntKind::SChar | IntKind::Short | IntKind::Int | IntKind::Long => true,
        IntKind::Char | IntKind::UChar | IntKind::UShort | IntKind::UInt | IntKind::ULong => false,
    }
}
