//! Accesses to the fields of records.

ghost use Rattle.std.specs.Prelude.{◌≡◌};
ghost use Rattle.affinity.specs.Accesses.{is_to};

/// An access to a field of a record, whether its value is loaded, and its group: the innermost loop around it, or what of a function is in no loop.
#[derive(Clone, Copy)]
pub struct Access {
    pub of: usize,
    pub field: usize,
    pub is_read: bool,
    pub group: usize,
}

/// Whether it is one to that field of that record.
pub fn is_to(a: Access, of: usize, field: usize) -> bool
    ensures { result ≡ is_to of field a }
{
    a.of == of && a.field == field
}
