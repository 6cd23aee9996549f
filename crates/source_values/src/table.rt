//! `Types`: a program, with all that is asked of its types.

ghost use Rattle.std.specs.Prelude.{◌≡◌, ◌≤◌, IfOk};
ghost use Rattle.c_types.specs.Layouts.{offset_of};
ghost use Rattle.c_types.specs.Limits.{greatest_size};
ghost use Rattle.c_types.specs.Sameness.{same_type};
ghost use Rattle.c_types.specs.Types.{pointer as pointer_to};
ghost use Rattle.c_typed.specs.Programs.{program_data};
ghost use Rattle.c_meaning.specs.Program.{type_at};
ghost use Rattle.source_values.specs.Rows.{IsSmall, TypesAreSmall, row_of};

use crate::offsets::offset;
use crate::pointed::points_to;
use crate::row::TypeRow;
use crate::rows::{row_at, row_of_void, rows};
use c_typed::Typed;
use lay_base::NoMemory;
use std::alloc::Global;
use std::marker::Model;

/// A program, with all that is asked of its types. Contracts see the program alone.
#[derive(Drop)]
pub struct Types<'a> {
    typed: &'a Typed,
    // One for each type, so that no size is computed again.
    rows: Vec<TypeRow>,
}

impl<'a> Model for Types<'a> {
    ghost use Rattle.c_typed.specs.declared.program.Typed.{Typed};
    ghost use Rattle.c_typed.specs.contracts.program.Typed as program;

    ghost Value = { Typed };

    ghost coded = { program.the_row.coded };

    ghost use Rattle.c_typed.specs.Programs.{program_data};
    ghost use Rattle.source_values.specs.Rows.{AreRows};

    ghost view = { λ it. it.typed.now };

    ghost invariant = { λ it. AreRows (program_data it.typed.now) it.rows.items };
}

impl<'a> Types<'a> {
    /// The types of a program, where no type, nor what it points to or its elements are, passes 16,777,216 bytes.
    pub fn of(alloc: Global, typed: &'a Typed) -> Result<Types<'a>, NoMemory>
        requires { TypesAreSmall (program_data typed.now) }
        ensures { IfOk result (λ types. types ≡ typed.entry.now) }
    {
        let rows = rows(alloc, typed)?;
        Ok(Types { typed, rows })
    }

    /// The program.
    pub fn typed(&self) -> &'a Typed
        ensures { result.now ≡ self.now }
    {
        self.typed
    }

    /// No value of a type, nor what it points to or its elements are, passes the greatest size.
    pub fn are_small(&self)
        ensures { TypesAreSmall (program_data self.now) }
    {
        // What holds of each table is known where a field is read.
        let _typed = self.typed;
    }

    /// What is kept of the type with that number, which is `void` past the end.
    #[tactic(auto, using(crate::proofs::ByNumber::found_is, crate::proofs::ByNumber::found_small, crate::proofs::ByNumber::missing_is))]
    #[inline(always)]
    pub fn row(&self, number: usize) -> TypeRow
        ensures row { result ≡ row_of (program_data self.now) number }
        ensures small { IsSmall result }
    {
        match row_at(&self.rows, number) {
            Some(row) => row,
            None => row_of_void(number),
        }
    }

    /// Where a field of a record begins (C99 6.7.2.1), by their numbers; 0 where there is no such field.
    pub fn offset(&self, number: usize, field: usize) -> u32
        ensures value { result ≡ offset_of (program_data self.now).records number field }
        ensures small { result ≤ greatest_size }
    {
        offset(&self.typed.records, number, field)
    }

    /// Whether a function of one type may be called through a pointer of another (C99 6.5.2.2), by their numbers.
    pub fn is_called_as(&self, pointer: usize, function: usize) -> bool
        ensures { result ≡ same_type (type_at (program_data self.now) pointer) (pointer_to (type_at (program_data self.now) function)) }
    {
        points_to(self.typed, pointer, function)
    }
}
