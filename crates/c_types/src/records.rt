//! `Records`: a list of records, with their layouts.

ghost use Rattle.std.specs.Prelude.{◌≡◌, ◌≤◌, ◌<◌, [], All, IsTrue, Some, length, slice_get};
ghost use Rattle.c_types.specs.Layouts.{layouts, size_of, size_of_record};
ghost use Rattle.c_types.specs.Limits.{AreComplete, AreSmall, greatest_size};
ghost use Rattle.c_types.specs.Objects.{is_object};
ghost use Rattle.c_types.specs.Views.{record_of, records_of, type_of};

use crate::fault::RecordFault;
use crate::laying::layout_after;
use crate::layout::Layout;
use crate::record::Record;
use lay_base::{List, reserve};
use std::alloc::Global;
use std::marker::Model;

/// A list of records. Each is complete and of at most 16,777,216 bytes, and holds by value only
/// records before it.
#[derive(Drop)]
pub struct Records {
    alloc: Global,
    records: Vec<Record>,
    // One for each record, so that no size is computed again from the records that it is made of.
    layouts: Vec<Layout>,
}

impl Model for Records {
    ghost use Rattle.std.specs.Prelude.{List};
    ghost use Rattle.c_types.specs.declared.record.Record.{Record};
    ghost use Rattle.std.specs.Coded.{codes};
    ghost use Rattle.c_types.specs.contracts.ty.Ty as ty;

    ghost Value = { List Record };

    ghost coded = { Prim.hlevel (codes, ty.the_row.coded) };

    ghost use Rattle.c_types.specs.Laying.{AreLaid};

    ghost view = { λ it. it.records.items };

    ghost invariant = { λ it. AreLaid it.records.items it.layouts.items };
}

impl Records {
    ghost use Rattle.c_types.specs.Adding.{AddGives};

    /// No records.
    pub fn new(alloc: Global) -> Records
        ensures { result ≡ [] }
    {
        Records {
            alloc,
            records: Vec::new(alloc),
            layouts: Vec::new(alloc),
        }
    }

    /// How many records there are.
    pub fn len(&self) -> usize
        ensures { result ≡ length self.now }
    {
        self.records.len()
    }

    /// The record with that number, the first of which is 0.
    pub fn get(&self, number: usize) -> &Record
        requires { number < length self.now }
        ensures { slice_get self.now number ≡ Some result.now }
    {
        &self.records[number]
    }

    /// All records, lent.
    pub fn as_slice(&self) -> &[Record]
        ensures { result.now ≡ self.now }
    {
        &self.records
    }

    /// The records, without their layouts.
    pub fn into_list(self) -> List<Record>
        ensures { result ≡ self }
    {
        let Records { records, .. } = self;
        List::of(records)
    }

    /// Adds a record at the end, and answers its number, which is how many there were.
    ///
    /// Each field's type is an object type, of at most 16,777,216 bytes, over the records that are
    /// there; behind a pointer any number may stand. `TooBig` comes exactly where the size of the
    /// record passes 16,777,216 bytes. After a refusal the list is as it was, and the record is let go.
    pub fn add(&mut self, r: Record) -> Result<usize, RecordFault>
        requires objects { All (λ f. IsTrue (is_object (length self.old) (type_of f.ty))) r.fields }
        requires bounded { All (λ f. size_of (records_of self.old) (type_of f.ty) ≤ greatest_size) r.fields }
        ensures { AddGives (size_of_record (records_of self.old) (record_of r)) self.old r self.new result }
    {
        let layout = match layout_after(self.alloc, &self.layouts, r.fields.as_slice()) {
            Ok(layout) => layout,
            Err(fault) => return Err(fault),
        };
        if let Err(want) = reserve(&mut self.records, 1) {
            return Err(RecordFault::Memory(want));
        }
        if let Err(want) = reserve(&mut self.layouts, 1) {
            return Err(RecordFault::Memory(want));
        }
        let number = self.records.len();
        self.records.push_reserved(r);
        self.layouts.push_reserved(layout);
        Ok(number)
    }

    /// The layouts of the records.
    pub(crate) fn layouts(&self) -> &[Layout]
        ensures value { result.now ≡ layouts (records_of self.now) }
        ensures count { length result.now ≡ length self.now }
    {
        &self.layouts
    }
}

/// Each record is complete, and of at most 16,777,216 bytes. This does nothing, as every law.
pub fn records_are_complete(r: &Records)
    ensures complete { AreComplete (records_of r.now) }
    ensures small { AreSmall (records_of r.now) }
{
    let _ = &r.records;
}
