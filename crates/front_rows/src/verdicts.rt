//! The verdicts on the records of a program, as text.

use crate::faults::{Spots, put_place};
use c_facts::facts;
use c_typed::Typed;
use lay_base::NoMemory;
use legality::{Test, Verdicts, judge};
use row_lines::Writer;
use std::alloc::Global;

fn word_of(test: Test) -> &'static str {
    match test {
        Test::Cstt => "CSTT",
        Test::Cstf => "CSTF",
        Test::Atkn => "ATKN",
        Test::Libc => "LIBC",
        Test::Ind => "IND",
        Test::Mset => "MSET",
        Test::Nest => "NEST",
        Test::Size => "SIZE",
        Test::Objt => "OBJT",
        Test::Copy => "COPY",
    }
}

fn verdicts_on(alloc: Global, program: &Typed) -> Result<Verdicts, NoMemory> {
    let all = facts(alloc, program)?;
    judge(alloc, program, all.as_slice())
}

/// Each record by its tag, with the first of its violations.
pub fn put_verdicts(out: &mut Writer, alloc: Global, spots: Spots<'_>, program: &Typed) {
    let Ok(verdicts) = verdicts_on(alloc, program) else {
        return out.word("out of memory");
    };
    for (number, record) in program.records.as_slice().iter().enumerate() {
        out.bytes(record.tag.as_slice());
        match verdicts.of(number) {
            None => out.word("legal"),
            Some(violation) => {
                out.word(word_of(violation.test));
                put_place(out, spots, violation.place);
            }
        }
    }
}
