//! The fields of an instruction word.

ghost use Rattle.std.specs.Prelude.{◌≡◌};
ghost use Rattle.rv_isa.specs.Fields.{InRange, fields_of, word};

/// The six fields of format R, from bit 31 down. The other formats cut and join them.
#[derive(Clone, Copy)]
pub struct Fields {
    pub funct7: u32,
    pub rs2: u32,
    pub rs1: u32,
    pub funct3: u32,
    pub rd: u32,
    pub opcode: u32,
}

/// The word with these fields.
pub fn joined(fields: Fields) -> u32
    requires { InRange fields }
    ensures { result ≡ word fields }
{
    fields.opcode
        + fields.rd * 128
        + fields.funct3 * 4096
        + fields.rs1 * 32768
        + fields.rs2 * 1048576
        + fields.funct7 * 33554432
}

/// The fields of a word.
pub fn split(word: u32) -> Fields
    ensures fields { result ≡ fields_of word }
    ensures in_range { InRange result }
{
    Fields {
        funct7: word / 33554432,
        rs2: word / 1048576 % 32,
        rs1: word / 32768 % 32,
        funct3: word / 4096 % 8,
        rd: word / 128 % 32,
        opcode: word % 128,
    }
}
