//! The texts of refusals, put to a sink.

ghost use Rattle.std.specs.Prelude.{◌≡◌, ◌<◌, ◌≤◌, ◌↔◌, IsOk, IsTrue, [], ◌∷◌, ◌++◌, codes, decimal};
ghost use Rattle.lay_base.specs.Calls.{PutGives};
ghost use Rattle.refusals.specs.Names.{field_name};
ghost use Rattle.refusals.specs.Puts.{Puts};
ghost use Rattle.refusals.specs.Table.{HasPlace, difference, hexadecimal, hexadecimal_digit, line, refusal_text, stale_line, usage};

use crate::lines::{put_all, put_line, put_line_at};
use crate::names::{field_name, limit_name, room_name, rule_name, trap_name, undefined_name};
use crate::refusal::Refusal;
use crate::table::places_of;
use itoa::Buffer;
use lay_base::{ElfField, Sink, SinkFault, Stale, StaleKind, keyword_text};

/// Writes the text of a refusal, `at` and `first` being the texts FILE:LINE of its first place and
/// its second, or empty where it has none. It takes no memory, so that it can be written when
/// memory is out.
pub fn put_refusal<E: Sink>(
    err: &mut E,
    refusal: &Refusal,
    at: &[u8],
    first: &[u8],
) -> Result<(), SinkFault>
    ensures count { E.faults err.old ≤ E.faults err.new }
    ensures kept { IsOk result → E.faults err.new ≡ E.faults err.old }
    ensures gives { PutGives (E.faults err.old) (E.faults err.new) (E.written err.old) (E.written err.new)
        (refusal_text at.now first.now refusal.now) result }
{
    if places_of(refusal).0.is_some() {
        put_with_place(err, refusal, at, first)
    } else {
        put_without_place(err, refusal)
    }
}

// Puts the text of a refusal that has a place.
#[tactic(auto, unfolding(crate::specs::Table::refusal_text))]
fn put_with_place<E: Sink>(
    err: &mut E,
    refusal: &Refusal,
    at: &[u8],
    first: &[u8],
) -> Result<(), SinkFault>
    requires { HasPlace refusal.now }
    ensures { Puts (E.faults err.old) (E.faults err.new) (E.written err.old) (E.written err.new)
        (refusal_text at.now first.now refusal.now) result }
{
    match refusal {
        Refusal::BadByte(_) => put_line_at(err, at, &[b"unexpected byte"]),
        Refusal::BadLiteral(_) => put_line_at(err, at, &[b"bad literal"]),
        Refusal::Unclosed(_) => put_line_at(err, at, &[b"not closed"]),
        Refusal::TooWide(_) => put_line_at(err, at, &[b"literal or name too wide"]),
        Refusal::NoParse(_) => put_line_at(err, at, &[b"syntax error"]),
        Refusal::Unsupported(keyword, _) => {
            let pieces = [b"keyword ", keyword_text(*keyword), b" is not supported"];
            put_line_at(err, at, &pieces)
        }
        Refusal::TooBig(_) => put_line_at(err, at, &[b"type too big"]),
        Refusal::IllTyped(rule, _) => {
            let pieces = [b"type rule ", rule_name(*rule), b" broken"];
            put_line_at(err, at, &pieces)
        }
        Refusal::Undeclared(name, _) => {
            let pieces = [b"undeclared name ", name.as_slice()];
            put_line_at(err, at, &pieces)
        }
        Refusal::Redeclared(name, _, _) => {
            let pieces = [name.as_slice(), b" declared again, first at ", first];
            put_line_at(err, at, &pieces)
        }
        Refusal::Twice(name, _, _) => {
            let pieces = [name.as_slice(), b" defined again, first at ", first];
            put_line_at(err, at, &pieces)
        }
        Refusal::TagClash(tag, _, _) => {
            let pieces = [b"record ", tag.as_slice(), b" differs from ", first];
            put_line_at(err, at, &pieces)
        }
        Refusal::NameClash(name, _, _) => {
            let pieces = [b"type of ", name.as_slice(), b" differs from ", first];
            put_line_at(err, at, &pieces)
        }
        Refusal::Undefined(kind, _) => {
            let pieces = [b"undefined: ", undefined_name(*kind)];
            put_line_at(err, at, &pieces)
        }
        _ => unreachable!(),
    }
}

// Puts the text of a refusal that has no place.
#[tactic(auto, unfolding(crate::specs::Table::refusal_text))]
fn put_without_place<E: Sink>(err: &mut E, refusal: &Refusal) -> Result<(), SinkFault>
    requires { ¬ HasPlace refusal.now }
    ensures { Puts (E.faults err.old) (E.faults err.new) (E.written err.old) (E.written err.new)
        (refusal_text [] [] refusal.now) result }
{
    match refusal {
        Refusal::NoMain => put_line(err, &[b"no function main"]),
        Refusal::ReadFault => put_line(err, &[b"read failed"]),
        Refusal::WriteFault => put_line(err, &[b"write failed"]),
        Refusal::Memory(_) | Refusal::Unread => put_line(err, &[b"out of memory"]),
        Refusal::Usage => put_usage(err),
        Refusal::Missing(name) => put_line(err, &[b"no definition of ", name.as_slice()]),
        Refusal::FileFault(name) => put_line(err, &[b"cannot read ", name.as_slice()]),
        Refusal::TooLong(name) => put_line(err, &[name.as_slice(), b" is too long"]),
        Refusal::NotBuilt(name) => put_line(err, &[name.as_slice(), b": form not built yet"]),
        Refusal::Limit(which, counted) => put_passed(err, b"limit ", limit_name(*which), *counted),
        Refusal::Room(what, counted) => put_passed(
            err,
            b"room ",
            room_name(*what),
            u128::from(*counted),
        ),
        Refusal::TurnLimit(turns) => put_reached(err, b"turn limit ", *turns),
        Refusal::StepLimit(steps) => put_reached(err, b"step limit ", *steps),
        Refusal::BadProfile(line) => put_bad_profile(err, *line),
        Refusal::Stale(name, stale) => put_stale(err, name.as_slice(), *stale),
        Refusal::BadElf(field, found) => put_bad_elf(err, *field, *found),
        Refusal::Trap(kind, pc) => {
            let pieces = [b"trap ", trap_name(*kind), b" at 0x", &hexadecimal(*pc)];
            put_line(err, &pieces)
        }
        Refusal::Break(pc) => put_line(err, &[b"out of room at 0x", &hexadecimal(*pc)]),
        _ => unreachable!(),
    }
}

// Puts the line of a limit or a room that so much passed.
fn put_passed<E: Sink>(
    err: &mut E,
    kind: &[u8],
    name: &[u8],
    counted: u128,
) -> Result<(), SinkFault>
    ensures { Puts (E.faults err.old) (E.faults err.new) (E.written err.old) (E.written err.new)
        (line (kind.now ∷ name.now ∷ codes " passed: " ∷ decimal counted ∷ [])) result }
{
    let mut number = Buffer::new();
    let pieces = [kind, name, b" passed: ", number.format(counted).as_bytes()];
    put_line(err, &pieces)
}

// Puts the line of a limit of a run.
fn put_reached<E: Sink>(err: &mut E, kind: &[u8], limit: u64) -> Result<(), SinkFault>
    ensures { Puts (E.faults err.old) (E.faults err.new) (E.written err.old) (E.written err.new)
        (line (kind.now ∷ decimal limit ∷ codes " reached" ∷ [])) result }
{
    let mut number = Buffer::new();
    put_line(err, &[kind, number.format(limit).as_bytes(), b" reached"])
}

// Puts the line of a profile that breaks its format.
fn put_bad_profile<E: Sink>(err: &mut E, at: u32) -> Result<(), SinkFault>
    ensures { Puts (E.faults err.old) (E.faults err.new) (E.written err.old) (E.written err.new)
        (line (codes "bad profile at line " ∷ decimal at ∷ [])) result }
{
    let mut number = Buffer::new();
    let pieces = [b"bad profile at line ", number.format(at).as_bytes()];
    put_line(err, &pieces)
}

// Puts the line of a profile of another program.
fn put_stale<E: Sink>(err: &mut E, name: &[u8], stale: Stale) -> Result<(), SinkFault>
    ensures { Puts (E.faults err.old) (E.faults err.new) (E.written err.old) (E.written err.new)
        (stale_line name.now stale) result }
{
    let (what, whose) = difference(stale.kind, name);
    let (mut expected, mut found) = (Buffer::new(), Buffer::new());
    let expected = expected.format(stale.expected).as_bytes();
    let found = found.format(stale.found).as_bytes();
    let pieces = [
        b"stale profile: ",
        what,
        whose,
        b": ",
        expected,
        b" in the program, ",
        found,
        b" in the profile",
    ];
    put_line(err, &pieces)
}

// In what a profile differs from the program: words, and the name of the function where the
// difference is in one.
fn difference(kind: StaleKind, name: &[u8]) -> (&[u8], &[u8])
    ensures { difference kind name.now ≡ result.0.now ++ result.1.now }
{
    match kind {
        StaleKind::Functions => (b"functions", b""),
        StaleKind::Order => (b"place of ", name),
        StaleKind::Loops => (b"loops of ", name),
        StaleKind::Arms => (b"arms of ", name),
    }
}

// Puts the line of a field of an ELF file.
fn put_bad_elf<E: Sink>(err: &mut E, field: ElfField, found: u64) -> Result<(), SinkFault>
    ensures { Puts (E.faults err.old) (E.faults err.new) (E.written err.old) (E.written err.new)
        (line (codes "bad ELF: " ∷ field_name field ∷ codes " " ∷ decimal found ∷ [])) result }
{
    let mut number = Buffer::new();
    let found = number.format(found).as_bytes();
    put_line(err, &[b"bad ELF: ", field_name(field), b" ", found])
}

// Puts how the program is called.
#[tactic(auto, unfolding(crate::specs::Table::usage))]
fn put_usage<E: Sink>(err: &mut E) -> Result<(), SinkFault>
    ensures { Puts (E.faults err.old) (E.faults err.new) (E.written err.old) (E.written err.new)
        usage result }
{
    put_all(
        err,
        &[
            b"usage: layc compile -o OUT [--profile P] [--plain] [--heap MIB] [--stack MIB] FILE...\n",
            b"       layc profile -o P [--turns N] FILE...\n",
            b"       layc interp [--turns N] FILE...\n",
            b"       layc run [--steps N] ELF\n",
        ],
    )
}

// The eight hexadecimal digits of a number, from the highest on.
fn hexadecimal(n: u32) -> [u8; 8]
    ensures { result ≡ hexadecimal n }
{
    [
        hexadecimal_digit(n >> 28),
        hexadecimal_digit((n >> 24) % 16),
        hexadecimal_digit((n >> 20) % 16),
        hexadecimal_digit((n >> 16) % 16),
        hexadecimal_digit((n >> 12) % 16),
        hexadecimal_digit((n >> 8) % 16),
        hexadecimal_digit((n >> 4) % 16),
        hexadecimal_digit(n % 16),
    ]
}

fn hexadecimal_digit(digit: u32) -> u8
    requires { digit < 16 }
    ensures { result ≡ hexadecimal_digit digit }
{
    if digit < 10 {
        b'0' + digit as u8
    } else {
        b'a' + (digit as u8 - 10)
    }
}
