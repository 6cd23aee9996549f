//! The adapters on real files, and what no contract can say of them.

use crate::adapters::{FileHost, StdSink, StdSource};
use lay_base::{Host, HostRead, HostWrite, Sink, Source};
use std::fs;
use std::io::BufReader;
use std::test::Fail;

/// Whether just these bytes are left.
fn has_left<S: Source>(input: &mut S, bytes: &[u8]) -> bool {
    for byte in bytes {
        if input.next() != Ok(Some(*byte)) {
            return false;
        }
    }
    input.next() == Ok(None)
}

/// A call of a host, with what it answers.
enum HostCall {
    Read(&'static str, u64, Result<&'static [u8], HostRead>),
    Write(&'static str, &'static [u8], Result<(), HostWrite>),
}

static ON_A_FILE: [HostCall; 5] = [
    HostCall::Write("layc_test_file", b"seven b", Ok(())),
    HostCall::Read("layc_test_file", 7, Ok(b"seven b")),
    HostCall::Read("layc_test_file", 6, Err(HostRead::TooLong)),
    HostCall::Write("layc_test_file", b"", Ok(())),
    HostCall::Read("layc_test_file", 0, Ok(b"")),
];

static ON_NO_FILE: [HostCall; 3] = [
    HostCall::Read("layc_test_file", 7, Err(HostRead::Failed)),
    HostCall::Read(".", 7, Err(HostRead::Failed)),
    HostCall::Write(".", b"x", Err(HostWrite::Failed)),
];

fn call_holds<H: Host>(host: &mut H, call: &HostCall) -> bool {
    match call {
        HostCall::Read(name, limit, answer) => match (host.read_file(name, *limit), answer) {
            (Ok(bytes), Ok(wanted)) => bytes.as_slice() == *wanted,
            (Err(fault), Err(wanted)) => fault == *wanted,
            _ => false,
        },
        HostCall::Write(name, bytes, answer) => host.write_file(name, bytes) == *answer,
    }
}

/// The number, from 0 on, of the first call that a host answers otherwise.
fn first_otherwise<H: Host>(host: &mut H, calls: &[HostCall]) -> Option<usize> {
    for (i, call) in calls.iter().enumerate() {
        if !call_holds(host, call) {
            return Some(i);
        }
    }
    None
}

#[test]
fn files_are_read_and_written_as_they_are(rt: HostRuntime) -> Result<(), Fail> {
    assert_eq!(rt; first_otherwise(&mut FileHost::new(&rt), &ON_A_FILE), None);
    fs::remove_file(&rt, "layc_test_file")?;
    assert_eq!(rt; first_otherwise(&mut FileHost::new(&rt), &ON_NO_FILE), None);
    Ok(())
}

const STREAM: &str = "layc_test_stream";

fn is_written(rt: &HostRuntime) -> Result<bool, Fail> {
    let mut sink = StdSink::new(fs::create(rt, STREAM)?);
    Ok(sink.put(b"abc").is_ok() && sink.put(b"").is_ok())
}

/// Whether the bytes are read back in pieces of two bytes, of which the last is short.
fn is_read_back(rt: &HostRuntime) -> Result<bool, Fail> {
    let file = fs::open(rt, STREAM)?;
    let mut source = StdSource::new(BufReader::with_capacity(rt.alloc(), 2, file)?);
    Ok(has_left(&mut source, b"abc"))
}

/// Whether a file that is open for writing alone fails to be read.
fn is_unread(rt: &HostRuntime) -> Result<bool, Fail> {
    let mut source = StdSource::new(fs::create(rt, STREAM)?);
    Ok(source.next().is_err())
}

/// Whether a file that is open for reading alone fails to be written.
fn is_unwritten(rt: &HostRuntime) -> Result<bool, Fail> {
    let mut sink = StdSink::new(fs::open(rt, STREAM)?);
    Ok(sink.put(b"x").is_err())
}

#[test]
fn streams_give_their_bytes_and_their_end_and_count_faults(rt: HostRuntime) -> Result<(), Fail> {
    assert!(rt; is_written(&rt)?);
    assert!(rt; is_read_back(&rt)?);
    assert!(rt; is_unread(&rt)?);
    assert!(rt; is_unwritten(&rt)?);
    fs::remove_file(&rt, STREAM)?;
    Ok(())
}
