//! Runs of the whole program over bytes in memory, whose reads and writes fail.

use mirconst_run::run;
use std::alloc::Global;
use std::process::Abort;
use std::test::Fail;
use streams::{BytesSink, BytesSource};
use world::{Bytes, List, NoMemory};

/// `const GOAL: usize = 2 + 2`.
pub(crate) const SUM: &str =
    r#"{"version":1,"world":{"crates":[{"pointer_bytes":8}],"consts":[{"name":"GOAL","krate":0,"ty":{"Uint":"Usize"},"body":0}],"bodies":[{"body":{"exprs":[{"Literal":{"Int":["2",null]}},{"Literal":{"Int":["2",null]}},{"BinaryOp":{"lhs":0,"rhs":1,"op":{"ArithOp":"Add"}}}],"body_expr":2},"infer":{"expr_types":[{"Uint":"Usize"},{"Uint":"Usize"},{"Uint":"Usize"}],"copy_types":[{"Uint":"Usize"}]}}],"layouts":[[{"Uint":"Usize"},{"size":8,"align":8,"sized":true,"offsets":[],"variants":{"Single":0}}]]},"goals":[{"def":{"ConstId":0}}]}"#;

/// The report of the sum.
pub(crate) const REPORT: &str = "goal 0 value usize 0400000000000000\n  turns 1\n";

/// Calls of a source or a sink that fail, by their numbers from 1.
fn failing(alloc: Global, call: Option<u64>) -> Result<List<u64>, NoMemory> {
    let mut fails = List::new(alloc);
    if let Some(call) = call {
        fails.push(call)?;
    }
    Ok(fails)
}

/// A run: its words, its input, the calls of `read` and of `write` that fail, and the room for the report.
#[derive(Clone, Copy)]
pub(crate) struct Setting<'a> {
    words: &'a [&'a str],
    input: &'a [u8],
    read_fails: Option<u64>,
    write_fails: Option<u64>,
    room: u64,
}

/// How a run ended: its exit code, the line of its status, and what it wrote.
#[derive(Drop)]
pub(crate) struct Ended {
    code: u8,
    line: String,
    written: Bytes,
}

/// A run over this input without words and failures.
fn over(input: &[u8]) -> Setting {
    with_words(&[], input)
}

/// A run with these words over this input without failures.
pub(crate) fn with_words<'a>(words: &'a [&'a str], input: &'a [u8]) -> Setting<'a> {
    Setting {
        words,
        input,
        read_fails: None,
        write_fails: None,
        room: 65_536,
    }
}

/// Runs the program.
pub(crate) fn run_of(alloc: Global, setting: &Setting) -> Result<Ended, NoMemory> {
    let mut words = Vec::new(alloc);
    for word in setting.words {
        words.push(String::from_str(alloc, *word)?)?;
    }
    let mut src = BytesSource::new(
        Bytes::from_slice(alloc, setting.input)?,
        failing(alloc, setting.read_fails)?,
    );
    let mut out = BytesSink::new(alloc, setting.room, failing(alloc, setting.write_fails)?)?;
    let status = run(alloc, &words, &mut src, &mut out);
    Ok(Ended {
        code: status.code(),
        line: format!(in alloc; "{status}")?,
        written: Bytes::from_slice(alloc, out.bytes())?,
    })
}

/// Asserts how a run ended.
pub(crate) fn assert_end(rt: &impl Abort, ended: &Ended, code: u8, line: &str, written: &[u8]) {
    assert_eq!(rt; ended.line.as_str(), line);
    assert_eq!(rt; ended.code, code);
    assert_eq!(rt; ended.written.as_slice(), written);
}

const READ_FAULT: &str = "mirconst: read fault";

const WRITE_FAULT: &str = "mirconst: write fault";

/// How many blanks follow the sum's input, the read that fails, the exit code, the line of the status, and
/// what is written. A read gives at most 65536 bytes, and the last one none.
static READS: [(usize, u64, u8, &str, &str); 8] = [
    (0, 1, 7, READ_FAULT, ""),
    (0, 2, 7, READ_FAULT, ""),
    (0, 3, 0, "", REPORT),
    (150_000, 1, 7, READ_FAULT, ""),
    (150_000, 2, 7, READ_FAULT, ""),
    (150_000, 3, 7, READ_FAULT, ""),
    (150_000, 4, 7, READ_FAULT, ""),
    (150_000, 5, 0, "", REPORT),
];

/// The sum's input with blanks after it.
fn padded(alloc: Global, blanks: usize) -> Result<String, NoMemory> {
    let mut text = String::from_str(alloc, SUM)?;
    for _ in 0..blanks {
        text.push_str(" ")?;
    }
    Ok(text)
}

/// Asserts how runs end, each of which has one read that fails.
fn assert_reads(rt: &impl Abort, alloc: Global) -> Result<(), Fail> {
    for &(blanks, call, code, line, written) in &READS {
        let input = padded(alloc, blanks)?;
        let mut setting = over(input.as_bytes());
        setting.read_fails = Some(call);
        let ended = run_of(alloc, &setting)?;
        assert_end(rt, &ended, code, line, written.as_bytes());
    }
    Ok(())
}

/// The write that fails, the exit code, the line of the status, and what is written.
static WRITES: [(u64, u8, &str, &str); 2] = [(1, 8, WRITE_FAULT, ""), (2, 0, "", REPORT)];

/// Asserts how runs end, each of which has one write that fails.
fn assert_writes(rt: &impl Abort, alloc: Global) -> Result<(), Fail> {
    for &(call, code, line, written) in &WRITES {
        let mut setting = over(SUM.as_bytes());
        setting.write_fails = Some(call);
        let ended = run_of(alloc, &setting)?;
        assert_end(rt, &ended, code, line, written.as_bytes());
    }
    Ok(())
}

/// Asserts how runs end whose sinks have too little room for the report.
fn assert_room(rt: &impl Abort, alloc: Global) -> Result<(), Fail> {
    let report = REPORT.as_bytes();
    for room in 0..report.len() {
        let mut setting = over(SUM.as_bytes());
        setting.room = room as u64;
        let ended = run_of(alloc, &setting)?;
        assert_end(rt, &ended, 8, WRITE_FAULT, &report[..room]);
    }
    Ok(())
}

#[test]
fn reads_and_writes_fail(rt: HostRuntime) -> Result<(), Fail> {
    assert_reads(&rt, rt.alloc())?;
    assert_writes(&rt, rt.alloc())?;
    assert_room(&rt, rt.alloc())
}
