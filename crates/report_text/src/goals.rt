//! The lines of the report for a goal, which is a definition that was evaluated as a constant.

ghost use Rattle.std.specs.Prelude.{◌≡◌, codes, IfOk};
ghost use Rattle.report_text.specs.Goals.{answer_text, result_text, output_line, output_lines, turns_line, answer_line, result_lines, goal_text};

use crate::consts::const_text;
use crate::faults::fault_text;
use crate::memory::memory_lines;
use crate::texts::{digits_or_dash, enclosed, joined, numbered};
use crate::ty::type_text;
use mir::ConstEvalError;
use mir_eval::MirOutput;
use std::alloc::Global;
use world::{Bytes, Const, HirDatabase, NoMemory};

/// The text of the constant that an evaluation gave: for a value, its type and its bytes.
fn answer_text(alloc: Global, db: &HirDatabase, konst: &Const) -> Result<Bytes, NoMemory>
    ensures { IfOk result (λ text. text ≡ answer_text db.now konst.now) }
{
    match konst {
        Const::Value(value) => {
            let ty = type_text(alloc, db, &value.ty)?;
            let digits = digits_or_dash(alloc, value.memory.as_slice())?;
            enclosed(alloc, ty.as_slice(), b" ", digits.as_slice())
        }
        Const::Param(_) | Const::Unevaluated(_) | Const::Error => const_text(alloc, db, konst),
    }
}

/// The text of the result of an evaluation: a constant or an error.
fn result_text(
    alloc: Global,
    db: &HirDatabase,
    answer: &Result<Const, ConstEvalError>,
) -> Result<Bytes, NoMemory>
    ensures { IfOk result (λ text. text ≡ result_text db.now answer.now) }
{
    match answer {
        Ok(konst) => {
            let text = answer_text(alloc, db, konst)?;
            joined(alloc, b"value ", text.as_slice())
        }
        Err(fault) => {
            let text = fault_text(alloc, db, fault)?;
            joined(alloc, b"error ", text.as_slice())
        }
    }
}

/// The line with the bytes that an evaluation wrote to an output stream; empty if there are none.
fn output_line(alloc: Global, name: &[u8], bytes: &[u8]) -> Result<Bytes, NoMemory>
    ensures { IfOk result (λ text. text ≡ output_line name.now bytes.now) }
{
    match bytes {
        [] => Ok(Bytes::new(alloc)),
        [_, ..] => {
            let digits = digits_or_dash(alloc, bytes)?;
            let rest = enclosed(alloc, b" ", digits.as_slice(), b"\n")?;
            enclosed(alloc, b"  ", name, rest.as_slice())
        }
    }
}

/// The lines with the bytes that an evaluation wrote to the standard output and the standard error.
fn output_lines(alloc: Global, output: &MirOutput) -> Result<Bytes, NoMemory>
    ensures { IfOk result (λ text. text ≡ output_lines output.now) }
{
    let stdout = output_line(alloc, b"stdout", output.stdout_bytes())?;
    let stderr = output_line(alloc, b"stderr", output.stderr_bytes())?;
    joined(alloc, stdout.as_slice(), stderr.as_slice())
}

/// The line with the number of basic blocks that an evaluation entered.
fn turns_line(alloc: Global, turns: u64) -> Result<Bytes, NoMemory>
    ensures { IfOk result (λ text. text ≡ turns_line turns) }
{
    let digits = turns.to_string(alloc)?;
    enclosed(alloc, b"  turns ", digits.as_str().as_bytes(), b"\n")
}

/// The line with the result of a goal's evaluation.
fn answer_line(
    alloc: Global,
    db: &HirDatabase,
    number: u64,
    answer: &Result<Const, ConstEvalError>,
) -> Result<Bytes, NoMemory>
    ensures { IfOk result (λ text. text ≡ answer_line db.now number answer.now) }
{
    let digits = number.to_string(alloc)?;
    let text = result_text(alloc, db, answer)?;
    let rest = enclosed(alloc, b" ", text.as_slice(), b"\n")?;
    enclosed(alloc, b"goal ", digits.as_str().as_bytes(), rest.as_slice())
}

/// The lines for the memory behind the addresses in the result of an evaluation.
fn result_lines(
    alloc: Global,
    db: &HirDatabase,
    answer: &Result<Const, ConstEvalError>,
) -> Result<Bytes, NoMemory>
    ensures { IfOk result (λ text. text ≡ result_lines db.now answer.now) }
{
    match answer {
        Ok(Const::Value(value)) => memory_lines(alloc, db, &value.memory_map),
        Ok(Const::Param(_) | Const::Unevaluated(_) | Const::Error) | Err(_) => Ok(Bytes::new(
            alloc,
        )),
    }
}

/// The lines for goal `number`: the result of its evaluation, how many basic blocks the evaluation entered, the
/// bytes that it wrote, and the memory behind the addresses in the result.
pub fn goal_text(
    alloc: Global,
    db: &HirDatabase,
    number: u64,
    answer: &Result<Const, ConstEvalError>,
    output: &MirOutput,
    turns: u64,
) -> Result<Bytes, NoMemory>
    ensures { IfOk result (λ text. text ≡ goal_text db.now number answer.now output.now turns) }
{
    let first = answer_line(alloc, db, number, answer)?;
    let second = turns_line(alloc, turns)?;
    let written = output_lines(alloc, output)?;
    let memory = result_lines(alloc, db, answer)?;
    let others = joined(alloc, written.as_slice(), memory.as_slice())?;
    enclosed(
        alloc,
        first.as_slice(),
        second.as_slice(),
        others.as_slice(),
    )
}
