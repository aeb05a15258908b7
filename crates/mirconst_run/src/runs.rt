//! A whole run of the program.

ghost use Rattle.std.specs.Prelude.{◌≡◌, false, IfOk, IfErr};
ghost use Rattle.mirconst_input.specs.Input.{TakesFew};
ghost use Rattle.mirconst_input.specs.Refusals.{IsOfInput};
ghost use Rattle.mirconst_input.specs.Streams.{streams_of};
ghost use Rattle.mirconst_run.specs.Runs.{IsReportOf, IsAnswered, Stops, Means};
ghost use Rattle.mirconst_input.specs.Words.{is_command};

use crate::answers::{all_have_values, answers};
use crate::report;
use crate::writing::write_whole;
use mirconst_input::{Status, checked_input, is_command, read_input};
use std::alloc::Global;
use streams::{Sink, Source};
use world::Bytes;

/// The text of the report, and whether the evaluation of each goal gave a value.
#[derive(Drop)]
struct Output {
    text: Bytes,
    all: bool,
}

/// Evaluates the goals in the bytes of the input, and makes the text of the report on them.
#[tactic(auto, using(crate::proofs::Running::reports))]
fn answered(alloc: Global, bytes: &[u8]) -> Result<Output, Status>
    ensures reports { IfOk result (λ output. IsReportOf bytes.now output.text output.all) }
    ensures refused { IfErr result (λ status. IsOfInput bytes.now status) }
{
    let (world, goals) = checked_input(alloc, bytes)?;
    let outcomes = answers(alloc, &world, &goals)?;
    let all = all_have_values(outcomes.as_slice());
    let text = report(alloc, world.db(), &outcomes)?;
    Ok(Output { text, all })
}

/// Reads the input, evaluates its goals and writes the report. Returns whether the evaluation of each goal gave
/// a value.
#[tactic(auto, using(crate::proofs::Running::answered, crate::proofs::Stopping::unread, crate::proofs::Stopping::refused, crate::proofs::Stopping::unwritten))]
fn answer_input<S: Source, K: Sink>(alloc: Global, src: &mut S, out: &mut K) -> Result<bool, Status>
    ensures few { TakesFew (S.left src.old) (S.left src.new) }
    ensures answers { IfOk result (λ all. IsAnswered (streams_of (S.left src.old) (S.faults src.old) (K.written out.old) (K.faults out.old)) (streams_of (S.left src.new) (S.faults src.new) (K.written out.new) (K.faults out.new)) all) }
    ensures stops { IfErr result (λ status. Stops (streams_of (S.left src.old) (S.faults src.old) (K.written out.old) (K.faults out.old)) (streams_of (S.left src.new) (S.faults src.new) (K.written out.new) (K.faults out.new)) status) }
{
    let bytes = read_input(alloc, src)?;
    let answered = answered(alloc, bytes.as_slice())?;
    write_whole(out, answered.text.as_slice()).map_err(|_| Status::WriteFault)?;
    Ok(answered.all)
}

/// Runs the program: reads a world and goals, which are definitions to be evaluated as constants, evaluates the
/// goals in order, and writes the report. The arguments `words` of the program have to be none, or `eval`.
#[tactic(auto, using(crate::proofs::Stopping::stop_means, mirconst_input::proofs::Moving::takes_none))]
pub fn run<S: Source, K: Sink>(
    alloc: Global,
    words: &Vec<String>,
    src: &mut S,
    out: &mut K,
) -> Status
    ensures means { Means words.now.items (streams_of (S.left src.old) (S.faults src.old) (K.written out.old) (K.faults out.old)) (streams_of (S.left src.new) (S.faults src.new) (K.written out.new) (K.faults out.new)) result }
    ensures few { TakesFew (S.left src.old) (S.left src.new) }
    ensures words { is_command words.now.items ≡ false → result ≡ Status.BadWords }
{
    if !is_command(words) {
        return Status::BadWords;
    }
    match answer_input(alloc, src, out) {
        Ok(true) => Status::Values,
        Ok(false) => Status::Errors,
        Err(status) => status,
    }
}
