//! The text of the report on the evaluations of goals.

ghost use Rattle.std.specs.Prelude.{◌≡◌, ◌++◌, IfOk, OnOk};
ghost use Rattle.mirconst_run.specs.Report.{report_text};
ghost use Rattle.report_text.specs.Goals.{goal_text};

use consteval::Evaluated;
use report_text::goal_text;
use std::alloc::Global;
use world::{Bytes, HirDatabase, List, NoMemory};

/// Adds the lines for the outcome of one evaluation at the end of a text.
fn push_goal(
    alloc: Global,
    db: &HirDatabase,
    out: &mut Vec<u8>,
    number: u64,
    outcome: &Evaluated,
) -> Result<(), NoMemory>
    ensures { OnOk result (out.new.items ≡ out.old.items ++ goal_text db.now number outcome.now.result outcome.now.output outcome.now.turns) }
{
    let text = goal_text(
        alloc,
        db,
        number,
        &outcome.result,
        &outcome.output,
        outcome.turns,
    )?;
    out.extend_from_slice(text.as_slice())?;
    Ok(())
}

/// The lines for the outcomes of all evaluations.
#[tactic(auto, using(crate::proofs::Reporting::one_more, crate::proofs::Reporting::all_done))]
fn report_of(alloc: Global, db: &HirDatabase, outcomes: &[Evaluated]) -> Result<Bytes, NoMemory>
    ensures { IfOk result (λ text. text ≡ report_text db.now outcomes.now) }
{
    let mut out = Vec::new(alloc);
    for i in 0..outcomes.len() {
        push_goal(alloc, db, &mut out, i as u64, &outcomes[i])?;
    }
    Ok(Bytes::from_vec(out))
}

/// The report on the outcomes of evaluating goals, in their order, with the names that the world gives to items.
pub fn report(
    alloc: Global,
    db: &HirDatabase,
    outcomes: &List<Evaluated>,
) -> Result<Bytes, NoMemory>
    ensures { IfOk result (λ text. text ≡ report_text db.now outcomes.now) }
{
    report_of(alloc, db, outcomes.as_slice())
}
