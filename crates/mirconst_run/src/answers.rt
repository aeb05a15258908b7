//! Evaluates goals, which are definitions to be evaluated as constants, in their order.

ghost use Rattle.std.specs.Prelude.{◌≡◌, true, false, None, IfOk, IfErr, OnOk, position};
ghost use Rattle.std.specs.List.{list_all};
ghost use Rattle.mirconst_run.specs.Answers.{AreAnswers, IsGoalAnswer, has_value, is_want_of_memory, limits_of, nothing_kept};
ghost use Rattle.mirconst_input.specs.Goals.{are_within, is_misfit};
ghost use Rattle.world.specs.Limits.{IsWithin};
ghost use Rattle.world.specs.declared.database.HirDatabase.{HirDatabase};
ghost use Rattle.consteval.specs.Kept.{Kept};

use consteval::{Evaluated, Evaluations};
use mir::ConstEvalError;
use std::alloc::Global;
use world::{Const, Limits, List, NoMemory};
use world_check::CheckedWorld;
use world_json::Goal;

/// Whether an evaluation ended since memory ran out.
fn is_want_of_memory(answer: &Result<Const, ConstEvalError>) -> bool
    ensures { result ≡ is_want_of_memory answer.now }
{
    matches!(answer, Err(ConstEvalError::NoMemory))
}

/// The limits on the evaluation of a goal, or the default ones where it has none.
#[tactic(auto, using(crate::proofs::Answering::within))]
fn limits_of(goal: &Goal) -> Limits
    requires { are_within goal.now.limits ≡ true }
    ensures same { result ≡ limits_of goal.now }
    ensures within { IsWithin result }
{
    goal.limits.unwrap_or_else(|| Limits::default_limits())
}

/// Evaluates the definition of a goal under its limits.
fn answer(evaluations: &mut Evaluations, goal: &Goal) -> Result<Evaluated, NoMemory>
    requires { are_within goal.now.limits ≡ true }
    ensures { IfOk result (λ outcome. IsGoalAnswer evaluations.old evaluations.new goal.now outcome) }
{
    let limits = limits_of(goal);
    let outcome = evaluations.eval_def(goal.def, &goal.args, &limits);
    if is_want_of_memory(&outcome.result) {
        return Err(NoMemory);
    }
    Ok(outcome)
}

/// Evaluates goals in order; each evaluation takes over the lowered bodies and the values that those before it
/// have kept.
fn answer_all(
    alloc: Global,
    evaluations: &mut Evaluations,
    goals: &[Goal],
) -> Result<List<Evaluated>, NoMemory>
    requires { (world : HirDatabase) × (position (is_misfit world) goals.now ≡ None) }
    ensures { IfOk result (λ outcomes. AreAnswers evaluations.old goals.now outcomes evaluations.new) }
{
    let mut outcomes = List::new(alloc);
    for goal in goals {
        let outcome = answer(evaluations, goal)?;
        outcomes.push(outcome)?;
    }
    Ok(outcomes)
}

/// Evaluates goals in a world in order, with no lowered body and no value kept before the first.
#[tactic(auto, using(crate::proofs::Answering::from_nothing))]
pub(crate) fn answers(
    alloc: Global,
    world: &CheckedWorld,
    goals: &List<Goal>,
) -> Result<List<Evaluated>, NoMemory>
    requires { position (is_misfit world.now) goals.now ≡ None }
    ensures { IfOk result (λ outcomes. (after : Kept) × AreAnswers (nothing_kept world.now) goals.now outcomes after) }
{
    let mut evaluations = Evaluations::new(alloc, world)?;
    answer_all(alloc, &mut evaluations, goals.as_slice())
}

/// Whether each of the evaluations gave a value.
pub(crate) fn all_have_values(outcomes: &[Evaluated]) -> bool
    ensures { result ≡ list_all has_value outcomes.now }
{
    outcomes.iter().all(|outcome| outcome.result.is_ok())
}
