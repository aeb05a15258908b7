//! One run of a lowered body, and the answers to what it asks on the way.

ghost use Rattle.std.specs.Prelude.{◌≡◌, ◌⊎◌, ◌≤◌, [], Err, IfOk, IfErr, OnOk, OnErr, IsTrue};
ghost use Rattle.mir.specs.declared.answers.Query.TheVariants as query;
ghost use Rattle.mir.specs.declared.errors.ConstEvalError.TheVariants as constant;
ghost use Rattle.mir.specs.declared.errors.MirEvalError as error;
ghost use Rattle.mir_eval.specs.Evaluators.{in_state, is_over};
ghost use Rattle.mir_eval.specs.Machine.{blocks_left, turns_of};
ghost use Rattle.world.specs.Checked.{IsChecked};
ghost use Rattle.world.specs.Limits.{IsWithin};
ghost use Rattle.consteval.specs.Answers.{AnswersBody, RefusesRun, carried};
ghost use Rattle.consteval.specs.Kept.{HasBegun, IsRightAnswer, IsSound, Stays};
ghost use Rattle.consteval.specs.Machines.{machine_of};
ghost use Rattle.consteval.specs.Questions.{AsksForBody, IsCarried, IsToldRightly};

use crate::{Evaluated, Evaluations};
use mir::{Answer, ConstEvalError, MirBody, MirEvalError, MirLowerError, Query};
use mir_eval::{Evaluator, Limits, MirOutput, Turned};
use mir_mem::FlatMemory;
use std::alloc::Global;
use std::rc::Rc;
use world::{Const, DefWithBodyId, GenericArgs, HirDatabase, NoMemory};

/// The answer where no run began.
pub(crate) fn refused(alloc: Global, error: ConstEvalError) -> Evaluated
    ensures { result ≡ record { result = Err error; output = ([], []); turns = 0 } }
{
    Evaluated {
        result: Err(error),
        output: MirOutput::empty(alloc),
        turns: 0,
    }
}

/// A machine's outcome as an answer.
fn carried(outcome: Result<Const, MirEvalError>) -> Result<Const, ConstEvalError>
    ensures { result ≡ carried outcome }
{
    match outcome {
        Ok(konst) => Ok(konst),
        Err(error) => Err(ConstEvalError::from(error)),
    }
}

/// A machine that is about to enter the first block of a body. A body with parameters is refused, since
/// there are no arguments for it.
fn begun<'a>(
    alloc: Global,
    db: &'a HirDatabase,
    def: DefWithBodyId,
    body: Rc<MirBody>,
    limits: &Limits,
) -> Result<Evaluator<'a, FlatMemory>, MirEvalError>
    requires limits { IsWithin limits.now }
    requires checked { IsChecked db.now }
    ensures began { IfOk result (λ evaluator. HasBegun db.now def body.value limits.now (machine_of evaluator)) }
    ensures refused { IfErr result (λ e. (e ≡ error.NoMemory) ⊎ RefusesRun db.now def body.value limits.now e) }
{
    let mut evaluator = match Evaluator::new(alloc, db, def, false, limits) {
        Ok(evaluator) => evaluator,
        Err(error) => return Err(error),
    };
    match evaluator.begin(body) {
        Ok(()) => Ok(evaluator),
        Err(error) => Err(error),
    }
}

/// The answer of a run that is over.
fn ended(evaluator: Evaluator<'_, FlatMemory>) -> Evaluated
    requires { IsTrue (is_over (machine_of evaluator).state) }
    ensures printed { result.output ≡ ([], []) }
    ensures carries { IsCarried (machine_of evaluator.entry).state result.result }
    ensures turns { result.turns ≡ turns_of (machine_of evaluator.entry) }
{
    let turns = evaluator.turns();
    let (outcome, output) = evaluator.finish();
    Evaluated {
        result: carried(outcome),
        output,
        turns,
    }
}

/// The answer of a run for which memory ran out while it was to be told what it asked for.
fn exhausted(alloc: Global, evaluator: &Evaluator<'_, FlatMemory>) -> Evaluated
    ensures { result ≡ record { result = Err constant.NoMemory; output = ([], []); turns = turns_of (machine_of evaluator.now) } }
{
    Evaluated {
        result: Err(ConstEvalError::NoMemory),
        output: MirOutput::empty(alloc),
        turns: evaluator.turns(),
    }
}

impl<'w> Evaluations<'w> {
    /// The answer to the query for a body: the body, which is kept then, or why it can't be lowered.
    fn answer_for_body(
        &mut self,
        def: DefWithBodyId,
        args: &GenericArgs,
    ) -> Result<Answer, NoMemory>
        ensures right { IfOk result (IsRightAnswer self.new (query.Body def args.now)) }
        ensures stays { Stays self.old self.new }
        ensures sound { IsSound self.new }
    {
        match self.body_of(def, args) {
            Ok(body) => Ok(Answer::Body(body)),
            Err(MirLowerError::NoMemory) => Err(NoMemory),
            Err(error) => Ok(Answer::Failed(ConstEvalError::MirLowerError(error))),
        }
    }

    /// Tells a machine the body that it asks for, or why that can't be lowered. Without memory for
    /// either the machine has as many blocks left as before.
    fn tell_body(&mut self, evaluator: &mut Evaluator<'_, FlatMemory>) -> Result<(), NoMemory>
        requires { AsksForBody (machine_of evaluator.old).state }
        ensures told { OnOk result (IsToldRightly self.new (machine_of evaluator.old).state (machine_of evaluator.new).state) }
        ensures left { OnErr result (blocks_left 0 (machine_of evaluator.new).state ≡ blocks_left 0 (machine_of evaluator.old).state) }
        ensures kept { machine_of evaluator.new ≡ in_state (machine_of evaluator.new).state (machine_of evaluator.old) }
        ensures stays { Stays self.old self.new }
        ensures sound { IsSound self.new }
    {
        let answer = match evaluator.wanted() {
            Some(Query::Body(def, args)) => self.answer_for_body(*def, args)?,
            _ => unreachable!(),
        };
        evaluator.tell(answer)
    }

    /// Runs a body that nothing calls to its end. Each body that the run asks for is lowered and kept
    /// first, where none is kept.
    pub(crate) fn run_body(
        &mut self,
        def: DefWithBodyId,
        body: Rc<MirBody>,
        limits: &Limits,
    ) -> Evaluated
        requires limits { IsWithin limits.now }
        ensures printed { result.output ≡ ([], []) }
        ensures answered { AnswersBody self.new def body.value limits.now result.turns result.result }
        ensures turns { result.turns ≤ limits.now.blocks }
        ensures stays { Stays self.old self.new }
        ensures sound { IsSound self.new }
    {
        let alloc = self.alloc();
        let mut evaluator = match begun(alloc, self.world().db(), def, body, limits) {
            Ok(evaluator) => evaluator,
            Err(error) => return refused(alloc, ConstEvalError::from(error)),
        };
        'questions: while let Turned::Ask = evaluator.run() {
            match self.tell_body(&mut evaluator) {
                Ok(()) => {}
                Err(_) => return exhausted(alloc, &evaluator),
            }
        }
        ended(evaluator)
    }
}
