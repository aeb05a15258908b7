//! The machine as its callers use it: made, begun once, run to its end, told what it asks for on the way, and taken apart.

ghost use Rattle.std.specs.Prelude.{◌≡◌, ◌↔◌, ◌⊎◌, ◌^◌, ◌≤◌, [], slice_get, option_and_then, codes, IfOk, IfErr, IfSome, OnOk, OnErr, IsOk, IsSome, IsTrue};
ghost use Rattle.std.specs.Option.{option_copied};
ghost use Rattle.world.specs.Checked.{IsChecked};
ghost use Rattle.mir_rows.specs.Alignments.{HasAlignments};
ghost use Rattle.mir_eval.specs.Start.{is_own_width};
ghost use Rattle.mir.specs.declared.errors.MirEvalError as error;

use crate::MirOutput;
use crate::frames::Program;
use crate::runs::{Phase, Run};
use mir::{Answer, Answers, MirBody, MirEvalError, Query};
use mir_mem::Memory;
use std::alloc::Global;
use std::collections::BTreeMap;
use std::mem;
use std::rc::Rc;
use world::{Const, Crate, DefWithBodyId, HirDatabase, Limits, NoMemory, Text};

/// How a run turned out.
#[derive(Clone, Copy, PartialEq, Eq, Debug)]
pub enum Turned {
    /// It ended in a value.
    Done,
    /// It ended in a fault.
    Fault,
    /// It waits for the answer to a query, and goes on once it is told.
    Ask,
}

/// The machine for one run of one body.
#[derive(Drop)]
pub struct Evaluator<'a, M> {
    alloc: Global,
    db: &'a HirDatabase,
    owner: DefWithBodyId,
    blocks: u64,
    nesting: u32,
    bytes: u64,
    ghost few_bytes: { bytes ≤ 2 ^ 59 },
    ghost aligned: { HasAlignments db.now },
    phase: Phase<'a, M>,
}

/// The size of a pointer of the crate that something belongs to, where it is known.
fn pointer_bytes(db: &HirDatabase, krate: Option<Crate>) -> Option<u64>
    ensures { result ≡ option_and_then (λ krate. option_and_then (λ row. row.pointer_bytes) (slice_get db.now.crates krate.0)) krate }
{
    match krate {
        Some(krate) => match db.crates.get(krate.0 as u64) {
            Some(row) => row.pointer_bytes,
            None => None,
        },
        None => None,
    }
}

/// Whether a pointer has as many bytes as the machine's own.
fn is_own_width(bytes: Option<u64>) -> bool
    ensures { result ≡ is_own_width bytes }
{
    match bytes {
        Some(bytes) => bytes == 8,
        None => false,
    }
}

/// The refusal of a target whose pointers have another size than the machine's own.
fn other_width(alloc: Global) -> MirEvalError
    ensures { (result ≡ error.NoMemory) ⊎ (result ≡ error.NotSupported (codes "targets with different pointer size from host")) }
{
    match Text::from_str(alloc, "targets with different pointer size from host") {
        Ok(text) => MirEvalError::NotSupported(text),
        Err(_) => MirEvalError::NoMemory,
    }
}

impl<'a, M: Memory + Drop> Evaluator<'a, M> {
    ghost use Rattle.world.specs.Limits.{IsWithin};
    ghost use Rattle.mir.specs.Answers.{answers_kind};
    ghost use Rattle.mir_eval.specs.Machine.{Fresh, Over, nesting_left, pointer_bytes, turns_of, RunsTo, StepsTo, blocks_left};
    ghost use Rattle.mir_eval.specs.Start.{start_of};
    ghost use Rattle.mir_eval.specs.Evaluators.{machine_of, crate_or_first, is_fresh, is_going, is_over, has_stopped, wanted_in, in_state, turned, outcome, Goes, IsTold};

    /// A machine for a body that belongs to `owner`, in a world that passed the check. It takes no memory: the memory of its
    /// run is made by `begin`. The refusal is `TargetDataLayoutNotAvailable`, exactly where the size of a pointer of the owner's
    /// crate isn't known.
    #[tactic(auto, using(mir_rows::proofs::Alignments::has_alignments))]
    pub fn new(
        alloc: Global,
        db: &'a HirDatabase,
        owner: DefWithBodyId,
        _assert_placeholder_ty_is_unused: bool,
        limits: &Limits,
    ) -> Result<Evaluator<'a, M>, MirEvalError>
        requires limits { IsWithin limits.now }
        requires checked { IsChecked db.now }
        ensures made { IfOk result (λ evaluator. machine_of M.areas evaluator ≡ record { world = db.now; owner = owner; blocks = limits.now.blocks; nesting = limits.now.nesting; bytes = limits.now.bytes; state = Fresh }) }
        ensures refused { IfErr result (λ e. e ≡ error.TargetDataLayoutNotAvailable (crate_or_first db.now owner)) }
        ensures variant { IsOk result ↔ IsSome (pointer_bytes db.now owner) }
    {
        let krate = db.crate_of(owner);
        match pointer_bytes(db, krate) {
            Some(_) => Ok(Evaluator {
                alloc,
                db,
                owner,
                blocks: limits.blocks,
                nesting: limits.nesting,
                bytes: limits.bytes,
                phase: Phase::Fresh,
            }),
            None => Err(MirEvalError::TargetDataLayoutNotAvailable(krate.unwrap_or(Crate(0)))),
        }
    }

    /// Begins a run of the body, which takes one level of nesting for itself. The refusals, in this
    /// order: `NotSupported` where the pointers of the owner's crate have another size than 8 bytes;
    /// `StackOverflow` where the limit on nesting is 0; `LayoutError` or `TypeIsUnsized` for the first
    /// local whose type has no layout or no size; `MemoryLimitExceeded` where the stack with the cells of
    /// all locals would have more bytes, the one at its start aside, than the limit on bytes; `InternalError` where the
    /// body has parameters. `NoMemory`, for want of memory alone, may come in place of any of them and of a run. After a
    /// refusal nothing was begun.
    #[tactic(auto, unfolding(crate::specs::Start::start_of))]
    pub fn begin(&mut self, body: Rc<MirBody>) -> Result<(), MirEvalError>
        requires { IsTrue (is_fresh (machine_of M.areas self.old).state) }
        ensures began { IfOk result (λ _. start_of (machine_of M.areas self.old) body.value ≡ Ok (machine_of M.areas self.new).state) }
        ensures kept { machine_of M.areas self.new ≡ record (machine_of M.areas self.old) { state = (machine_of M.areas self.new).state } }
        ensures goes { OnOk result (IsTrue (is_going (machine_of M.areas self.new).state)) }
        ensures refused { IfErr result (λ e. (e ≡ error.NoMemory) ⊎ (start_of (machine_of M.areas self.old) body.value ≡ Err e)) }
        ensures unchanged { OnErr result (machine_of M.areas self.new ≡ machine_of M.areas self.old) }
    {
        if !is_own_width(pointer_bytes(self.db, self.db.crate_of(self.owner))) {
            return Err(other_width(self.alloc));
        }
        if self.nesting == 0 {
            return Err(MirEvalError::StackOverflow);
        }
        match Run::start(
            self.alloc,
            Program {
                alloc: self.alloc,
                db: self.db,
                nesting: self.nesting,
                bytes: self.bytes,
                answers: Answers::new(self.alloc),
                callees: BTreeMap::new(self.alloc),
            },
            body,
            self.blocks,
        ) {
            Ok(run) => {
                self.phase = Phase::Going(run);
                Ok(())
            }
            Err(e) => Err(e),
        }
    }

    /// Runs one block to its end, to a query or to a fault; or, after an answer, the call that waited for it. Want of memory
    /// ends the run, and so does a value for which too few levels of nesting are left.
    pub fn advance(&mut self)
        requires { IsTrue (is_going (machine_of M.areas self.old).state) }
        ensures stepped { Goes (machine_of M.areas self.old).state StepsTo (machine_of M.areas self.new).state }
        ensures kept { machine_of M.areas self.new ≡ in_state (machine_of M.areas self.new).state (machine_of M.areas self.old) }
    {
        let alloc = self.alloc;
        self.phase = match mem::replace(&mut self.phase, Phase::Fresh) {
            Phase::Going(mut run) => {
                let went = run.step(alloc);
                run.into_phase(went)
            }
            other => other,
        };
    }

    /// Runs to the end, or to a query, and returns which. A value takes as many of the levels of nesting that are left as
    /// its type is high: where there are fewer, the end is `StackOverflow`, a fault that isn't the body's own. Want of memory is a fault.
    pub fn run(&mut self) -> Turned
        requires { IsTrue (is_going (machine_of M.areas self.old).state) }
        ensures ended { Goes (machine_of M.areas self.old).state RunsTo (machine_of M.areas self.new).state }
        ensures stopped { IsTrue (has_stopped (machine_of M.areas self.new).state) }
        ensures variant { result ≡ turned (machine_of M.areas self.new).state }
        ensures kept { machine_of M.areas self.new ≡ in_state (machine_of M.areas self.new).state (machine_of M.areas self.old) }
    {
        let alloc = self.alloc;
        self.phase = match mem::replace(&mut self.phase, Phase::Fresh) {
            Phase::Going(mut run) => {
                let went = run.finish(alloc);
                run.into_phase(went)
            }
            other => other,
        };
        match &self.phase {
            Phase::Over { outcome: Ok(_), .. } => Turned::Done,
            Phase::Asking(..) => Turned::Ask,
            _ => Turned::Fault,
        }
    }

    /// The query that the run waits for, where it waits for one. It takes no memory.
    pub fn wanted(&self) -> Option<&Query>
        ensures { option_copied result ≡ wanted_in (machine_of M.areas self.now).state }
    {
        match &self.phase {
            Phase::Asking(query, _) => Some(query),
            _ => None,
        }
    }

    /// Tells the answer to the query that the run waits for, which is of the kind that the query wants. The run can go on then.
    /// Without memory it is over, and no query is wanted either.
    pub fn tell(&mut self, answer: Answer) -> Result<(), NoMemory>
        requires wanted { IsSome (wanted_in (machine_of M.areas self.old).state) }
        requires kind { IfSome (wanted_in (machine_of M.areas self.old).state) (λ q. IsTrue (answers_kind q answer)) }
        ensures told { OnOk result (IsTold (machine_of M.areas self.old).state answer (machine_of M.areas self.new).state) }
        ensures goes { OnOk result (IsTrue (is_going (machine_of M.areas self.new).state)) }
        ensures over { OnErr result ((machine_of M.areas self.new).state ≡ Over (Err error.NoMemory) (blocks_left 0 (machine_of M.areas self.old).state)) }
        ensures kept { machine_of M.areas self.new ≡ in_state (machine_of M.areas self.new).state (machine_of M.areas self.old) }
    {
        let alloc = self.alloc;
        let mut told = Ok(());
        self.phase = match mem::replace(&mut self.phase, Phase::Fresh) {
            Phase::Asking(query, mut run) => match run.take(alloc, query, answer) {
                Ok(()) => Phase::Going(run),
                Err(error) => {
                    told = Err(error);
                    Phase::Over {
                        outcome: Err(MirEvalError::NoMemory),
                        left: run.left,
                    }
                }
            },
            other => other,
        };
        told
    }

    /// How many blocks were entered.
    pub fn turns(&self) -> u64
        ensures { result ≡ turns_of (machine_of M.areas self.now) }
    {
        match &self.phase {
            Phase::Fresh => 0,
            Phase::Going(run) => self.blocks.saturating_sub(run.left),
            Phase::Asking(_, run) => self.blocks.saturating_sub(run.left),
            Phase::Over { left, .. } => self.blocks.saturating_sub(*left),
        }
    }

    /// How many levels of nesting are left: the limit, less the one that the run holds from its
    /// beginning on, until it ended in a value, and less one for each open call without a target. It takes no memory.
    pub fn nesting_left(&self) -> u32
        ensures { result ≡ nesting_left (machine_of M.areas self.now) }
    {
        match &self.phase {
            Phase::Fresh => self.nesting,
            Phase::Going(run) => self.nesting.saturating_sub(run.levels),
            Phase::Asking(_, run) => self.nesting.saturating_sub(run.levels),
            Phase::Over { outcome: Ok(_), .. } => self.nesting,
            Phase::Over { .. } => self.nesting.saturating_sub(1),
        }
    }

    /// Whether the run has ended, in a value or in a fault.
    pub fn is_over(&self) -> bool
        ensures { result ≡ is_over (machine_of M.areas self.now).state }
    {
        matches!(&self.phase, Phase::Over { .. })
    }

    /// What the run ended in, and what it wrote. It takes no memory.
    pub fn finish(self) -> (Result<Const, MirEvalError>, MirOutput)
        requires { IsTrue (is_over (machine_of M.areas self).state) }
        ensures ended { Some result.0 ≡ outcome (machine_of M.areas self.entry).state }
        ensures wrote { result.1 ≡ ([], []) }
    {
        let Evaluator { alloc, phase, .. } = self;
        match phase {
            Phase::Over { outcome, left: _ } => (outcome, MirOutput::empty(alloc)),
            _ => unreachable!(),
        }
    }
}
