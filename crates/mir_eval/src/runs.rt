//! A run that has begun, and the phases of an evaluator.

ghost use Rattle.std.specs.Option.{ForSome};
ghost use Rattle.std.specs.Prelude.{true, ◌≡◌, ◌⊎◌, ◌+◌, ◌^◌, ◌<◌, ◌≤◌, ◌∷◌, ◌++◌, Err, Ok, Some, None, IfOk, IfErr, IfSome, IsSome, IsTrue, OnOk, slice_get};
ghost use Rattle.mir_rows.specs.Alignments.{HasAlignments};
ghost use Rattle.mir_rows.specs.Callees.{AreSizes};
ghost use Rattle.mir.specs.Run.{callee_error, levels_over};
ghost use Rattle.mir_rows.specs.Places.{HasEnd, HaveEnds};
ghost use Rattle.mir_eval.specs.Frames.{callers, stands_at, AreOfWorld};
ghost use Rattle.std.proofs.Props.{props};
ghost use Rattle.std.specs.Coded.{codes};
ghost use Rattle.world.specs.contracts.database.HirDatabase as database;

use crate::blocks::{enter, enter_all};
use crate::calls::{Call, Function, call_at, callee, callee_cells, calls_out, fill};
use crate::faults::{Fault, to_error};
use crate::frames::{Point, Program, StackFrame, Suspended};
use crate::outcomes::{faulted, returned};
use crate::places::{lay_out, listed};
use crate::steps::{Exit, Halt, Stop, cell_now};
use either::Either;
use mir::{
    Answer, BasicBlockId, ConstEvalError, Interval, MirBody, MirEvalError, Query, TrailEntry,
};
use mir_mem::Memory;
use mir_rows::{Callee, Code, callee_of, ready};
use std::alloc::Global;
use std::mem;
use std::rc::Rc;
use world::{Const, DefWithBodyId, FunctionId, NoMemory, TryClone};

/// A run that has begun and isn't over.
#[derive(Drop)]
pub(crate) struct Run<'a, M> {
    pub program: Program<'a>,
    pub body: Rc<Code<'a>>,
    /// One for each local of the body.
    pub cells: Vec<Interval>,
    /// The callers that wait, the nearest last.
    pub below: Vec<Suspended<'a>>,
    /// Lists of cells of bodies that returned, for those that are entered next.
    pub spare: Vec<Vec<Interval>>,
    /// How many levels of nesting the run holds.
    pub levels: u32,
    pub memory: M,
    pub point: Point,
    /// How many blocks may still be entered.
    pub left: u64,
    ghost nested: { levels ≡ levels_over (callers below.items) },
    ghost aligned: { HasAlignments program.db.now },
    ghost stands: { stands_at body.value.body point ≡ true },
    ghost ends: { HaveEnds cells.items },
    ghost world: { body.value.world ≡ program.db.now } by { Prim.hlevel (props, codes, database.the_row.coded) },
    ghost worlds: { AreOfWorld program.db.now below.items } by { Prim.hlevel (props, codes, database.the_row.coded) },
}

/// Where an evaluator is in its one run.
#[derive(Drop)]
pub(crate) enum Phase<'a, M> {
    Fresh,
    Going(Run<'a, M>),
    /// The run waits for the answer to the query.
    Asking(Query, Run<'a, M>),
    Over {
        outcome: Result<Const, MirEvalError>,
        left: u64,
    },
}

/// Where a run went: to a block, to a query at the call that ends a block, or to its end.
#[derive(Drop)]
pub(crate) enum Went {
    On(BasicBlockId),
    Asks(Query, BasicBlockId),
    Over(Result<Const, MirEvalError>),
}

impl<'a, M: Memory + Drop> Run<'a, M> {
    ghost use Rattle.mir.specs.declared.errors.MirEvalError as error;
    ghost use Rattle.mir.specs.Memory.{number_held};
    ghost use Rattle.mir.specs.Run.{after_return, begun, called, called_by, callee_error, body_query, calls, calls_out, led, next_from, entered, entry_of, entering, faults, terminated, trail_of, Stops, GoesTo, Faulted};
    ghost use Rattle.mir.specs.Answers.{answer_to, answers_kind, IsAfterPut};
    ghost use Rattle.mir_eval.specs.Calls.{call_is, called_frame, function_is};
    ghost use Rattle.mir_eval.specs.Frames.{program_of};
    ghost use Rattle.std.specs.Option.{option_to_list};
    ghost use Rattle.mir_eval.specs.Machine.{Entry, Going, RunsTo, StepsTo, call_at, terminator_at, with_answers};
    ghost use Rattle.mir_eval.specs.Steps.{error_of, halt_of, next_of, Halts, HaltsAtCall, OrNoMemory};
    ghost use Rattle.mir_eval.specs.declared.steps.Exit.TheVariants.{Calls};
    ghost use Rattle.mir_eval.specs.Start.{started};
    ghost use Rattle.mir_eval.specs.Phases.{AsksAtCall, Continues, HasStopped, IsInRun, Leads, to_go, frame_in, position_at, position_of, state_of, state_after};

    /// The run of a body, before its first block, within a limit on blocks.
    #[tactic(auto, unfolding(mir::specs::Run::begun))]
    pub(crate) fn start(
        alloc: Global,
        program: Program<'a>,
        body: Rc<MirBody>,
        blocks: u64,
    ) -> Result<Run<'a, M>, MirEvalError>
        requires bytes { program.bytes ≤ 2 ^ 59 }
        requires aligned { HasAlignments program.db.now }
        ensures ok { IfOk result (λ run. started body.value.param_locals (begun (program_of program.entry) body.value) body.value.start_block.0 blocks ≡ Ok (Going (position_of M.areas run))) }
        ensures err { IfErr result (λ e. (e ≡ error.NoMemory) ⊎ (started body.value.param_locals (begun (program_of program.entry) body.value) body.value.start_block.0 blocks ≡ Err e)) }
    {
        let Ok(mut memory) = M::new(alloc, program.bytes) else {
            return Err(MirEvalError::NoMemory);
        };
        let placed = match lay_out(alloc, program.db, body.locals.as_slice(), &mut memory) {
            Ok(placed) => placed,
            Err(error) => return Err(error),
        };
        if !body.param_locals.as_slice().is_empty() {
            return Err(match to_error(alloc, Fault::TooFewArguments) {
                Ok(error) => error,
                Err(_) => MirEvalError::NoMemory,
            });
        }
        let Ok(cells) = listed(Vec::new(alloc), None, placed.as_slice()) else {
            return Err(MirEvalError::NoMemory);
        };
        let block = body.start_block;
        let Ok(body) = ready(alloc, program.db, body) else {
            return Err(MirEvalError::NoMemory);
        };
        Ok(Run {
            program,
            body,
            cells,
            below: Vec::new(alloc),
            spare: Vec::new(alloc),
            levels: 1,
            memory,
            point: Point::Entry(block),
            left: blocks,
        })
    }

    /// Takes the answer to the query that the run waits for.
    pub(crate) fn take(
        &mut self,
        alloc: Global,
        query: Query,
        answer: Answer,
    ) -> Result<(), NoMemory>
        requires { IsTrue (answers_kind query answer) }
        ensures told { OnOk result (IsAfterPut self.old.program.answers self.new.program.answers query answer) }
        ensures rest { position_of M.areas self.new ≡ with_answers self.new.program.answers (position_of M.areas self.old) }
        ensures left { self.new.left ≡ self.old.left }
    {
        self.program.take(alloc, query, answer)
    }

    /// The phase of a run that went somewhere.
    pub(crate) fn into_phase(self, went: Went) -> Phase<'a, M>
        requires { AsksAtCall self went }
        ensures { state_of M.areas result ≡ state_after M.areas self.entry went }
    {
        let mut run = self;
        match went {
            Went::On(block) => {
                run.point = Point::Entry(block);
                Phase::Going(run)
            }
            Went::Asks(query, block) => {
                run.point = Point::AtCall(block);
                Phase::Asking(query, run)
            }
            Went::Over(outcome) => Phase::Over {
                outcome,
                left: run.left,
            },
        }
    }

    /// The end of a run in an error, which passed through the open calls, behind one whose callee's body couldn't be got, if there is one.
    fn over(&self, alloc: Global, error: MirEvalError, first: Option<TrailEntry>) -> Went
        ensures asks { AsksAtCall self.now result }
        ensures leads { Leads M.areas (frame_in self.now) (Stops (Faulted error (option_to_list first ++ trail_of (frame_in self.now)))) self.now result }
    {
        match faulted(alloc, error, first, self.below.as_slice()) {
            Ok(outcome) => Went::Over(outcome),
            Err(_) => Went::Over(Err(MirEvalError::NoMemory)),
        }
    }

    /// The end of a run in a fault.
    fn fault(&self, alloc: Global, fault: Fault) -> Went
        ensures asks { AsksAtCall self.now result }
        ensures leads { Leads M.areas (frame_in self.now) (faults (frame_in self.now) (error_of fault)) self.now result }
    {
        match to_error(alloc, fault) {
            Ok(error) => self.over(alloc, error, None),
            Err(_) => Went::Over(Err(MirEvalError::NoMemory)),
        }
    }

    /// Gives control back to the nearest caller; one whose callee must not return faults. Where none waits, the run is over,
    /// and the return slot has its value.
    #[tactic(auto, unfolding(mir::specs::Run::after_return, mir::specs::Run::resumed, mir::specs::Run::first_body))]
    fn give_back(&mut self, alloc: Global) -> Went
        ensures leads { Leads M.areas (frame_in self.old) (after_return (frame_in self.old) (M.areas self.old.memory)) self.new result }
        ensures same { self.new.left ≡ self.old.left }
        ensures run { IsInRun (frame_in self.old) self.new result }
        ensures asks { AsksAtCall self.new result }
    {
        match self.program.pop_caller(&mut self.below) {
            None => {
                let levels = self.program.nesting.saturating_sub(1);
                match returned(
                    alloc,
                    self.program.db,
                    self.body.as_ref().body(),
                    self.cells.as_slice(),
                    &self.memory,
                    levels,
                ) {
                    Ok(outcome) => Went::Over(outcome),
                    Err(_) => Went::Over(Err(MirEvalError::NoMemory)),
                }
            }
            Some(caller) => {
                let Suspended {
                    body,
                    cells,
                    next,
                    ..
                } = caller;
                self.point = Point::Entry(body.as_ref().body().start_block);
                self.body = body;
                let used = mem::replace(&mut self.cells, Vec::new(alloc));
                set_aside(&mut self.spare, used);
                self.cells = cells;
                match next {
                    Some(block) => Went::On(block),
                    None => {
                        self.levels -= 1;
                        self.fault(alloc, Fault::Returned)
                    }
                }
            }
        }
    }

    /// Enters the body of a function, whose return slot is the destination, where there is one.
    #[tactic(auto, unfolding(mir::specs::Run::entered))]
    fn enter_body(
        &mut self,
        alloc: Global,
        call: Call<'_>,
        id: FunctionId,
        callee: Callee<'a>,
        destination: Option<Interval>,
    ) -> Went
        requires level { call.target ≡ None → self.old.levels < self.old.program.nesting }
        requires world { callee.body.value.world ≡ self.old.program.db.now }
        requires sizes { ForSome callee.sizes (λ sizes. AreSizes self.old.program.db.now callee.body.value.body.locals sizes.value) }
        requires end { IfSome destination HasEnd }
        ensures leads { Leads M.areas (frame_in self.old) (entered (frame_in self.old) (M.areas self.old.memory) (call_is call.entry) id callee.entry.body.value.body destination) self.new result }
        ensures same { self.new.left ≡ self.old.left }
        ensures run { IsInRun (frame_in self.old) self.new result }
        ensures asks { AsksAtCall self.new result }
    {
        let room = self.spare.pop().unwrap_or(Vec::new(alloc));
        let cells = match callee_cells(
            alloc,
            &self.program,
            &callee,
            destination,
            room,
            &mut self.memory,
        ) {
            Ok(cells) => cells,
            Err(MirEvalError::NoMemory) => return Went::Over(Err(MirEvalError::NoMemory)),
            Err(error) => return self.over(alloc, error, None),
        };
        let filled = fill(
            StackFrame {
                program: &self.program,
                body: self.body.as_ref(),
                cells: self.cells.as_slice(),
                below: self.below.as_slice(),
            },
            &mut self.memory,
            cells.as_slice(),
            callee.body.as_ref().body().param_locals.as_slice(),
            call.args,
        );
        match filled {
            Ok(()) => self.suspend(call, id, callee.into_body(), cells),
            Err(fault) => self.fault(alloc, fault),
        }
    }

    /// Suspends the body that runs, and goes to the first block of its callee.
    #[tactic(auto, unfolding(mir::specs::Run::first_body))]
    fn suspend(
        &mut self,
        call: Call<'_>,
        id: FunctionId,
        body: Rc<Code<'a>>,
        cells: Vec<Interval>,
    ) -> Went
        requires level { call.target ≡ None → self.old.levels < self.old.program.nesting }
        requires ends { HaveEnds cells.items }
        requires world { body.value.world ≡ self.old.program.db.now }
        ensures leads { Leads M.areas (frame_in self.old) (GoesTo (called_frame (frame_in self.old) (call_is call.entry) id body.entry.value.body cells.items) (M.areas self.old.memory) body.entry.value.body.start_block.0) self.new result }
        ensures same { self.new.left ≡ self.old.left }
        ensures run { IsInRun (frame_in self.old) self.new result }
        ensures asks { AsksAtCall self.new result }
    {
        let entry = TrailEntry {
            callee: Either::Left(id),
            span: call.span,
            caller: self.body.as_ref().body().owner,
        };
        let block = body.as_ref().body().start_block;
        self.point = Point::Entry(block);
        let levels = match call.target {
            Some(_) => self.levels,
            None => one_level_more(self.levels, self.program.nesting),
        };
        let caller = Suspended {
            body: mem::replace(&mut self.body, body),
            cells: mem::replace(&mut self.cells, cells),
            next: call.target,
            call: entry,
        };
        if self.program.push_caller(&mut self.below, caller).is_err() {
            return Went::Over(Err(MirEvalError::NoMemory));
        }
        self.levels = levels;
        Went::On(block)
    }

    /// Calls a function whose body is at hand.
    #[tactic(auto, unfolding(mir::specs::Run::called))]
    fn enter_function(
        &mut self,
        alloc: Global,
        call: Call<'_>,
        id: FunctionId,
        callee: Callee<'a>,
    ) -> Went
        requires world { callee.body.value.world ≡ self.old.program.db.now }
        requires sizes { ForSome callee.sizes (λ sizes. AreSizes self.old.program.db.now callee.body.value.body.locals sizes.value) }
        ensures leads { Leads M.areas (frame_in self.old) (led (frame_in self.old) (calls_out self.old.program.db.now self.old.body.value.body (number_held (M.areas self.old.memory) self.old.cells.items) (call_is call.entry)) (called (frame_in self.old) (M.areas self.old.memory) (call_is call.entry) id callee.entry.body.value.body)) self.new result }
        ensures same { self.new.left ≡ self.old.left }
        ensures run { IsInRun (frame_in self.old) self.new result }
        ensures asks { AsksAtCall self.new result }
    {
        let frame = StackFrame {
            program: &self.program,
            body: self.body.as_ref(),
            cells: self.cells.as_slice(),
            below: self.below.as_slice(),
        };
        if calls_out(frame, &self.memory, call) {
            return self.fault(alloc, Fault::OutOfBounds);
        }
        match call.target {
            Some(_) => match cell_now(frame, &self.memory, call.destination) {
                Some(cell) => self.enter_body(alloc, call, id, callee, Some(cell)),
                None => self.fault(alloc, Fault::BadWrite),
            },
            None => {
                if self.levels < self.program.nesting {
                    self.enter_body(alloc, call, id, callee, None)
                } else {
                    self.fault(alloc, Fault::NoLevel)
                }
            }
        }
    }

    /// Ends a run at a call of a function whose body could not be got, or that uses a place that is out of bounds.
    fn refuse(&self, alloc: Global, call: Call<'_>, id: FunctionId, error: &ConstEvalError) -> Went
        ensures asks { AsksAtCall self.now result }
        ensures leads { Leads M.areas (frame_in self.now) (led (frame_in self.now) (calls_out self.now.program.db.now self.now.body.value.body (number_held (M.areas self.now.memory) self.now.cells.items) (call_is call.entry)) (Stops (Faulted (callee_error id error.now) (entry_of (frame_in self.now) (call_is call.entry) id ∷ trail_of (frame_in self.now))))) self.now result }
    {
        let frame = StackFrame {
            program: &self.program,
            body: self.body.as_ref(),
            cells: self.cells.as_slice(),
            below: self.below.as_slice(),
        };
        if calls_out(frame, &self.memory, call) {
            return self.fault(alloc, Fault::OutOfBounds);
        }
        let entry = TrailEntry {
            callee: Either::Left(id),
            span: call.span,
            caller: self.body.as_ref().body().owner,
        };
        match callee_error(alloc, id, error) {
            Ok(error) => self.over(alloc, error, Some(entry)),
            Err(_) => Went::Over(Err(MirEvalError::NoMemory)),
        }
    }

    /// Calls a function whose body the run was told, or asks for it.
    #[tactic(auto, unfolding(mir::specs::Run::called_by))]
    fn call_function(
        &mut self,
        alloc: Global,
        call: Call<'_>,
        function: Function<'_>,
        block: BasicBlockId,
    ) -> Went
        requires { call_at self.old.body.value.body block.0 ≡ Some (call_is call) }
        ensures leads { Leads M.areas (frame_in self.old) (called_by (frame_in self.old) (M.areas self.old.memory) (call_is call.entry) (function_is function.entry) (answer_to self.old.program.answers (body_query (function_is function.entry)))) self.new result }
        ensures same { self.new.left ≡ self.old.left }
        ensures run { IsInRun (frame_in self.old) self.new result }
        ensures asks { AsksAtCall self.new result }
    {
        if let Some(callee) = self.program.callee(function) {
            return self.enter_function(alloc, call, function.id, callee);
        }
        let Ok(args) = function.args.try_clone(alloc) else {
            return Went::Over(Err(MirEvalError::NoMemory));
        };
        let query = Query::Body(DefWithBodyId::FunctionId(function.id), args);
        match self.program.answers.get(&query) {
            Some(Answer::Body(body)) => match callee_of(alloc, self.program.db, body) {
                Ok(callee) => self.enter_function(alloc, call, function.id, callee),
                Err(_) => Went::Over(Err(MirEvalError::NoMemory)),
            },
            Some(Answer::Failed(error)) => self.refuse(alloc, call, function.id, error),
            _ => Went::Asks(query, block),
        }
    }

    /// Does the call that ends a block.
    #[tactic(auto, unfolding(mir::specs::Run::calls, mir::specs::Run::terminated))]
    fn call(&mut self, alloc: Global, block: BasicBlockId) -> Went
        requires { IsSome (call_at self.old.body.value.body block.0) }
        ensures leads { Leads M.areas (frame_in self.old) (terminated (frame_in self.old) (M.areas self.old.memory) (terminator_at self.old.body.value.body block.0)) self.new result }
        ensures same { self.new.left ≡ self.old.left }
        ensures run { IsInRun (frame_in self.old) self.new result }
        ensures asks { AsksAtCall self.new result }
    {
        let Ok(body) = Rc::clone(&self.body) else {
            return Went::Over(Err(MirEvalError::NoMemory));
        };
        let Some(call) = call_at(body.as_ref().body(), block) else {
            unreachable!()
        };
        match callee(self.program.db, body.as_ref().body(), &call.func.kind) {
            Some(function) => self.call_function(alloc, call, function, block),
            None => self.fault(alloc, Fault::NoFunction),
        }
    }

    /// Goes on where the blocks of a frame led.
    fn go_on(&mut self, alloc: Global, block: BasicBlockId, end: Result<Halt, Fault>) -> Went
        requires { HaltsAtCall self.old.body.value.body block.0 end }
        ensures leads { Leads M.areas (frame_in self.old) (halt_of (frame_in self.old) (M.areas self.old.memory) (terminator_at self.old.body.value.body block.0) end) self.new result }
        ensures same { self.new.left ≡ self.old.left }
        ensures run { IsInRun (frame_in self.old) self.new result }
        ensures asks { AsksAtCall self.new result }
    {
        match end {
            Ok(Halt::Returns) => self.give_back(alloc),
            Ok(Halt::Calls) => self.call(alloc, block),
            Err(fault) => self.fault(alloc, fault),
        }
    }

    /// Runs blocks of the frame, until the body returns, calls or faults.
    fn run_blocks(&mut self, block: BasicBlockId) -> Stop
        ensures run { Halts (frame_in self.old) (M.areas self.new.memory) (terminator_at self.old.body.value.body result.block.0) result.left result.end (entering self.old.left (frame_in self.old) (M.areas self.old.memory) block.0) }
        ensures frame { frame_in self.new ≡ frame_in self.old }
        ensures left { self.new.left ≡ result.left }
        ensures call { HaltsAtCall self.new.body.value.body result.block.0 result.end }
        ensures fewer { OnOk result.end (self.new.left < self.old.left) }
        ensures within { self.new.left ≤ self.old.left }
    {
        let stop = enter_all(
            &StackFrame {
                program: &self.program,
                body: self.body.as_ref(),
                cells: self.cells.as_slice(),
                below: self.below.as_slice(),
            },
            &mut self.memory,
            block,
            self.left,
        );
        self.left = stop.left;
        stop
    }

    /// Runs one block of the frame.
    fn run_block(&mut self, block: BasicBlockId) -> Result<Exit, Fault>
        ensures next { OrNoMemory result (next_of (frame_in self.old) (M.areas self.new.memory) (terminator_at self.old.body.value.body block.0) result ≡ next_from (frame_in self.old) (M.areas self.old.memory) (slice_get self.old.body.value.body.basic_blocks block.0) 0) }
        ensures frame { frame_in self.new ≡ frame_in self.old }
        ensures left { self.new.left ≡ self.old.left }
        ensures call { result ≡ Ok Calls → IsSome (call_at self.new.body.value.body block.0) }
    {
        enter(
            &StackFrame {
                program: &self.program,
                body: self.body.as_ref(),
                cells: self.cells.as_slice(),
                below: self.below.as_slice(),
            },
            &mut self.memory,
            block,
        )
    }

    /// Runs blocks until a body returns, calls or faults, and goes on from there.
    fn run_frame(&mut self, alloc: Global, block: BasicBlockId) -> Went
        ensures went { Continues M.areas (position_at M.areas self.old (Entry block.0)) self.new result }
        ensures fewer { to_go self.new.left result ≤ self.old.left }
        ensures asks { AsksAtCall self.new result }
    {
        let stop = self.run_blocks(block);
        self.go_on(alloc, stop.block, stop.end)
    }

    /// Begins where the run stands: at the entry of a block, or by the call at which it waited.
    fn resume(&mut self, alloc: Global) -> Went
        ensures went { Continues M.areas (position_of M.areas self.old) self.new result }
        ensures asks { AsksAtCall self.new result }
    {
        match self.point {
            Point::Entry(block) => Went::On(block),
            Point::AtCall(block) => self.call(alloc, block),
        }
    }

    /// Runs frame after frame, to the end or to a query.
    fn run_frames(&mut self, alloc: Global) -> Went
        ensures went { Continues M.areas (position_of M.areas self.old) self.new result }
        ensures stopped { HasStopped result }
        ensures asks { AsksAtCall self.new result }
    {
        let mut went = self.resume(alloc);
        while let Went::On(block) = went {
            went = self.run_frame(alloc, block);
        }
        went
    }

    /// Runs to the end, or to a query.
    pub(crate) fn finish(&mut self, alloc: Global) -> Went
        ensures went { RunsTo (position_of M.areas self.old) (state_after M.areas self.new result) }
        ensures stopped { HasStopped result }
        ensures asks { AsksAtCall self.new result }
    {
        self.run_frames(alloc)
    }

    /// Runs one block, or the call at which the run waited.
    #[tactic(auto, unfolding(mir::specs::Run::next_from))]
    pub(crate) fn step(&mut self, alloc: Global) -> Went
        ensures went { StepsTo (position_of M.areas self.old) (state_after M.areas self.new result) }
        ensures asks { AsksAtCall self.new result }
    {
        let block = match self.point {
            Point::Entry(block) => block,
            Point::AtCall(block) => return self.call(alloc, block),
        };
        if self.left == 0 {
            return self.fault(alloc, Fault::OutOfBlocks);
        }
        self.left -= 1;
        match self.run_block(block) {
            Ok(Exit::GoesTo(target)) => Went::On(target),
            Ok(Exit::Returns) => self.go_on(alloc, block, Ok(Halt::Returns)),
            Ok(Exit::Calls) => self.go_on(alloc, block, Ok(Halt::Calls)),
            Err(fault) => self.go_on(alloc, block, Err(fault)),
        }
    }
}

/// Sets a list of cells aside. Without memory it is given up, and the next body makes its own.
fn set_aside(spare: &mut Vec<Vec<Interval>>, used: Vec<Interval>) {
    if spare.push(used).is_err() {}
}

/// One level of nesting more, where that is within the limit.
fn one_level_more(levels: u32, most: u32) -> u32
    requires { levels < most }
    ensures { result ≡ levels + 1 }
{
    levels + 1
}

/// The error of a call whose callee's body can't be got.
fn callee_error(
    alloc: Global,
    id: FunctionId,
    error: &ConstEvalError,
) -> Result<MirEvalError, NoMemory>
    ensures { IfOk result (λ e. e ≡ callee_error id error.now) }
{
    match error {
        ConstEvalError::MirLowerError(error) => {
            Ok(MirEvalError::MirLowerError(id, error.try_clone(alloc)?))
        }
        ConstEvalError::MirEvalError(error) => error.try_clone(alloc),
        ConstEvalError::NoMemory => Ok(MirEvalError::NoMemory),
    }
}
