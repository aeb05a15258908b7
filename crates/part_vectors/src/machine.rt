//! The machine by itself, without a source.
ghost use Rattle.std.specs.Prelude.{IfOk, IsTrue};
ghost use Rattle.mir_eval.specs.Evaluators.{is_going, machine_of};
ghost use Rattle.mir_mem.specs.Flat.{areas_of};
ghost use Rattle.world.specs.Checked.{IsChecked};
ghost use Rattle.world.specs.Limits.{IsWithin};

use crate::graphs::{OWNER, SLOT, block, locals, number, statement, world_of_one};
use mir::{
    BasicBlock, BasicBlockId, BinOp, MirBody, MirEvalError, ProjectionStore, Rvalue, StatementKind,
    SwitchTargets, TerminatorKind,
};
use mir_eval::{Evaluator, Limits, Turned};
use mir_mem::FlatMemory;
use std::alloc::Global;
use std::rc::Rc;
use std::test::Fail;
use world::{HirDatabase, List, NoMemory};

/// A body of these blocks, with no local but the return slot.
fn body_of(alloc: Global, basic_blocks: List<BasicBlock>) -> Result<MirBody, NoMemory> {
    Ok(MirBody {
        projection_store: ProjectionStore::new(alloc)?,
        basic_blocks,
        locals: locals(alloc, 1)?,
        start_block: BasicBlockId(0),
        owner: OWNER,
        param_locals: List::new(alloc),
    })
}

/// One block that stores 2 + 2 in the return place.
fn sum_blocks(alloc: Global) -> Result<List<BasicBlock>, NoMemory> {
    let sum = Rvalue::CheckedBinaryOp(BinOp::Add, number(alloc, 2)?, number(alloc, 2)?);
    let mut statements = List::new(alloc);
    statements.push(statement(StatementKind::Assign(SLOT, sum)))?;
    let mut blocks = List::new(alloc);
    blocks.push(block(statements, TerminatorKind::Return))?;
    Ok(blocks)
}

/// A switch on a number that leads to block 1 at 2, and to block 3, which isn't there, at every other
/// number. Block 1 goes on to block 2, which returns.
fn switching_blocks(alloc: Global, discr: u8) -> Result<List<BasicBlock>, NoMemory> {
    let discr = number(alloc, discr)?;
    let targets = SwitchTargets::static_if(alloc, 2, BasicBlockId(1), BasicBlockId(3));
    let target = BasicBlockId(2);
    let mut blocks = List::new(alloc);
    let switch = TerminatorKind::SwitchInt { discr, targets };
    blocks.push(block(List::new(alloc), switch))?;
    blocks.push(block(List::new(alloc), TerminatorKind::Goto { target }))?;
    blocks.push(block(List::new(alloc), TerminatorKind::Return))?;
    Ok(blocks)
}

/// A machine over a flat memory that is about to enter the first block of a body.
fn begun<'a>(
    alloc: Global,
    db: &'a HirDatabase,
    body: Rc<MirBody>,
    limits: &Limits,
) -> Result<Evaluator<'a, FlatMemory>, MirEvalError>
    requires limits { IsWithin limits.now }
    requires checked { IsChecked db.now }
    ensures { IfOk result (λ evaluator. IsTrue (is_going (machine_of areas_of evaluator).state)) }
{
    let mut evaluator = match Evaluator::new(alloc, db, OWNER, false, limits) {
        Ok(evaluator) => evaluator,
        Err(error) => return Err(error),
    };
    match evaluator.begin(body) {
        Ok(()) => Ok(evaluator),
        Err(error) => Err(error),
    }
}

/// How a run of these blocks turned out, and its turns.
fn run_of(alloc: Global, blocks: List<BasicBlock>) -> Result<(Turned, u64), Fail> {
    let world = world_of_one(alloc)?;
    let body = Rc::new(alloc, body_of(alloc, blocks)?)?;
    let mut evaluator = begun(alloc, world.db(), body, &Limits::default_limits())?;
    let turned = evaluator.run();
    Ok((turned, evaluator.turns()))
}

#[test]
fn a_run_of_one_block_takes_one_turn(rt: HostRuntime) -> Result<(), Fail> {
    let (turned, turns) = run_of(rt.alloc(), sum_blocks(rt.alloc())?)?;
    assert_eq!(rt; turned, Turned::Done);
    assert_eq!(rt; turns, 1);
    Ok(())
}

#[test]
fn a_switch_leads_to_the_target_of_its_number(rt: HostRuntime) -> Result<(), Fail> {
    let (turned, turns) = run_of(rt.alloc(), switching_blocks(rt.alloc(), 2)?)?;
    assert_eq!(rt; turned, Turned::Done);
    assert_eq!(rt; turns, 3);
    Ok(())
}

#[test]
fn every_other_number_leads_to_the_last_target(rt: HostRuntime) -> Result<(), Fail> {
    let (turned, turns) = run_of(rt.alloc(), switching_blocks(rt.alloc(), 1)?)?;
    assert_eq!(rt; turned, Turned::Fault);
    assert_eq!(rt; turns, 2);
    Ok(())
}

#[test]
fn a_run_holds_a_level_until_it_ends_in_a_value(rt: HostRuntime) -> Result<(), Fail> {
    let alloc = rt.alloc();
    let world = world_of_one(alloc)?;
    let body = Rc::new(alloc, body_of(alloc, sum_blocks(alloc)?)?)?;
    let mut evaluator = begun(alloc, world.db(), body, &Limits::default_limits())?;
    assert_eq!(rt; evaluator.nesting_left(), 99);
    evaluator.run();
    assert_eq!(rt; evaluator.nesting_left(), 100);
    Ok(())
}
