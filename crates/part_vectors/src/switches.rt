//! Where a switch leads by itself, without a body.

use mir::{BasicBlockId, SwitchTargets};
use std::alloc::Global;
use std::test::Fail;
use world::NoMemory;

/// A switch that has a value twice.
fn one_value_twice(alloc: Global) -> Result<SwitchTargets, NoMemory> {
    let pairs = [
        (1, BasicBlockId(2)),
        (1, BasicBlockId(3)),
        (0, BasicBlockId(4)),
    ];
    SwitchTargets::new(alloc, pairs.into_iter(), BasicBlockId(5))
}

/// Numbers, and the block that each leads to.
const LEADS: [(u128, u32); 3] = [(1, 2), (0, 4), (7, 5)];

#[test]
fn a_number_leads_to_its_first_target(rt: HostRuntime) -> Result<(), Fail> {
    let targets = one_value_twice(rt.alloc())?;
    for (number, block) in LEADS {
        assert_eq!(rt; targets.target_for_value(number), BasicBlockId(block));
    }
    Ok(())
}

/// The blocks of a switch in the order of its values, and last the one of every other number.
const BLOCKS: [u32; 4] = [2, 3, 4, 5];

#[test]
fn all_targets_end_with_the_other_one(rt: HostRuntime) -> Result<(), Fail> {
    let targets = one_value_twice(rt.alloc())?;
    let mut blocks = targets.all_targets().iter().map(|block| block.0);
    for block in BLOCKS {
        assert_eq!(rt; blocks.next(), Some(block));
    }
    assert_eq!(rt; blocks.next(), None);
    Ok(())
}
