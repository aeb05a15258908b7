//! Where a switch leads, by the number that it compares.

ghost use Rattle.std.specs.Prelude.{◌≡◌, [], ◌∷◌, IfOk};
ghost use Rattle.std.specs.Iterator.{IsFinite, Drains, YieldsFirst, item_count};
ghost use Rattle.mir.specs.Switches.{pairs_of, otherwise_of, all_targets_of, target_of, values_of, same_targets};
ghost use Rattle.std.specs.Cmp.{and_per, on_per, and_equiv, on_equiv, partial_equiv_from_equiv, nat_eq_equiv};
ghost use Rattle.std.specs.Cmp.Lexicographic.{lists_per, lists_equiv};

use crate::BasicBlockId;
use smallvec::SmallVec;
use std::alloc::Global;
use std::marker::Model;
use world::{NoMemory, TryClone};

/// Where a switch leads: values, each with its target, and the target of every other number.
/// Contracts see the pairs in order, and that target.
pub struct SwitchTargets {
    values: SmallVec<u128, 1>,
    /// The target of each value, and last that of every other number.
    targets: SmallVec<BasicBlockId, 2>,
}

impl Model for SwitchTargets {
    ghost use Rattle.std.specs.Prelude.{◌≡◌, ◌+◌, ℕ, List, length, slice_index_or};
    ghost use Rattle.std.specs.List.{zip};
    ghost use Rattle.mir.specs.declared.ids.BasicBlockId.{BasicBlockId};

    ghost Value = { List (ℕ × BasicBlockId) × BasicBlockId };

    ghost view = { λ t. (zip t.values.items t.targets.items, slice_index_or t.targets.items (length t.values.items) (record { 0 = 0 })) };

    ghost invariant = { λ t. length t.targets.items ≡ length t.values.items + 1 };
}

impl Drop for SwitchTargets {
    fn drop(self) {
        let SwitchTargets {
            values: _values,
            targets: _targets,
        } = self;
    }
}

impl SwitchTargets {
    /// The pairs of a value and its target that an iterator yields to its end, and the target of
    /// every number that is none of the values. Without memory it is `NoMemory`.
    pub fn new<I: Iterator<Item = (u128, BasicBlockId)>>(
        alloc: Global,
        targets: I,
        otherwise: BasicBlockId,
    ) -> Result<SwitchTargets, NoMemory>
        requires ends { I.can_next targets × IsFinite (I.remaining targets) }
        ensures pairs { IfOk result (λ made. Drains I.next_gives targets (pairs_of made)) }
        ensures otherwise { IfOk result (λ made. otherwise_of made ≡ otherwise) }
    {
        let mut values = SmallVec::new(alloc);
        let mut blocks = SmallVec::new(alloc);
        for (value, target) in targets {
            values.push(value)?;
            blocks.push(target)?;
        }
        blocks.push(otherwise)?;
        Ok(SwitchTargets {
            values,
            targets: blocks,
        })
    }

    /// The targets of an `if` on one value: `then` is that of the value, and `else_` that of every
    /// other number. It takes no memory.
    pub fn static_if(
        alloc: Global,
        value: u128,
        then: BasicBlockId,
        else_: BasicBlockId,
    ) -> SwitchTargets
        ensures pairs { pairs_of result ≡ (value, then) ∷ [] }
        ensures otherwise { otherwise_of result ≡ else_ }
    {
        SwitchTargets {
            values: SmallVec::from_buf(alloc, [value]),
            targets: SmallVec::from_buf(alloc, [then, else_]),
        }
    }

    /// The target of every number that is none of the values.
    pub fn otherwise(&self) -> BasicBlockId
        ensures { result ≡ otherwise_of self.now }
    {
        self.targets.as_slice()[self.values.len()]
    }

    /// The values, each with its target, in order.
    pub fn iter(&self) -> SwitchIter<'_>
        ensures { result ≡ pairs_of self.now }
    {
        SwitchIter {
            values: self.values.as_slice(),
            targets: self.targets.as_slice(),
        }
    }

    /// The targets of the values in order, and last that of every other number.
    pub fn all_targets(&self) -> &[BasicBlockId]
        ensures { result.now ≡ all_targets_of self.now }
    {
        self.targets.as_slice()
    }

    /// Where the switch leads at a number: to the target of the first value that equals it, and
    /// else to `otherwise`.
    #[tactic(auto, unfolding(crate::specs::Switches::target_of, crate::specs::Switches::first_target))]
    pub fn target_for_value(&self, value: u128) -> BasicBlockId
        ensures { result ≡ target_of self.now value }
    {
        for (number, target) in self.iter() {
            if number == value {
                return target;
            }
        }
        self.otherwise()
    }
}

impl PartialEq for SwitchTargets {
    ghost eq = { same_targets };

    ghost laws = { and_per (on_per values_of (lists_per (partial_equiv_from_equiv nat_eq_equiv))) (on_per all_targets_of (lists_per (on_per (λ block. block.0) (partial_equiv_from_equiv nat_eq_equiv)))) };

    fn eq(&self, other: &SwitchTargets) -> bool {
        self.values == other.values && self.targets == other.targets
    }
}

impl Eq for SwitchTargets {
    ghost laws = { and_equiv (on_equiv values_of (lists_equiv nat_eq_equiv)) (on_equiv all_targets_of (lists_equiv (on_equiv (λ block. block.0) nat_eq_equiv))) };
}

impl TryClone for SwitchTargets {
    fn try_clone(&self, alloc: Global) -> Result<SwitchTargets, NoMemory> {
        let values = SmallVec::from_slice(alloc, self.values.as_slice())?;
        let targets = SmallVec::from_slice(alloc, self.targets.as_slice())?;
        Ok(SwitchTargets { values, targets })
    }
}

/// The values of a switch that are left, each with its target, which contracts see as the list of
/// those pairs.
#[derive(Drop)]
pub struct SwitchIter<'a> {
    values: &'a [u128],
    targets: &'a [BasicBlockId],
}

impl<'a> Model for SwitchIter<'a> {
    ghost use Rattle.std.specs.Prelude.{ℕ, List};
    ghost use Rattle.std.specs.List.{zip};
    ghost use Rattle.mir.specs.declared.ids.BasicBlockId.{BasicBlockId};

    ghost Value = { List (ℕ × BasicBlockId) };

    ghost view = { λ it. zip it.values.now it.targets.now };
}

impl<'a> Iterator for SwitchIter<'a> {
    type Item = (u128, BasicBlockId);

    ghost next_gives = { YieldsFirst (λ rest. rest) };

    ghost remaining = { item_count (λ rest. rest) };

    fn next(&mut self) -> Option<(u128, BasicBlockId)> {
        let (value, values) = self.values.split_first()?;
        let (target, targets) = self.targets.split_first()?;
        self.values = values;
        self.targets = targets;
        Some((*value, *target))
    }
}
