//! Rows of tables, and their keys.
ghost use Rattle.std.specs.Prelude.{◌≡◌, IfOk};
ghost use Rattle.std.specs.Cmp.{on_total, then_total};
ghost use Rattle.std.specs.Ordering.{ordering_then};
ghost use Rattle.types.specs.Orders.{args_cmp, args_total};
ghost use Rattle.std.specs.BTreeMap.Comparable.{le_lt_trans};

use crate::{GenericArgs, NoMemory, TryClone};
use std::alloc::Global;
use std::cmp::Ordering;
use std::collections::btree_map::Comparable;

/// A row of a table, which has a key.
pub trait Row<K> {
    ghost key: { Self → K };

    /// A copy of the row's key.
    fn key(&self, alloc: Global) -> Result<K, NoMemory>
        ensures { IfOk result (λ k. k ≡ key self.now) };
}

impl<K: TryClone, V> Row<K> for (K, V) {
    ghost key = { λ row. row.0 };

    fn key(&self, alloc: Global) -> Result<K, NoMemory> {
        self.0.try_clone(alloc)
    }
}

impl<I: TryClone + Drop, A: TryClone, V> Row<(I, A)> for (I, A, V) {
    ghost key = { λ row. (row.0, row.1) };

    fn key(&self, alloc: Global) -> Result<(I, A), NoMemory> {
        let item = self.0.try_clone(alloc)?;
        let args = self.1.try_clone(alloc)?;
        Ok((item, args))
    }
}

/// An item and arguments to look up, where the table has them as a pair.
#[derive(Clone, Copy)]
pub struct ItemKey<'a, I> {
    pub id: I,
    pub args: &'a GenericArgs,
}

impl<'a, I: Ord + Copy> Comparable<(I, GenericArgs)> for ItemKey<'a, I> {
    ghost compare = { λ q k. ordering_then (I.cmp q.id k.0) (args_cmp q.args.now k.1) };

    ghost respects_cmp = { λ q x y. (then_total (on_total (λ p. p.0) I.total) (on_total (λ p. p.1) args_total)).congr (q.id, q.args.now) x y };

    ghost below_greater = { λ q x y. le_lt_trans (then_total (on_total (λ p. p.0) I.total) (on_total (λ p. p.1) args_total)) (q.id, q.args.now) x y };

    fn compare(&self, key: &(I, GenericArgs)) -> Ordering {
        self.id.cmp(&key.0).then(self.args.cmp(&key.1))
    }
}
