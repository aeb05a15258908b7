//! Which items of impls stand for those of traits.

use crate::{ConstId, FunctionId, GenericArgs, NoMemory, Row, TryClone};
use std::alloc::Global;

/// The function that a trait's function stands for at some arguments.
#[derive(PartialEq, Eq, PartialOrd, Ord, Hash)]
pub struct ImplRow {
    pub function: FunctionId,
    pub args: GenericArgs,
    pub target: FunctionId,
    pub target_args: GenericArgs,
}

impl Drop for ImplRow {
    fn drop(self) {
        let ImplRow {
            function: _function,
            args: _args,
            target: _target,
            target_args: _target_args,
        } = self;
    }
}

/// The constant that a trait's constant stands for at some arguments.
#[derive(PartialEq, Eq, PartialOrd, Ord, Hash)]
pub struct ConstImplRow {
    pub konst: ConstId,
    pub args: GenericArgs,
    pub target: ConstId,
    pub target_args: GenericArgs,
}

impl Drop for ConstImplRow {
    fn drop(self) {
        let ConstImplRow {
            konst: _konst,
            args: _args,
            target: _target,
            target_args: _target_args,
        } = self;
    }
}

impl TryClone for ImplRow {
    fn try_clone(&self, alloc: Global) -> Result<ImplRow, NoMemory> {
        Ok(ImplRow {
            function: self.function,
            args: self.args.try_clone(alloc)?,
            target: self.target,
            target_args: self.target_args.try_clone(alloc)?,
        })
    }
}

impl TryClone for ConstImplRow {
    fn try_clone(&self, alloc: Global) -> Result<ConstImplRow, NoMemory> {
        Ok(ConstImplRow {
            konst: self.konst,
            args: self.args.try_clone(alloc)?,
            target: self.target,
            target_args: self.target_args.try_clone(alloc)?,
        })
    }
}

impl Row<(FunctionId, GenericArgs)> for ImplRow {
    ghost key = { λ row. (row.function, row.args) };

    fn key(&self, alloc: Global) -> Result<(FunctionId, GenericArgs), NoMemory> {
        Ok((self.function, self.args.try_clone(alloc)?))
    }
}

impl Row<(ConstId, GenericArgs)> for ConstImplRow {
    ghost key = { λ row. (row.konst, row.args) };

    fn key(&self, alloc: Global) -> Result<(ConstId, GenericArgs), NoMemory> {
        Ok((self.konst, self.args.try_clone(alloc)?))
    }
}
