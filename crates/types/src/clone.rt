ghost use Rattle.std.specs.Prelude.{◌≡◌, IfOk};

use crate::NoMemory;
use either::Either;
use std::alloc::Global;

/// A copy that may want for memory, and that equals the original.
pub trait TryClone {
    fn try_clone(&self, alloc: Global) -> Result<Self, NoMemory>
        ensures { IfOk result (λ copy. copy ≡ self.now) };
}

impl TryClone for bool {
    fn try_clone(&self, _alloc: Global) -> Result<bool, NoMemory> {
        Ok(*self)
    }
}

impl TryClone for u8 {
    fn try_clone(&self, _alloc: Global) -> Result<u8, NoMemory> {
        Ok(*self)
    }
}

impl TryClone for u32 {
    fn try_clone(&self, _alloc: Global) -> Result<u32, NoMemory> {
        Ok(*self)
    }
}

impl TryClone for u64 {
    fn try_clone(&self, _alloc: Global) -> Result<u64, NoMemory> {
        Ok(*self)
    }
}

impl TryClone for u128 {
    fn try_clone(&self, _alloc: Global) -> Result<u128, NoMemory> {
        Ok(*self)
    }
}

impl TryClone for i128 {
    fn try_clone(&self, _alloc: Global) -> Result<i128, NoMemory> {
        Ok(*self)
    }
}

impl<T: TryClone> TryClone for Option<T> {
    fn try_clone(&self, alloc: Global) -> Result<Option<T>, NoMemory> {
        match self {
            Some(value) => Ok(Some(value.try_clone(alloc)?)),
            None => Ok(None),
        }
    }
}

impl<A: TryClone + Drop, B: TryClone> TryClone for (A, B) {
    fn try_clone(&self, alloc: Global) -> Result<(A, B), NoMemory> {
        let first = self.0.try_clone(alloc)?;
        let second = self.1.try_clone(alloc)?;
        Ok((first, second))
    }
}

impl<A: TryClone + Drop, B: TryClone + Drop, C: TryClone> TryClone for (A, B, C) {
    fn try_clone(&self, alloc: Global) -> Result<(A, B, C), NoMemory> {
        let first = self.0.try_clone(alloc)?;
        let second = self.1.try_clone(alloc)?;
        let third = self.2.try_clone(alloc)?;
        Ok((first, second, third))
    }
}

impl<A: TryClone, B: TryClone> TryClone for Either<A, B> {
    fn try_clone(&self, alloc: Global) -> Result<Either<A, B>, NoMemory> {
        match self {
            Either::Left(left) => Ok(Either::Left(left.try_clone(alloc)?)),
            Either::Right(right) => Ok(Either::Right(right.try_clone(alloc)?)),
        }
    }
}
