//! The generic argument of a parameter, and the normalized type of an alias.
ghost use Rattle.std.specs.Prelude.{◌≡◌, IfOk, IsErrOf, None, Some, slice_get};
ghost use Rattle.check_instances.specs.Instances.{const_argument, normal_type, type_argument};

use crate::NoInstance;
use std::alloc::Global;
use types::{AliasId, Const, GenericArg, GenericArgs, ItemKey, Table, TryClone, Ty};

/// A copy of the argument at a place, which is a type.
pub(crate) fn type_argument(alloc: Global, args: &GenericArgs, index: u32) -> Result<Ty, NoInstance>
    ensures given { IfOk result (λ made. type_argument (slice_get args.now.0 index) ≡ Some made) }
    ensures missing { IsErrOf result NoInstance.Missing → type_argument (slice_get args.now.0 index) ≡ None }
{
    match args.0.get(index as u64) {
        Some(GenericArg::Ty(ty)) => Ok(ty.try_clone(alloc)?),
        _ => Err(NoInstance::Missing),
    }
}

/// A copy of the argument at a place, which is a constant.
pub(crate) fn const_argument(
    alloc: Global,
    args: &GenericArgs,
    index: u32,
) -> Result<Const, NoInstance>
    ensures given { IfOk result (λ made. const_argument (slice_get args.now.0 index) ≡ Some made) }
    ensures missing { IsErrOf result NoInstance.Missing → const_argument (slice_get args.now.0 index) ≡ None }
{
    match args.0.get(index as u64) {
        Some(GenericArg::Konst(konst)) => Ok(konst.try_clone(alloc)?),
        _ => Err(NoInstance::Missing),
    }
}

/// A copy of the normalized type of an alias.
pub(crate) fn normal_type(
    alloc: Global,
    normals: &Table<(AliasId, GenericArgs), (AliasId, GenericArgs, Ty)>,
    id: AliasId,
    args: &GenericArgs,
) -> Result<Ty, NoInstance>
    ensures given { IfOk result (λ made. normal_type normals.now id args.now ≡ Some made) }
    ensures missing { IsErrOf result NoInstance.Missing → normal_type normals.now id args.now ≡ None }
{
    match normals.get(ItemKey { id, args }) {
        Some(row) => Ok(row.2.try_clone(alloc)?),
        None => Err(NoInstance::Missing),
    }
}
