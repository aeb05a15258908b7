//! Looking up types at generic arguments.
ghost use Rattle.std.specs.Prelude.{◌≡◌, IfOk};
ghost use Rattle.std.specs.Option.{option_and_then};
ghost use Rattle.types.specs.Orders.{ty_cmp};
ghost use Rattle.types.specs.Places.{place_at};
ghost use Rattle.check_instances.specs.Instances.{ty_instance};

use crate::instances::ty_instance;
use crate::keys::TyKey;
use crate::no_instance::NoInstance;
use crate::opening::open_ty;
use crate::unopened::Unopened;
use std::alloc::Global;
use types::{AliasId, GenericArgs, NoMemory, Row, Table, Ty};

/// The rows of normalized types.
type Normals = Table<(AliasId, GenericArgs), (AliasId, GenericArgs, Ty)>;

/// The place of a type at generic arguments, which is made.
fn made_place<R: Row<Ty>>(
    alloc: Global,
    table: &Table<Ty, R>,
    normals: &Normals,
    args: &GenericArgs,
    ty: &Ty,
) -> Result<Option<u64>, NoMemory>
    ensures { IfOk result (λ place. place ≡ option_and_then (λ made. place_at R.key (ty_cmp made) table.now) (ty_instance normals.now args.now ty.now)) }
{
    match ty_instance(alloc, normals, args, ty) {
        Ok(made) => Ok(table.place_of(&made)),
        Err(NoInstance::Missing) => Ok(None),
        Err(NoInstance::NoMemory) => Err(NoMemory),
    }
}

/// The place of the first row whose key is a type at generic arguments; none where there is no such
/// instance. The instance is not made, but compared with keys as it stands: so the look-up takes no more
/// than the type as it is written and the keys that it is compared with. It errs where there is no memory.
pub fn instance_place<R: Row<Ty>>(
    alloc: Global,
    table: &Table<Ty, R>,
    normals: &Normals,
    args: &GenericArgs,
    ty: &Ty,
) -> Result<Option<u64>, NoMemory>
    ensures { IfOk result (λ place. place ≡ option_and_then (λ made. place_at R.key (ty_cmp made) table.now) (ty_instance normals.now args.now ty.now)) }
{
    match open_ty(alloc, ty, normals, args) {
        Ok(open) => {
            let key = TyKey {
                ty: &open,
                normals,
                args,
            };
            Ok(table.place_of(key))
        }
        Err(Unopened::Missing) => Ok(None),
        Err(Unopened::PastNumbers) => made_place(alloc, table, normals, args, ty),
        Err(Unopened::NoMemory) => Err(NoMemory),
    }
}
