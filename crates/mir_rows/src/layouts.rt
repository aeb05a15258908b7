//! The layouts of values that are made of operands.

ghost use Rattle.std.specs.Prelude.{◌≡◌, IfOk};
ghost use Rattle.std.specs.Option.{option_copied};
ghost use Rattle.mir.specs.Run.{struct_layout};

use std::alloc::Global;
use world::{AdtId, GenericArgs, HirDatabase, Layout, NoMemory, TryClone, Ty, VariantId};

/// The layout of a struct's values.
pub fn struct_layout<'a>(
    alloc: Global,
    db: &'a HirDatabase,
    id: VariantId,
    args: &GenericArgs,
) -> Result<Option<&'a Layout>, NoMemory>
    ensures { IfOk result (λ layout. option_copied layout ≡ struct_layout db.now id args.now) }
{
    match id {
        VariantId::StructId(id) => {
            let ty = Ty::Adt(AdtId::StructId(id), args.try_clone(alloc)?);
            Ok(db.layout_of(&ty))
        }
        _ => Ok(None),
    }
}
