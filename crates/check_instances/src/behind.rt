//! What parameters name: generic arguments, and behind them normalized types.
ghost use Rattle.std.specs.Prelude.{◌≡◌, slice_get};
ghost use Rattle.std.specs.Option.{option_copied};
ghost use Rattle.check_instances.specs.Comparisons.{with_normals};
ghost use Rattle.check_instances.specs.Instances.{Normals, const_argument, type_argument};

use types::{AliasId, Const, GenericArg, GenericArgs, Table, Ty};

/// The argument at a place, where it is a type; past the arguments a normalized type.
#[tactic(auto, using(crate::proofs::Reach::arg_within, crate::proofs::Reach::normal_past))]
pub(crate) fn type_behind<'a>(
    normals: &'a Table<(AliasId, GenericArgs), (AliasId, GenericArgs, Ty)>,
    args: &'a GenericArgs,
    index: u32,
) -> Option<&'a Ty>
    ensures { option_copied result ≡ type_argument (slice_get (with_normals normals.now args.now).0 index) }
{
    let place = index as u64;
    let count = args.0.len();
    if place < count {
        match args.0.get(place) {
            Some(GenericArg::Ty(ty)) => Some(ty),
            _ => None,
        }
    } else {
        match normals.at(place - count) {
            Some(row) => Some(&row.2),
            None => None,
        }
    }
}

/// The argument at a place, where it is a constant. No normalized type is one.
#[tactic(auto, using(crate::proofs::Reach::arg_within, crate::proofs::Reach::normal_past))]
pub(crate) fn const_behind(args: &GenericArgs, index: u32) -> Option<&Const>
    ensures { (normals : Normals) → option_copied result ≡ const_argument (slice_get (with_normals normals args.now).0 index) }
{
    match args.0.get(index as u64) {
        Some(GenericArg::Konst(konst)) => Some(konst),
        _ => None,
    }
}
