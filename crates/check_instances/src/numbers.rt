//! Parameters that name generic arguments, or normalized types behind them.
ghost use Rattle.std.specs.Prelude.{◌≡◌, ◌+◌, true, IfOk, IsErrOf, None, OnOk, length, slice_get};
ghost use Rattle.std.specs.Option.{is_some};
ghost use Rattle.check_instances.specs.Instances.{const_argument, type_argument};
ghost use Rattle.types.specs.declared.ty.ParamTy.{ParamTy as Numbered};

use crate::unopened::Unopened;
use types::{Const, GenericArg, GenericArgs, ParamConst, ParamTy, Ty, TypeParamId};

/// A type parameter, whose argument has to be a type.
pub(crate) fn open_param(param: ParamTy, args: &GenericArgs) -> Result<Ty, Unopened>
    ensures same { IfOk result (λ made. made ≡ Ty.Param param) }
    ensures there { OnOk result (is_some (type_argument (slice_get args.now.0 param.index)) ≡ true) }
    ensures missing { IsErrOf result Unopened.Missing → type_argument (slice_get args.now.0 param.index) ≡ None }
{
    match args.0.get(param.index as u64) {
        Some(GenericArg::Ty(_)) => Ok(Ty::Param(param)),
        _ => Err(Unopened::Missing),
    }
}

/// A const parameter, whose argument has to be a constant.
pub(crate) fn open_const_param(param: ParamConst, args: &GenericArgs) -> Result<Const, Unopened>
    ensures same { IfOk result (λ made. made ≡ Const.Param param) }
    ensures there { OnOk result (is_some (const_argument (slice_get args.now.0 param.index)) ≡ true) }
    ensures missing { IsErrOf result Unopened.Missing → const_argument (slice_get args.now.0 param.index) ≡ None }
{
    match args.0.get(param.index as u64) {
        Some(GenericArg::Konst(_)) => Ok(Const::Param(param)),
        _ => Err(Unopened::Missing),
    }
}

/// The parameter that names the normalized type at a place. A place past the numbers of 32 bits has none.
pub(crate) fn param_behind(args: &GenericArgs, place: u64) -> Result<Ty, Unopened>
    ensures named { IfOk result (λ made. (param : Numbered) × (made ≡ Ty.Param param) × (param.index ≡ length args.now.0 + place)) }
    ensures missing { IsErrOf result Unopened.Missing → ⊥ }
{
    let Some(index) = args.0.len().checked_add(place) else {
        return Err(Unopened::PastNumbers);
    };
    match u32::try_from(index) {
        Ok(index) => Ok(Ty::Param(ParamTy {
            id: TypeParamId(0),
            index,
        })),
        Err(_) => Err(Unopened::PastNumbers),
    }
}
