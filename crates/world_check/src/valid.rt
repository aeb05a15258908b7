//! Definitions that can be evaluated, and the generic arguments that they take.
ghost use Rattle.std.specs.Prelude.{◌≡◌, ◌==◌};
ghost use Rattle.std.specs.Option.{option_copied};
ghost use Rattle.world_check.specs.Valid.{are_of_sorts, fits, fits_const, fits_function, fits_static, is_of_sort, is_valid};

use check_names::are_args_settled;
use world::{
    ConstRow, DefWithBodyId, FunctionRow, GenericArg, GenericArgs, GenericParamId, HirDatabase,
    StaticRow,
};

/// Whether a generic argument is a type for a type parameter, or a constant for a const parameter.
fn is_of_sort(param: GenericParamId, arg: &GenericArg) -> bool
    ensures { result ≡ is_of_sort param arg.now }
{
    match (param, arg) {
        (GenericParamId::TypeParamId(_), GenericArg::Ty(_)) => true,
        (GenericParamId::ConstParamId(_), GenericArg::Konst(_)) => true,
        _ => false,
    }
}

/// Whether there is one generic argument for each generic parameter, of its kind.
fn are_of_sorts(params: &[GenericParamId], args: &[GenericArg]) -> bool
    ensures { result ≡ are_of_sorts params.now args.now }
{
    if params.len() != args.len() {
        return false;
    }
    for (i, param) in params.iter().enumerate() {
        if !is_of_sort(*param, &args[i]) {
            return false;
        }
    }
    true
}

/// Whether there is a function, it has no parameters, and the arguments fit its generic parameters.
fn fits_function(args: &GenericArgs, row: Option<&FunctionRow>) -> bool
    ensures { result ≡ fits_function args.now (option_copied row.entry) }
{
    match row {
        Some(row) => {
            row.sig.params.len() == 0 && are_of_sorts(row.generics.as_slice(), args.0.as_slice())
        }
        None => false,
    }
}

/// Whether there is a constant, and the arguments fit its generic parameters.
fn fits_const(args: &GenericArgs, row: Option<&ConstRow>) -> bool
    ensures { result ≡ fits_const args.now (option_copied row.entry) }
{
    match row {
        Some(row) => are_of_sorts(row.generics.as_slice(), args.0.as_slice()),
        None => false,
    }
}

/// Whether there is a static, and there are no arguments.
fn fits_static(args: &GenericArgs, row: Option<&StaticRow>) -> bool
    ensures { result ≡ fits_static args.now (option_copied row.entry) }
{
    row.is_some() && args.0.len() == 0
}

/// Whether a definition is a constant, a static or a function without parameters, and the arguments fit its
/// generic parameters.
fn fits(db: &HirDatabase, def: DefWithBodyId, args: &GenericArgs) -> bool
    ensures { result ≡ fits db.now def args.now }
{
    match def {
        DefWithBodyId::FunctionId(id) => fits_function(args, db.functions.get(id.0 as u64)),
        DefWithBodyId::StaticId(id) => fits_static(args, db.statics.get(id.0 as u64)),
        DefWithBodyId::ConstId(id) => fits_const(args, db.consts.get(id.0 as u64)),
        DefWithBodyId::VariantId(_) => false,
    }
}

/// Whether a definition can be evaluated at generic arguments: they fit its generic parameters, and none has
/// a generic parameter or an error in it.
pub(crate) fn is_valid(db: &HirDatabase, def: DefWithBodyId, args: &GenericArgs) -> bool
    ensures { result ≡ is_valid db.now def args.now }
{
    fits(db, def, args) && are_args_settled(args)
}
