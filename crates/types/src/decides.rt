//! The law of the comparisons of types and constants, which other crates rest on.
ghost use Rattle.std.specs.Prelude.{◌≡◌};
ghost use Rattle.std.specs.Bool.{Decides};
ghost use Rattle.std.specs.Ordering.{is_eq};
ghost use Rattle.types.specs.Orders.{ty_eq, ty_cmp, bound_eq, arg_eq, args_eq, args_cmp, const_eq, value_eq, unevaluated_eq, memory_map_eq, complex_eq};
ghost use Rattle.types.specs.declared.ty.ComplexMemoryMap.{ComplexMemoryMap};
ghost use Rattle.types.specs.declared.ty.Const.{Const};
ghost use Rattle.types.specs.declared.ty.GenericArg.{GenericArg};
ghost use Rattle.types.specs.declared.ty.GenericArgs.{GenericArgs};
ghost use Rattle.types.specs.declared.ty.MemoryMap.{MemoryMap};
ghost use Rattle.types.specs.declared.ty.TraitRef.{TraitRef};
ghost use Rattle.types.specs.declared.ty.Ty.{Ty};
ghost use Rattle.types.specs.declared.ty.UnevaluatedConst.{UnevaluatedConst};
ghost use Rattle.types.specs.declared.ty.ValueConst.{ValueConst};

/// Two types, generic arguments or constants are equal, as `==` and `cmp` say, exactly where they
/// are one value.
pub fn types_decide()
    ensures types { (a b : Ty) → Decides (ty_eq a b) (a ≡ b) }
    ensures order { (a b : Ty) → Decides (is_eq (ty_cmp a b)) (a ≡ b) }
    ensures bounds { (a b : TraitRef) → Decides (bound_eq a b) (a ≡ b) }
    ensures args { (a b : GenericArgs) → Decides (args_eq a b) (a ≡ b) }
    ensures args_order { (a b : GenericArgs) → Decides (is_eq (args_cmp a b)) (a ≡ b) }
    ensures arg { (a b : GenericArg) → Decides (arg_eq a b) (a ≡ b) }
    ensures consts { (a b : Const) → Decides (const_eq a b) (a ≡ b) }
    ensures values { (a b : ValueConst) → Decides (value_eq a b) (a ≡ b) }
    ensures unevaluated { (a b : UnevaluatedConst) → Decides (unevaluated_eq a b) (a ≡ b) }
    ensures memory_maps { (a b : MemoryMap) → Decides (memory_map_eq a b) (a ≡ b) }
    ensures complex { (a b : ComplexMemoryMap) → Decides (complex_eq a b) (a ≡ b) }
{}
