//! Sizes that types have on all targets.

ghost use Rattle.std.specs.Prelude.{◌≡◌};
ghost use Rattle.world.specs.Checked.{fixed_size};

use world::{IntTy, Ty, UintTy};

/// How many bytes an integer type, `bool` or `char` has, where pointers have 8. There is no number for other types.
pub fn fixed_size(ty: &Ty) -> Option<usize>
    ensures { result ≡ fixed_size ty.now }
{
    match ty {
        Ty::Bool => Some(1),
        Ty::Char => Some(4),
        Ty::Int(int) => Some(match int {
            IntTy::I8 => 1,
            IntTy::I16 => 2,
            IntTy::I32 => 4,
            IntTy::I64 => 8,
            IntTy::I128 => 16,
            IntTy::Isize => 8,
        }),
        Ty::Uint(uint) => Some(match uint {
            UintTy::U8 => 1,
            UintTy::U16 => 2,
            UintTy::U32 => 4,
            UintTy::U64 => 8,
            UintTy::U128 => 16,
            UintTy::Usize => 8,
        }),
        _ => None,
    }
}
