//! The types of Rust as trees, the names of items and nodes, and the containers that they are made
//! of. `world` passes all of it on.
#![tactic(auto)]

mod boxed;
mod bytes;
mod clone;
mod copies;
mod decides;
mod ids;
mod list;
mod map;
mod memory;
mod operators;
mod row;
mod scalars;
mod table;
mod text;
mod ty;

pub use boxed::Box;
pub use bytes::Bytes;
pub use clone::TryClone;
pub use decides::types_decide;
pub use ids::{
    AdtId, AliasId, BindingId, CallableDefId, ConstId, ConstParamId, Crate, DefWithBodyId, EnumId,
    EnumVariantId, ExprId, FieldId, FunctionId, GeneralConstId, GenericParamId, InternedClosureId,
    LabelId, PatId, StaticId, StructId, TraitId, TupleFieldId, TypeParamId, UnionId, VariantId,
};
pub use list::List;
pub use map::Map;
pub use memory::NoMemory;
pub use operators::{ArithOp, BinaryOp, CmpOp, LogicOp, Ordering, UnaryOp};
pub use row::{ItemKey, Row};
pub use scalars::{FloatTy, IntTy, Mutability, UintTy};
pub use table::Table;
pub use text::Text;
pub use ty::{
    ComplexMemoryMap, Const, GenericArg, GenericArgs, MemoryMap, ParamConst, ParamTy, TraitRef, Ty,
    UnevaluatedConst, ValueConst,
};
