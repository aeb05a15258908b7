//! What lowering reads of a typed body: the form of each expression, as far as forms have a meaning, the types that inference
//! found, literals and callees as operands, and what the operations on operands are in a graph. Nothing here touches one.
#![tactic(auto)]

mod call;
mod context;
mod form;
mod inferred;
mod literal;
mod operation;
mod structs;
mod unbuilt;

pub use call::{lower_callee, method_args, must_not_return};
pub use context::Context;
pub use form::{
    Assigned, Assignee, FieldStep, Form, PlaceForm, compound_path, form_at, literal_at, name_bound,
    part_elem, place_form_at, target_path,
};
pub use inferred::{
    array_of, binding_ty, diverges, is_copy, never_type, node_ty, own_ty, value_type,
};
pub use literal::{LiteralValue, lower_literal};
pub use operation::{Several, Single, copied, kind_of, made_of};
pub use structs::{
    FieldExprs, FieldSource, StructAt, StructLiteral, StructValue, field_sources, given_exprs,
    struct_value, written_exprs,
};
pub use unbuilt::{form_not_built, type_error};
