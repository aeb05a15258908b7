//! The places of a world that a fault can name.
ghost use Rattle.std.specs.Prelude.{◌≡◌, IfOk, string_bytes};
ghost use Rattle.world_check.specs.Places.{function_text, indexed, kind_text, nodes_text, place_text, table_text};

use std::alloc::Global;
use world::{NoMemory, Text};

/// A table of the world.
#[derive(Clone, Copy)]
pub enum TableName {
    Crates,
    Functions,
    Consts,
    Statics,
    Structs,
    Unions,
    Enums,
    Variants,
    Traits,
    Aliases,
    TypeParams,
    ConstParams,
    Closures,
    Bodies,
    Layouts,
    Normals,
    Impls,
    ConstImpls,
}

/// One of the world's lang functions, which are fields of their own and no rows.
#[derive(Clone, Copy)]
pub enum NamedFunction {
    Drop,
    Deref,
    DerefMut,
    Call,
    CallMut,
    CallOnce,
}

/// A list of a body's nodes, or of its labels.
#[derive(Clone, Copy)]
pub enum NodeKind {
    Exprs,
    Pats,
    Bindings,
    Labels,
}

/// A place of the world.
#[derive(Clone, Copy)]
pub enum Place {
    /// A table as a whole, as `consts`.
    Table(TableName),
    /// A row of a table, as `layouts[3]`.
    Row(TableName, u64),
    /// A list of a body's nodes, as `bodies[0].exprs`.
    Nodes(u64, NodeKind),
    /// A node of a body, as `bodies[0].exprs[2]`.
    Node(u64, NodeKind, u64),
    /// A lang function, as `drop_fn`.
    Function(NamedFunction),
}

/// The name of a table.
fn table_text(table: TableName) -> &'static str
    ensures { result.now ≡ table_text table }
{
    match table {
        TableName::Crates => "crates",
        TableName::Functions => "functions",
        TableName::Consts => "consts",
        TableName::Statics => "statics",
        TableName::Structs => "structs",
        TableName::Unions => "unions",
        TableName::Enums => "enums",
        TableName::Variants => "variants",
        TableName::Traits => "traits",
        TableName::Aliases => "aliases",
        TableName::TypeParams => "type_params",
        TableName::ConstParams => "const_params",
        TableName::Closures => "closures",
        TableName::Bodies => "bodies",
        TableName::Layouts => "layouts",
        TableName::Normals => "normals",
        TableName::Impls => "impls",
        TableName::ConstImpls => "const_impls",
    }
}

/// The name of a lang function.
fn function_text(function: NamedFunction) -> &'static str
    ensures { result.now ≡ function_text function }
{
    match function {
        NamedFunction::Drop => "drop_fn",
        NamedFunction::Deref => "deref_fn",
        NamedFunction::DerefMut => "deref_mut_fn",
        NamedFunction::Call => "call_fn",
        NamedFunction::CallMut => "call_mut_fn",
        NamedFunction::CallOnce => "call_once_fn",
    }
}

/// The name of a list of nodes.
fn kind_text(kind: NodeKind) -> &'static str
    ensures { result.now ≡ kind_text kind }
{
    match kind {
        NodeKind::Exprs => "exprs",
        NodeKind::Pats => "pats",
        NodeKind::Bindings => "bindings",
        NodeKind::Labels => "labels",
    }
}

/// A place in a list, as `consts[3]`.
fn indexed(alloc: Global, list: &str, i: u64) -> Result<String, NoMemory>
    ensures { IfOk result (λ text. string_bytes text ≡ indexed list.now i) }
{
    Ok(format!(in alloc; "{list}[{i}]")?)
}

/// A list of a body's nodes, as `bodies[0].exprs`.
fn nodes_text(alloc: Global, body: u64, kind: NodeKind) -> Result<String, NoMemory>
    ensures { IfOk result (λ text. string_bytes text ≡ nodes_text body kind) }
{
    let mut text = indexed(alloc, table_text(TableName::Bodies), body)?;
    text.push_str(".")?;
    text.push_str(kind_text(kind))?;
    Ok(text)
}

/// The text of a place.
pub(crate) fn place_text(alloc: Global, place: Place) -> Result<Text, NoMemory>
    ensures { IfOk result (λ text. text ≡ place_text place) }
{
    let text = match place {
        Place::Table(table) => String::from_str(alloc, table_text(table))?,
        Place::Row(table, i) => indexed(alloc, table_text(table), i)?,
        Place::Nodes(body, kind) => nodes_text(alloc, body, kind)?,
        Place::Node(body, kind, i) => {
            let list = nodes_text(alloc, body, kind)?;
            indexed(alloc, list.as_str(), i)?
        }
        Place::Function(function) => String::from_str(alloc, function_text(function))?,
    };
    Text::from_str(alloc, text.as_str())
}
