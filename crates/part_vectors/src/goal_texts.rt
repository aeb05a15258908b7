//! The lines of answers that no run of the program gives yet, written by hand.

use either::Either;
use mir::{ConstEvalError, MirEvalError, MirSpan, TrailEntry};
use mir_eval::MirOutput;
use report_text::goal_text;
use std::alloc::Global;
use std::test::Fail;
use world::{
    BindingId, Box, Bytes, ComplexMemoryMap, Const, ConstId, ConstParamId, ConstParamRow,
    DefWithBodyId, EnumVariantId, ExprId, FunctionId, HirDatabase, InternedClosureId, List, Map,
    MemoryMap, Mutability, NoMemory, ParamConst, ParamTy, PatId, StaticId, Text, Ty, TypeParamId,
    UintTy, ValueConst,
};

/// A list of one element.
fn one<T: Drop>(alloc: Global, item: T) -> Result<List<T>, NoMemory> {
    let mut items = List::new(alloc);
    items.push(item)?;
    Ok(items)
}

/// A list of two elements.
fn two<T: Drop>(alloc: Global, first: T, second: T) -> Result<List<T>, NoMemory> {
    let mut items = List::new(alloc);
    items.push(first)?;
    items.push(second)?;
    Ok(items)
}

/// The const parameters: one with a name.
fn const_param_rows(alloc: Global) -> Result<List<ConstParamRow>, NoMemory> {
    let name = Text::from_str(alloc, "N")?;
    one(
        alloc,
        ConstParamRow {
            name,
            ty: Ty::Uint(UintTy::Usize),
        },
    )
}

/// A world in which a type parameter and a const parameter have names.
fn named_world(alloc: Global) -> Result<HirDatabase, NoMemory> {
    let mut db = HirDatabase::new(alloc);
    let name = Text::from_str(alloc, "T")?;
    db.type_params = one(alloc, name)?;
    db.const_params = const_param_rows(alloc)?;
    Ok(db)
}

/// The lines of a goal that wrote nothing.
fn lines_of(
    alloc: Global,
    db: &HirDatabase,
    number: u64,
    answer: &Result<Const, ConstEvalError>,
    turns: u64,
) -> Result<Bytes, NoMemory> {
    let output = MirOutput::empty(alloc);
    goal_text(alloc, db, number, answer, &output, turns)
}

/// Fails with the lines unless they were written.
fn expect(written: &Bytes, lines: &'static str) -> Result<(), Fail> {
    if written.as_slice() == lines.as_bytes() {
        return Ok(());
    }
    Err(Fail::new(lines))
}

/// Fails with the lines unless a goal that wrote nothing has them.
fn says(
    alloc: Global,
    number: u64,
    answer: &Result<Const, ConstEvalError>,
    turns: u64,
    lines: &'static str,
) -> Result<(), Fail> {
    let db = named_world(alloc)?;
    let written = lines_of(alloc, &db, number, answer, turns)?;
    expect(&written, lines)
}

/// A const parameter, as a constant.
fn param(id: u32) -> Const {
    Const::Param(ParamConst {
        id: ConstParamId(id),
        index: 0,
    })
}

/// A constant that is a parameter.
fn parameter(alloc: Global) -> Result<(), Fail> {
    says(alloc, 0, &Ok(param(0)), 0, "goal 0 value N\n  turns 0\n")
}

/// A parameter that has no name in the world.
fn unnamed_parameter(alloc: Global) -> Result<(), Fail> {
    let lines = "goal 3 value {error}\n  turns 1\n";
    says(alloc, 3, &Ok(param(1)), 1, lines)
}

/// A constant that could not be found.
fn missing_constant(alloc: Global) -> Result<(), Fail> {
    let lines = "goal 1 value {error}\n  turns 2\n";
    says(alloc, 1, &Ok(Const::Error), 2, lines)
}

/// Two entries and two table ids.
fn two_of_each(alloc: Global) -> Result<MemoryMap, NoMemory> {
    let vtable = two(alloc, Ty::Uint(UintTy::U8), Ty::Str)?;
    let mut memory = Map::new(alloc);
    let text = Bytes::from_slice(alloc, b"hi")?;
    memory.insert(8192u64, text)?;
    memory.insert(4096, Bytes::new(alloc))?;
    Ok(MemoryMap::Complex(ComplexMemoryMap { memory, vtable }))
}

/// A value of the type `&str` that refers to this memory.
fn referring(alloc: Global, memory_map: MemoryMap) -> Result<Const, NoMemory> {
    let to = Box::new(alloc, Ty::Str)?;
    let memory = Bytes::from_slice(alloc, &[0, 32])?;
    Ok(Const::Value(ValueConst {
        ty: Ty::Ref(to, Mutability::Not),
        memory,
        memory_map,
    }))
}

/// A value that refers to memory at several addresses: the entries stand by rising addresses.
fn memory(alloc: Global) -> Result<(), Fail> {
    let answer = Ok(referring(alloc, two_of_each(alloc)?)?);
    let lines =
        "goal 0 value &str 0020\n  turns 1\n  at 4096 -\n  at 8192 6869\n  table 1000 u8\n  table 1001 str\n";
    says(alloc, 0, &answer, 1, lines)
}

/// A value that refers to bytes alone, which stand at address 0.
fn memory_at_zero(alloc: Global) -> Result<(), Fail> {
    let bytes = Bytes::from_slice(alloc, &[255, 0])?;
    let answer = Ok(referring(alloc, MemoryMap::Simple(bytes))?);
    let lines = "goal 0 value &str 0020\n  turns 1\n  at 0 ff00\n";
    says(alloc, 0, &answer, 1, lines)
}

/// A fault that names a type and has a quoted text.
fn unsized_fault(alloc: Global) -> Result<MirEvalError, NoMemory> {
    let param = ParamTy {
        id: TypeParamId(0),
        index: 0,
    };
    let text = Text::from_str(alloc, "a \"b\"\n\\")?;
    let element = Box::new(alloc, Ty::Param(param))?;
    Ok(MirEvalError::TypeIsUnsized(Ty::Slice(element), text))
}

/// What a fault of a run with these open calls is handed out as.
fn in_function(
    alloc: Global,
    fault: MirEvalError,
    trail: List<TrailEntry>,
) -> Result<ConstEvalError, NoMemory> {
    let inner = Box::new(alloc, fault)?;
    Ok(ConstEvalError::MirEvalError(MirEvalError::InFunction(inner, trail)))
}

/// A call of a function.
fn call_of(function: u32, span: MirSpan, caller: DefWithBodyId) -> TrailEntry {
    TrailEntry {
        callee: Either::Left(FunctionId(function)),
        span,
        caller,
    }
}

/// A fault that passed through a function's call of a closure, and a static's call of that function.
fn calls_of_a_closure(alloc: Global) -> Result<(), Fail> {
    let of_closure = TrailEntry {
        callee: Either::Right(InternedClosureId(3)),
        span: MirSpan::ExprId(ExprId(4)),
        caller: DefWithBodyId::FunctionId(FunctionId(2)),
    };
    let of_function = call_of(2, MirSpan::Unknown, DefWithBodyId::StaticId(StaticId(1)));
    let trail = two(alloc, of_closure, of_function)?;
    let answer = Err(in_function(alloc, unsized_fault(alloc)?, trail)?);
    let lines =
        "goal 2 error eval InFunction(TypeIsUnsized([T], \"a \\\"b\\\"\\n\\\\\"), [closure#3 at expr#4 of fn#2, fn#2 at unknown of static#1])\n  turns 5\n";
    says(alloc, 2, &answer, 5, lines)
}

/// A fault that passed through calls of functions by a constant and by a variant.
fn calls_of_functions(alloc: Global) -> Result<(), Fail> {
    let constant = DefWithBodyId::ConstId(ConstId(0));
    let variant = DefWithBodyId::VariantId(EnumVariantId(9));
    let first = call_of(0, MirSpan::PatId(PatId(3)), constant);
    let second = call_of(10, MirSpan::BindingId(BindingId(6)), variant);
    let trail = two(alloc, first, second)?;
    let text = Text::from_str(alloc, "too few arguments")?;
    let answer = Err(in_function(alloc, MirEvalError::InternalError(text), trail)?);
    let lines =
        "goal 0 error eval InFunction(InternalError(\"too few arguments\"), [fn#0 at pat#3 of const#0, fn#10 at binding#6 of variant#9])\n  turns 1\n";
    says(alloc, 0, &answer, 1, lines)
}

#[test]
fn answers_that_no_run_gives_have_lines(rt: HostRuntime) -> Result<(), Fail> {
    let alloc = rt.alloc();
    parameter(alloc)?;
    unnamed_parameter(alloc)?;
    missing_constant(alloc)?;
    memory(alloc)?;
    memory_at_zero(alloc)?;
    calls_of_a_closure(alloc)?;
    calls_of_functions(alloc)
}
