//! Parts of graphs that are made by hand, without a source.

use mir::{
    BasicBlock, Local, LocalId, MirSpan, Operand, OperandKind, Place, ProjectionId, Statement,
    StatementKind, Terminator, TerminatorKind,
};
use std::alloc::Global;
use std::test::Fail;
use world::{
    Bytes, Const, ConstId, ConstRow, Crate, CrateRow, DefWithBodyId, HirDatabase, Layout, List,
    MemoryMap, NoMemory, Ty, UintTy, ValueConst, Variants,
};
use world_check::CheckedWorld;

/// The constant whose body a run begins in.
pub(crate) const OWNER: DefWithBodyId = DefWithBodyId::ConstId(ConstId(0));

/// The return place.
pub(crate) const SLOT: Place = Place {
    local: LocalId(0),
    projection: ProjectionId(0),
};

fn u64_type() -> Ty {
    Ty::Uint(UintTy::U64)
}

/// The tables of a world of one constant of the type `u64`.
fn tables_of_one(alloc: Global) -> Result<HirDatabase, NoMemory> {
    let mut db = HirDatabase::new(alloc);
    db.crates.push(CrateRow {
        pointer_bytes: Some(8),
    })?;
    db.consts.push(ConstRow {
        name: None,
        krate: Crate(0),
        generics: List::new(alloc),
        ty: u64_type(),
        body: None,
    })?;
    let layout = Layout {
        size: 8,
        align: 8,
        sized: true,
        offsets: List::new(alloc),
        variants: Variants::Single(0),
    };
    db.layouts.push((u64_type(), layout))?;
    Ok(db)
}

/// A world of one constant of the type `u64`.
pub(crate) fn world_of_one(alloc: Global) -> Result<CheckedWorld, Fail> {
    match CheckedWorld::new(alloc, tables_of_one(alloc)?) {
        Ok(world) => Ok(world),
        Err(_) => Err(Fail::new("the world of one constant is refused")),
    }
}

/// A number as an operand.
pub(crate) fn number(alloc: Global, number: u8) -> Result<Operand, NoMemory> {
    let mut memory = Bytes::new(alloc);
    memory.push(number)?;
    for _ in 0..7 {
        memory.push(0)?;
    }
    let value = ValueConst {
        ty: u64_type(),
        memory,
        memory_map: MemoryMap::Empty,
    };
    let kind = OperandKind::Constant {
        konst: Const::Value(value),
        ty: u64_type(),
    };
    Ok(Operand { kind, span: None })
}

pub(crate) fn statement(kind: StatementKind) -> Statement {
    Statement {
        kind,
        span: MirSpan::Unknown,
    }
}

/// A block that runs these statements and then ends.
pub(crate) fn block(statements: List<Statement>, kind: TerminatorKind) -> BasicBlock {
    BasicBlock {
        statements,
        terminator: Some(Terminator {
            span: MirSpan::Unknown,
            kind,
        }),
        is_cleanup: false,
    }
}

/// This many locals of the type `u64`.
pub(crate) fn locals(alloc: Global, count: u8) -> Result<List<Local>, NoMemory> {
    let mut locals = List::new(alloc);
    for _ in 0..count {
        locals.push(Local { ty: u64_type() })?;
    }
    Ok(locals)
}
