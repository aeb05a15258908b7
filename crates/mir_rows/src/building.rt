//! The rows of a body's blocks, read off the body and the layouts of its world.

ghost use Rattle.std.specs.Prelude.{◌≡◌, IfOk, IfSome};
ghost use Rattle.mir.specs.declared.operand.Rvalue.TheVariants.{Cast, CheckedBinaryOp, Use};
ghost use Rattle.mir.specs.declared.operand.CastKind.{CastKind};
ghost use Rattle.mir.specs.declared.statement.StatementKind.TheVariants.{Assign};
ghost use Rattle.mir.specs.declared.body.TerminatorKind.TheVariants.{SwitchInt};
ghost use Rattle.mir_rows.specs.Rows.{is_idle, short_bytes, AreBlocks, AreRows, IsBlock, IsSource, IsWay, Leads, Says};
ghost use Rattle.mir_rows.specs.Spots.{prepared};

use crate::operands::{constant_bytes, operand_kind};
use crate::places::place_type;
use crate::row::{Action, BlockRows, Row, Short, Source, Way};
use crate::spots::{Spot, spot_of};
use mir::{
    BasicBlock, BinOp, MirBody, Operand, OperandKind, Place, Rvalue, Statement, StatementKind,
    SwitchTargets, Terminator, TerminatorKind, fixed_size,
};
use std::alloc::Global;
use world::{HirDatabase, NoMemory, Ty};

/// Bytes with their number, where there are at most 16.
fn short(bytes: &[u8]) -> Option<Short>
    ensures { IfSome result (λ short. short_bytes short ≡ bytes.now) }
{
    if bytes.len() > 16 {
        return None;
    }
    let count = bytes.len();
    let mut room: [u8; 16] = [0; 16];
    room[..count].copy_from_slice(bytes);
    Some(Short { room, count })
}

/// What an operator reads of an operand, where that has a spot, or is a constant of at most 16 bytes.
fn source(alloc: Global, db: &HirDatabase, body: &MirBody, operand: &OperandKind) -> Option<Source>
    ensures { IfSome result (λ source. IsSource (prepared db.now body.now) source operand.now) }
{
    match operand {
        OperandKind::Copy(place) => match spot_of(alloc, db, body, *place)? {
            Spot::Whole(local) => Some(Source::Whole(local)),
            spot => Some(Source::At(spot)),
        },
        OperandKind::Constant { konst, .. } => {
            Some(Source::Constant(short(constant_bytes(konst)?)?))
        }
    }
}

/// How many bytes an operand has, where that is a frequent number for an operator, and otherwise 0.
fn guess(db: &HirDatabase, body: &MirBody, operand: &OperandKind) -> u8 {
    let ty = match operand {
        OperandKind::Copy(place) => place_type(db, body, *place),
        OperandKind::Constant { ty, .. } => Some(ty),
    };
    match ty {
        Some(ty) => match fixed_size(ty) {
            Some(4) => 4,
            Some(8) => 8,
            _ => 0,
        },
        None => 0,
    }
}

/// The assignment of what an operator makes of two operands, where the place has a spot, and the operands have sources, and are of one kind
/// unless the operator is a shift.
fn combine(
    alloc: Global,
    db: &HirDatabase,
    body: &MirBody,
    to: Place,
    op: BinOp,
    left: &Operand,
    right: &Operand,
) -> Option<Action>
    ensures { IfSome result (λ action. Says (prepared db.now body.now) action (Assign to (CheckedBinaryOp op left.now right.now))) }
{
    let to = spot_of(alloc, db, body, to)?;
    let kind = operand_kind(db, body, &left.kind)?;
    let other = operand_kind(db, body, &right.kind)?;
    if kind != other && !matches!(op, BinOp::Shl | BinOp::Shr) {
        return None;
    }
    Some(Action::Combine {
        op,
        kind,
        other,
        guess: guess(db, body, &left.kind),
        to,
        left: source(alloc, db, body, &left.kind)?,
        right: source(alloc, db, body, &right.kind)?,
    })
}

/// The assignment of an operand that is cast to a type, where the place has a spot, the operand a source, and the type a size.
fn cast(
    alloc: Global,
    db: &HirDatabase,
    body: &MirBody,
    to: Place,
    operand: &Operand,
    ty: &Ty,
) -> Option<Action>
    ensures { IfSome result (λ action. (kind : CastKind) → Says (prepared db.now body.now) action (Assign to (Cast kind operand.now ty.now))) }
{
    let to = spot_of(alloc, db, body, to)?;
    let kind = operand_kind(db, body, &operand.kind)?;
    let size = fixed_size(ty)?;
    Some(Action::Cast {
        kind,
        size,
        to,
        from: source(alloc, db, body, &operand.kind)?,
    })
}

/// The assignment of an operand, where the place has a spot, and the operand has one too or is a constant of at most 16 bytes.
fn put(
    alloc: Global,
    db: &HirDatabase,
    body: &MirBody,
    to: Place,
    operand: &Operand,
) -> Option<Action>
    ensures { IfSome result (λ action. Says (prepared db.now body.now) action (Assign to (Use operand.now))) }
{
    let to = spot_of(alloc, db, body, to)?;
    match &operand.kind {
        OperandKind::Copy(from) => Some(Action::Copy {
            to,
            from: spot_of(alloc, db, body, *from)?,
        }),
        OperandKind::Constant { konst, .. } => Some(Action::Put {
            to,
            value: short(constant_bytes(konst)?)?,
        }),
    }
}

/// What a statement does.
fn action(alloc: Global, db: &HirDatabase, body: &MirBody, statement: &StatementKind) -> Action
    ensures { Says (prepared db.now body.now) result statement.now }
{
    let found = match statement {
        StatementKind::Assign(to, Rvalue::CheckedBinaryOp(op, left, right)) => {
            combine(alloc, db, body, *to, *op, left, right)
        }
        StatementKind::Assign(to, Rvalue::Cast(_, operand, ty)) => {
            cast(alloc, db, body, *to, operand, ty)
        }
        StatementKind::Assign(to, Rvalue::Use(operand)) => put(alloc, db, body, *to, operand),
        _ => None,
    };
    found.unwrap_or(Action::Other)
}

/// Whether a statement does nothing when it runs.
fn is_idle(statement: &StatementKind) -> bool
    ensures { result ≡ is_idle statement.now }
{
    !matches!(statement, StatementKind::Assign(_, _))
}

/// The rows of a block's statements.
fn rows(
    alloc: Global,
    db: &HirDatabase,
    body: &MirBody,
    statements: &[Statement],
) -> Result<Vec<Row>, NoMemory>
    ensures { IfOk result (λ rows. AreRows (prepared db.now body.now) statements.now statements.now rows.items) }
{
    let mut rows = Vec::new(alloc);
    for (i, statement) in statements.iter().enumerate() {
        if is_idle(&statement.kind) {
            continue;
        }
        rows.push(Row {
            place: i as u64,
            action: action(alloc, db, body, &statement.kind),
        })?;
    }
    Ok(rows)
}

/// Where a switch leads that tests the byte at a spot for one number.
fn branch(
    alloc: Global,
    db: &HirDatabase,
    body: &MirBody,
    discr: &Operand,
    targets: &SwitchTargets,
) -> Option<Way>
    ensures { IfSome result (λ way. Leads (prepared db.now body.now) way (SwitchInt discr.now targets.now)) }
{
    let OperandKind::Copy(place) = &discr.kind else {
        return None;
    };
    let spot = spot_of(alloc, db, body, *place)?;
    let mut pairs = targets.iter();
    let (value, then) = pairs.next()?;
    if pairs.next().is_some() {
        return None;
    }
    let value = u8::try_from(value).ok()?;
    Some(Way::Branch {
        spot,
        value,
        then,
        otherwise: targets.otherwise(),
    })
}

/// How a block ends.
fn way(alloc: Global, db: &HirDatabase, body: &MirBody, terminator: &Option<Terminator>) -> Way
    ensures { IsWay (prepared db.now body.now) result terminator.now }
{
    let Some(terminator) = terminator else {
        return Way::Other;
    };
    match &terminator.kind {
        TerminatorKind::Goto { target } => Way::Goto(*target),
        TerminatorKind::Drop { target, .. } => Way::Goto(*target),
        TerminatorKind::SwitchInt { discr, targets } => {
            branch(alloc, db, body, discr, targets).unwrap_or(Way::Other)
        }
        _ => Way::Other,
    }
}

/// The rows of a block.
fn block_rows(
    alloc: Global,
    db: &HirDatabase,
    body: &MirBody,
    block: &BasicBlock,
) -> Result<BlockRows, NoMemory>
    ensures { IfOk result (λ rows. IsBlock (prepared db.now body.now) block.now rows) }
{
    Ok(BlockRows {
        rows: rows(alloc, db, body, block.statements.as_slice())?,
        way: way(alloc, db, body, &block.terminator),
    })
}

/// The rows of all blocks.
pub(crate) fn blocks(
    alloc: Global,
    db: &HirDatabase,
    body: &MirBody,
) -> Result<Vec<BlockRows>, NoMemory>
    ensures { IfOk result (λ blocks. AreBlocks (prepared db.now body.now) body.now.basic_blocks blocks.items) }
{
    let all = body.basic_blocks.as_slice();
    let mut blocks = Vec::new(alloc);
    for block in all {
        blocks.push(block_rows(alloc, db, body, block)?)?;
    }
    Ok(blocks)
}
