//! Whether the blocks and locals that a body names are its own.

ghost use Rattle.std.specs.Prelude.{◌↔◌, IsTrue, IfSome};
ghost use Rattle.std.specs.List.{All};
ghost use Rattle.mir.specs.Closed.{HasLocal, HasPlace, HasBlock, IsClosedOperand, IsClosedRvalue, IsClosedStatement, IsClosedTerminator, IsClosedBlock, IsClosed};

use crate::{
    BasicBlock, BasicBlockId, Interner, LocalId, MirBody, Operand, OperandKind, Place, Rvalue,
    Statement, StatementKind, Terminator, TerminatorKind,
};

impl MirBody {
    /// Whether the body has a local 0, which is the return place as the chapter on MIR of the rustc
    /// dev guide says, and each block and each local that something in it names: its start block,
    /// the targets of each terminator, the block in which unwinding from a drop or a call goes on, the
    /// local of each place and of each storage statement, and the locals of its parameters. The
    /// projection of each place has to be one of the body's store.
    pub fn is_closed(&self) -> bool
        ensures { IsTrue result ↔ IsClosed self.now }
    {
        self.has_local(LocalId(0))
            && self.has_block(self.start_block)
            && self.are_blocks_closed(self.basic_blocks.as_slice())
            && self.has_locals(self.param_locals.as_slice())
    }

    /// Whether the local is one of the body's.
    fn has_local(&self, local: LocalId) -> bool
        ensures { IsTrue result ↔ HasLocal self.now local }
    {
        (local.0 as u64) < self.locals.len()
    }

    /// Whether the place's local is one of the body's, and its projection one of the store's.
    fn has_place(&self, place: Place) -> bool
        ensures { IsTrue result ↔ HasPlace self.now place }
    {
        self.has_local(place.local) && self.projection_store.has(place.projection)
    }

    /// Whether each of the locals is one of the body's.
    fn has_locals(&self, locals: &[LocalId]) -> bool
        ensures { IsTrue result ↔ All (HasLocal self.now) locals.now }
    {
        for local in locals {
            if !self.has_local(*local) {
                return false;
            }
        }
        true
    }

    /// Whether the block is one of the body's.
    fn has_block(&self, block: BasicBlockId) -> bool
        ensures { IsTrue result ↔ HasBlock self.now block }
    {
        (block.0 as u64) < self.basic_blocks.len()
    }

    /// Whether there is no block, or it is one of the body's.
    fn has_block_if_any(&self, block: Option<BasicBlockId>) -> bool
        ensures { IsTrue result ↔ IfSome block (HasBlock self.now) }
    {
        match block {
            Some(block) => self.has_block(block),
            None => true,
        }
    }

    /// Whether each of the blocks is one of the body's.
    fn has_blocks(&self, blocks: &[BasicBlockId]) -> bool
        ensures { IsTrue result ↔ All (HasBlock self.now) blocks.now }
    {
        for block in blocks {
            if !self.has_block(*block) {
                return false;
            }
        }
        true
    }

    /// Whether the body has the place that the operand reads, where it reads one.
    fn is_operand_closed(&self, operand: &Operand) -> bool
        ensures { IsTrue result ↔ IsClosedOperand self.now operand.now.kind }
    {
        match &operand.kind {
            OperandKind::Copy(place) => self.has_place(*place),
            OperandKind::Constant { .. } => true,
        }
    }

    /// Whether the body has each place that one of the operands reads.
    fn are_operands_closed(&self, operands: &[Operand]) -> bool
        ensures { IsTrue result ↔ All (λ operand. IsClosedOperand self.now operand.kind) operands.now }
    {
        for operand in operands {
            if !self.is_operand_closed(operand) {
                return false;
            }
        }
        true
    }

    /// Whether the body has each place that is read to compute the value.
    fn is_rvalue_closed(&self, rvalue: &Rvalue) -> bool
        ensures { IsTrue result ↔ IsClosedRvalue self.now rvalue.now }
    {
        match rvalue {
            Rvalue::Use(operand) => self.is_operand_closed(operand),
            Rvalue::Repeat(operand, _) => self.is_operand_closed(operand),
            Rvalue::Cast(_, operand, _) => self.is_operand_closed(operand),
            Rvalue::CheckedBinaryOp(_, left, right) => {
                self.is_operand_closed(left) && self.is_operand_closed(right)
            }
            Rvalue::UnaryOp(_, operand) => self.is_operand_closed(operand),
            Rvalue::Aggregate(_, operands) => self.are_operands_closed(operands.as_slice()),
        }
    }

    /// Whether the body has each place and each local that the statement names.
    fn is_statement_closed(&self, statement: &Statement) -> bool
        ensures { IsTrue result ↔ IsClosedStatement self.now statement.now.kind }
    {
        match &statement.kind {
            StatementKind::Assign(place, rvalue) => {
                self.has_place(*place) && self.is_rvalue_closed(rvalue)
            }
            StatementKind::FakeRead(place) => self.has_place(*place),
            StatementKind::StorageLive(local) => self.has_local(*local),
            StatementKind::StorageDead(local) => self.has_local(*local),
        }
    }

    /// Whether the body has each place and each local that one of the statements names.
    fn are_statements_closed(&self, statements: &[Statement]) -> bool
        ensures { IsTrue result ↔ All (λ statement. IsClosedStatement self.now statement.kind) statements.now }
    {
        for statement in statements {
            if !self.is_statement_closed(statement) {
                return false;
            }
        }
        true
    }

    /// Whether the body has each place that the terminator names, and each block that it leads to.
    fn is_terminator_closed(&self, terminator: &Terminator) -> bool
        ensures { IsTrue result ↔ IsClosedTerminator self.now terminator.now.kind }
    {
        match &terminator.kind {
            TerminatorKind::Goto { target } => self.has_block(*target),
            TerminatorKind::SwitchInt { discr, targets } => {
                self.is_operand_closed(discr) && self.has_blocks(targets.all_targets())
            }
            TerminatorKind::Return => true,
            TerminatorKind::Drop {
                place,
                target,
                unwind,
            } => {
                self.has_place(*place) && self.has_block(*target) && self.has_block_if_any(*unwind)
            }
            TerminatorKind::Call {
                func,
                args,
                destination,
                target,
                cleanup,
                ..
            } => {
                self.is_operand_closed(func)
                    && self.are_operands_closed(args.as_slice())
                    && self.has_place(*destination)
                    && self.has_block_if_any(*target)
                    && self.has_block_if_any(*cleanup)
            }
        }
    }

    /// Whether the body has each place, local and block that the block names.
    fn is_block_closed(&self, block: &BasicBlock) -> bool
        ensures { IsTrue result ↔ IsClosedBlock self.now block.now }
    {
        let is_end_closed = match &block.terminator {
            Some(terminator) => self.is_terminator_closed(terminator),
            None => true,
        };
        is_end_closed && self.are_statements_closed(block.statements.as_slice())
    }

    /// Whether the body has each place, local and block that one of the blocks names.
    fn are_blocks_closed(&self, blocks: &[BasicBlock]) -> bool
        ensures { IsTrue result ↔ All (IsClosedBlock self.now) blocks.now }
    {
        for block in blocks {
            if !self.is_block_closed(block) {
                return false;
            }
        }
        true
    }
}
