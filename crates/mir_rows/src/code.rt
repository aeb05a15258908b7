//! A body beside its rows, which go by the layouts of a world.

use crate::building::blocks;
use crate::row::BlockRows;
use mir::{BasicBlockId, MirBody};
use std::alloc::Global;
use std::marker::Model;
use std::rc::Rc;
use world::{HirDatabase, NoMemory};

/// A body that is ready to run in a world: it stands beside the rows of its blocks. Contracts see the world and the body.
pub struct Code<'a> {
    db: &'a HirDatabase,
    body: Rc<MirBody>,
    blocks: Vec<BlockRows>,
}

impl Drop for Code<'_> {
    fn drop(self) {
        let Code {
            db: _db,
            body: _body,
            blocks: _blocks,
        } = self;
    }
}

impl<'a> Model for Code<'a> {
    ghost use Rattle.std.specs.Coded.{codes};
    ghost use Rattle.mir_rows.specs.Rows.{AreBlocks};
    ghost use Rattle.mir_rows.specs.Spots.{prepared, Prepared};
    ghost use Rattle.mir.specs.contracts.body.MirBody as lowered;
    ghost use Rattle.world.specs.contracts.database.HirDatabase as database;

    ghost Value = { Prepared };

    ghost coded = { Prim.hlevel (codes, database.the_row.coded, lowered.the_row.coded) };

    ghost view = { λ code. prepared code.db.now code.body.value };

    ghost invariant = { λ code. AreBlocks (prepared code.db.now code.body.value) code.body.value.basic_blocks code.blocks.items };
}

impl<'a> Code<'a> {
    ghost use Rattle.std.specs.Prelude.{◌≡◌, IfOk, IfNone, IfSome, None, Some, slice_get};
    ghost use Rattle.mir_rows.specs.Rows.{IsBlock, HasRows};

    /// A body with its rows, which are made here once, by the layouts of a world.
    pub fn new(alloc: Global, db: &'a HirDatabase, body: Rc<MirBody>) -> Result<Code<'a>, NoMemory>
        ensures world { IfOk result (λ code. code.world ≡ db.now) }
        ensures body { IfOk result (λ code. code.body ≡ body.value) }
    {
        let blocks = blocks(alloc, db, body.as_ref())?;
        Ok(Code { db, body, blocks })
    }

    /// The body.
    #[inline(always)]
    pub fn body(&self) -> &MirBody
        ensures { result.now ≡ self.now.body }
    {
        self.body.as_ref()
    }

    /// The rows of a block, where the body has it.
    #[inline(always)]
    pub fn block(&self, block: BasicBlockId) -> Option<&BlockRows>
        ensures found { IfSome result (λ rows. HasRows self.now block.0 rows.now) }
        ensures none { IfNone result (slice_get self.now.body.basic_blocks block.0 ≡ None) }
    {
        self.blocks.get(block.0 as usize)
    }
}
