//! Bodies that can be entered: beside their rows stand the sizes of their cells.

ghost use Rattle.std.specs.Option.{ForSome};
ghost use Rattle.std.specs.Prelude.{◌≡◌, List, IfOk};
ghost use Rattle.world.specs.declared.database.HirDatabase.{HirDatabase};
ghost use Rattle.mir.specs.declared.body.Local.{Local};
ghost use Rattle.mir_rows.specs.Alignments.{HasAlignments};
ghost use Rattle.mir_rows.specs.Callees.{AreSizes};

use crate::cell_sizes::sizes;
use crate::code::Code;
use mir::{CellSize, MirBody, MirEvalError};
use std::alloc::Global;
use std::rc::Rc;
use world::{HirDatabase, List, NoMemory};

/// A body with its rows in a world, to be shared.
pub fn ready<'a>(
    alloc: Global,
    db: &'a HirDatabase,
    body: Rc<MirBody>,
) -> Result<Rc<Code<'a>>, NoMemory>
    ensures world { IfOk result (λ code. code.value.world ≡ db.now) }
    ensures body { IfOk result (λ code. code.value.body ≡ body.value) }
{
    let code = Code::new(alloc, db, body)?;
    Ok(Rc::new(alloc, code)?)
}

/// A body that can be entered, and, where each of its locals but the return slot has one, how large their cells are.
pub struct Callee<'a> {
    pub body: Rc<Code<'a>>,
    pub sizes: Option<Rc<List<CellSize>>>,
}

impl Drop for Callee<'_> {
    fn drop(self) {
        let Callee {
            body: _body,
            sizes: _sizes,
        } = self;
    }
}

impl<'a> Callee<'a> {
    /// The body alone.
    pub fn into_body(self) -> Rc<Code<'a>>
        ensures { result.value ≡ self.entry.body.value }
    {
        let Callee {
            body,
            sizes: _sizes,
        } = self;
        body
    }

    /// The same once more; both share the body and the sizes.
    pub fn share(&self) -> Result<Callee<'a>, NoMemory>
        ensures body { IfOk result (λ callee. callee.body.value ≡ self.now.body.value) }
        ensures sizes { (world : HirDatabase) (locals : List Local) → ForSome self.now.sizes (λ sizes. AreSizes world locals sizes.value) → IfOk result (λ callee. ForSome callee.sizes (λ sizes. AreSizes world locals sizes.value)) }
    {
        let sizes = match &self.sizes {
            Some(sizes) => Some(Rc::clone(sizes)?),
            None => None,
        };
        Ok(Callee {
            body: Rc::clone(&self.body)?,
            sizes,
        })
    }
}

/// A body as one that can be entered, with the sizes of its cells where each can have one.
pub fn callee_of<'a>(
    alloc: Global,
    db: &'a HirDatabase,
    body: &Rc<MirBody>,
) -> Result<Callee<'a>, NoMemory>
    requires { HasAlignments db.now }
    ensures body { IfOk result (λ callee. callee.body.value.body ≡ body.now.value) }
    ensures world { IfOk result (λ callee. callee.body.value.world ≡ db.now) }
    ensures sizes { IfOk result (λ callee. ForSome callee.sizes (λ sizes. AreSizes db.now callee.body.value.body.locals sizes.value)) }
{
    let locals = body.as_ref().locals.as_slice();
    let sizes = if locals.is_empty() {
        None
    } else {
        match sizes(alloc, db, &locals[1..]) {
            Ok(sizes) => Some(Rc::new(alloc, sizes)?),
            Err(MirEvalError::NoMemory) => return Err(NoMemory),
            Err(_refusal) => None,
        }
    };
    Ok(Callee {
        body: ready(alloc, db, Rc::clone(body)?)?,
        sizes,
    })
}
