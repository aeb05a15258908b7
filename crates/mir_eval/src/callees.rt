//! What a run was told of the functions that it calls: their bodies, ready to be entered.

ghost use Rattle.std.specs.Option.{ForSome};
ghost use Rattle.std.specs.Prelude.{◌≡◌, ◌≢◌, Some, None, IfOk, IfSome, IsTrue, OnOk};
ghost use Rattle.types.specs.declared.ids.FunctionId.{FunctionId};
ghost use Rattle.mir.specs.Answers.{answer_to, answers_kind, IsAfterPut};
ghost use Rattle.mir.specs.Run.{body_query};
ghost use Rattle.mir_rows.specs.Alignments.{HasAlignments};
ghost use Rattle.mir_rows.specs.Callees.{AreSizes};
ghost use Rattle.mir_eval.specs.Calls.{function_is};
ghost use Rattle.mir_eval.specs.Callees.{plain_query, told_body};

use crate::calls::Function;
use crate::frames::Program;
use mir::{Answer, Query};
use mir_rows::{Callee, callee_of};
use std::alloc::Global;
use world::{DefWithBodyId, FunctionId, HirDatabase, NoMemory};

/// What can be entered by an answer, where that is a body.
fn told_callee<'a>(
    alloc: Global,
    db: &'a HirDatabase,
    answer: &Answer,
) -> Result<Option<Callee<'a>>, NoMemory>
    requires { HasAlignments db.now }
    ensures body { IfOk result (λ found. ForSome found (λ callee. told_body (Some answer.now) ≡ Some callee.body.value.body)) }
    ensures world { IfOk result (λ found. ForSome found (λ callee. callee.body.value.world ≡ db.now)) }
    ensures sizes { IfOk result (λ found. ForSome found (λ callee. ForSome callee.sizes (λ sizes. AreSizes db.now callee.body.value.body.locals sizes.value))) }
{
    match answer {
        Answer::Body(body) => Ok(Some(callee_of(alloc, db, body)?)),
        _ => Ok(None),
    }
}

/// The function whose body a query asks for, where it is given no generic arguments.
fn plain_function(query: &Query) -> Option<FunctionId>
    ensures some { IfSome result (λ id. query.now ≡ plain_query id) }
    ensures none { result ≡ None → (id : FunctionId) → query.now ≢ plain_query id }
{
    match query {
        Query::Body(DefWithBodyId::FunctionId(id), args) => {
            if args.0.as_slice().is_empty() {
                Some(*id)
            } else {
                None
            }
        }
        _ => None,
    }
}

impl<'a> Program<'a> {
    /// What can be entered of a function, where the run was told its body.
    pub(crate) fn callee(&self, function: Function<'_>) -> Option<Callee<'a>>
        ensures told { IfSome result (λ callee. told_body (answer_to self.now.answers (body_query (function_is function.entry))) ≡ Some callee.body.value.body) }
        ensures world { IfSome result (λ callee. callee.body.value.world ≡ self.now.db.now) }
        ensures sizes { IfSome result (λ callee. ForSome callee.sizes (λ sizes. AreSizes self.now.db.now callee.body.value.body.locals sizes.value)) }
    {
        if !function.args.0.as_slice().is_empty() {
            return None;
        }
        match self.callees.get(&function.id) {
            Some(Some(callee)) => match callee.share() {
                Ok(callee) => Some(callee),
                Err(_) => None,
            },
            _ => None,
        }
    }

    /// Takes the answer to a query.
    pub(crate) fn take(
        &mut self,
        alloc: Global,
        query: Query,
        answer: Answer,
    ) -> Result<(), NoMemory>
        requires kind { IsTrue (answers_kind query answer) }
        requires aligned { HasAlignments self.old.db.now }
        ensures told { OnOk result (IsAfterPut self.old.answers self.new.answers query answer) }
        ensures db { self.new.db ≡ self.old.db }
        ensures nesting { self.new.nesting ≡ self.old.nesting }
        ensures bytes { self.new.bytes ≡ self.old.bytes }
    {
        let Some(id) = plain_function(&query) else {
            return self.answers.put(query, answer);
        };
        let callee = told_callee(alloc, self.db, &answer)?;
        self.callees.insert(id, None)?;
        self.answers.put(query, answer)?;
        self.callees.insert(id, callee)?;
        Ok(())
    }
}
