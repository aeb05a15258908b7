//! The queries at which a run of a body stops, and the answers to them.

ghost use Rattle.std.specs.Prelude.{◌≡◌, ◌≢◌, [], Some, IsTrue, IfSome, OnOk, OnErr};
ghost use Rattle.std.specs.Option.{option_copied};
ghost use Rattle.mir.specs.Answers.{answer_to, answers_kind, IsAfterPut};

use crate::{ConstEvalError, MirBody};
use std::alloc::Global;
use std::collections::BTreeMap;
use std::marker::Model;
use std::rc::Rc;
use world::{
    Const, ConstId, DefWithBodyId, EnumVariantId, GenericArgs, InternedClosureId, NoMemory,
    StaticId, TryClone,
};

/// What a run of a body may want to know before it can go on. It stops with the query; its caller
/// finds the answer and tells it; then the run goes on. So far a run asks for the bodies of functions alone.
#[derive(PartialEq, Eq, PartialOrd, Ord)]
pub enum Query {
    /// The value of a constant, given generic arguments.
    Konst(ConstId, GenericArgs),
    /// The value that a static has at first.
    Static(StaticId),
    /// The discriminant of a variant, which the Rust Reference's page on enumerations defines.
    Discriminant(EnumVariantId),
    /// The lowered body of a definition, given generic arguments.
    Body(DefWithBodyId, GenericArgs),
    /// The lowered body of a closure, given generic arguments.
    Closure(InternedClosureId, GenericArgs),
}

impl Drop for Query {
    fn drop(self) {
        match self {
            Query::Konst(_item, _args) => {}
            Query::Static(_item) => {}
            Query::Discriminant(_variant) => {}
            Query::Body(_def, _args) => {}
            Query::Closure(_closure, _args) => {}
        }
    }
}

/// What answers a query.
pub enum Answer {
    /// The value of a constant or of a static.
    Konst(Const),
    /// The discriminant of a variant.
    Discriminant(i128),
    /// A lowered body, which is shared with the runs of it.
    Body(Rc<MirBody>),
    /// Why the query has no other answer. It answers each kind of query; a body fails only for an error of lowering,
    /// or for want of memory.
    Failed(ConstEvalError),
}

impl Drop for Answer {
    fn drop(self) {
        match self {
            Answer::Konst(_konst) => {}
            Answer::Discriminant(_number) => {}
            Answer::Body(_body) => {}
            Answer::Failed(_error) => {}
        }
    }
}

/// The answers that a run of a body was given, at most one to each query. Each is of the kind that
/// its query wants. Contracts see them as pairs of a query and its answer, in the order of the
/// queries.
pub struct Answers {
    entries: BTreeMap<Query, Answer>,
}

impl Model for Answers {
    ghost use Rattle.std.specs.Prelude.{List};
    ghost use Rattle.std.specs.Coded.{codes};
    ghost use Rattle.mir.specs.Answers.{AreOfKind};
    ghost use Rattle.mir.specs.contracts.answers.Query as asked;
    ghost use Rattle.mir.specs.contracts.answers.Answer as answered;
    ghost use Rattle.mir.specs.declared.answers.Query.{Query};
    ghost use Rattle.mir.specs.declared.answers.Answer.{Answer};

    ghost Value = { List (Query × Answer) };

    ghost coded = { Prim.hlevel (codes, asked.the_row.coded, answered.the_row.coded) };

    ghost view = { λ answers. answers.entries.entries };

    ghost invariant = { λ answers. AreOfKind answers.entries.entries };
}

impl Drop for Answers {
    fn drop(self) {
        let Answers { entries: _entries } = self;
    }
}

impl Answers {
    /// No answers. It takes no memory.
    pub fn new(alloc: Global) -> Answers
        ensures { result ≡ [] }
    {
        Answers {
            entries: BTreeMap::new(alloc),
        }
    }

    /// The answer to the query, where there is one. It is of the kind that the query wants.
    pub fn get(&self, query: &Query) -> Option<&Answer>
        ensures value { option_copied result ≡ answer_to self.now query.now }
        ensures kind { IfSome result (λ answer. IsTrue (answers_kind query.now answer.now)) }
    {
        self.entries.get(query)
    }

    /// Makes `answer` the answer to `query`, in place of the one that it had. Every other query has
    /// the answer that it had before. Without memory it is `NoMemory`, and no answer changes.
    pub fn put(&mut self, query: Query, answer: Answer) -> Result<(), NoMemory>
        requires { IsTrue (answers_kind query answer) }
        ensures ok { OnOk result (IsAfterPut self.old self.new query answer) }
        ensures err { OnErr result (self.new ≡ self.old) }
    {
        self.entries.insert(query, answer)?;
        Ok(())
    }
}

impl TryClone for Query {
    fn try_clone(&self, alloc: Global) -> Result<Query, NoMemory> {
        match self {
            Query::Konst(item, args) => Ok(Query::Konst(*item, args.try_clone(alloc)?)),
            Query::Static(item) => Ok(Query::Static(*item)),
            Query::Discriminant(variant) => Ok(Query::Discriminant(*variant)),
            Query::Body(def, args) => Ok(Query::Body(*def, args.try_clone(alloc)?)),
            Query::Closure(closure, args) => Ok(Query::Closure(*closure, args.try_clone(alloc)?)),
        }
    }
}
