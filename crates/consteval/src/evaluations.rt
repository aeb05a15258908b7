//! Evaluations over one checked world, and what they keep.

ghost use Rattle.std.specs.Prelude.{◌≡◌, IfOk};

use crate::Evaluated;
use crate::kept::{Held, Key};
use crate::lowering::{has_none, lower};
use crate::running::refused;
use mir::{ConstEvalError, MirBody, MirLowerError};
use mir_eval::Limits;
use std::alloc::Global;
use std::marker::Model;
use std::rc::Rc;
use world::{Const, DefWithBodyId, GenericArgs, List, NoMemory, Table, TryClone};
use world_check::CheckedWorld;

/// Evaluations over one checked world. They keep each lowered body and each value, in the order of
/// keeping.
pub struct Evaluations<'w> {
    alloc: Global,
    world: &'w CheckedWorld,
    kept: Table<Key, Held>,
}

impl Drop for Evaluations<'_> {
    fn drop(self) {
        let Evaluations {
            alloc: _alloc,
            world: _world,
            kept: _kept,
        } = self;
    }
}

impl<'w> Model for Evaluations<'w> {
    ghost use Rattle.std.specs.Coded.{codes};
    ghost use Rattle.mir.specs.contracts.body.MirBody as body;
    ghost use Rattle.types.specs.contracts.ty.Const as konst;
    ghost use Rattle.world.specs.contracts.database.HirDatabase as database;
    ghost use Rattle.consteval.specs.Kept.{Kept, IsSound, kept_of};

    ghost Value = { Kept };

    ghost coded = { Prim.hlevel (codes, database.the_row.coded, body.the_row.coded, konst.the_row.coded) };

    ghost view = { λ e. kept_of e.world.now e.kept };

    ghost invariant = { λ e. IsSound (kept_of e.world.now e.kept) };
}

/// A lowered body that can be shared.
fn shared(alloc: Global, body: MirBody) -> Result<Rc<MirBody>, NoMemory>
    ensures { IfOk result (λ made. made.value ≡ body) }
{
    Ok(Rc::new(alloc, body)?)
}

/// The same body once more.
fn share(body: &Rc<MirBody>) -> Result<Rc<MirBody>, NoMemory>
    ensures { IfOk result (λ same. same.value ≡ body.now.value) }
{
    Ok(Rc::clone(body)?)
}

impl<'w> Evaluations<'w> {
    ghost use Rattle.std.specs.Prelude.{◌≡◌, ◌⊎◌, ◌≤◌, [], Some, Ok, Err, IfOk, IfErr, IfSome, IfNone, OnOk, OnErr, IsOk, Contains};
    ghost use Rattle.mir.specs.declared.errors.ConstEvalError.TheVariants as constant;
    ghost use Rattle.mir.specs.declared.errors.MirLowerError.TheVariants as refusal;
    ghost use Rattle.world.specs.Limits.{IsWithin};
    ghost use Rattle.source_meaning.specs.Valid.{HasDefinedCost};
    ghost use Rattle.world.specs.Checked.{IsChecked};
    ghost use Rattle.source_meaning.specs.Aggregates.{HasAggregates};
    ghost use Rattle.consteval.specs.declared.kept.Key.TheVariants as key;
    ghost use Rattle.consteval.specs.Kept.{Lowered, Value, IsKept, IsLowered, IsSound, IsValueOf, RestsOn, Stays, entry_of, key_of, with_entry};
    ghost use Rattle.consteval.specs.Built.{no_args};
    ghost use Rattle.consteval.specs.Valid.{IsValid};
    ghost use Rattle.consteval.specs.Answers.{GivesValue, CountsBlocks, GivesPanic, GivesUndefined, AnswersWithin, AnswersEndless, HasNoEnd, EndsIn, HasCause, panic_word, undefined_text};
    ghost use Rattle.consteval.specs.Refusals.{RefusesBody};
    ghost use Rattle.consteval.specs.Sources.{source_of};

    /// Evaluations that have kept nothing yet. It takes no memory.
    pub fn new(alloc: Global, world: &'w CheckedWorld) -> Result<Evaluations<'w>, NoMemory>
        ensures empty { IfOk result (λ e. e ≡ record { world = world.now; entries = [] }) }
        ensures made { IsOk result }
    {
        Ok(Evaluations {
            alloc,
            world,
            kept: Table::new(alloc),
        })
    }

    /// The world that is evaluated.
    pub fn world(&self) -> &'w CheckedWorld
        ensures { result.now ≡ self.now.world }
    {
        self.world
    }

    /// Where memory is taken from.
    pub(crate) fn alloc(&self) -> Global
        ensures sound { IsSound self.now }
    {
        self.alloc
    }

    /// What is kept for a key.
    fn find(&self, key: Key) -> Option<&Held>
        ensures some { IfSome result (λ held. Contains self.now.entries (entry_of held.now) × (key_of (entry_of held.now) ≡ key)) }
        ensures none { IfNone result (¬ IsKept self.now key) }
    {
        match self.kept.get(&key) {
            Some(held) => Some(held),
            None => None,
        }
    }

    /// Keeps an answer for a key for which nothing is kept, after all that is.
    fn keep(&mut self, held: Held) -> Result<(), NoMemory>
        requires fresh { ¬ IsKept self.old (key_of (entry_of held)) }
        requires right { RestsOn self.old (entry_of held) }
        ensures kept { OnOk result (self.new ≡ with_entry (entry_of held) self.old) }
        ensures unchanged { OnErr result (self.new ≡ self.old) }
        ensures sound { IsSound self.new }
    {
        let _ = &self.alloc;
        self.kept.push(held)
    }

    /// Lowers the body of a definition for which none is kept, and keeps it.
    fn new_body(
        &mut self,
        def: DefWithBodyId,
        args: &GenericArgs,
    ) -> Result<Rc<MirBody>, MirLowerError>
        requires { args.now.0 ≡ [] → ¬ IsKept self.old (key.Lowered def) }
        ensures found { IfOk result (λ body. Contains self.new.entries (Lowered def body.value)) }
        ensures given { OnOk result (args.now.0 ≡ []) }
        ensures refused { IfErr result (λ e. (e ≡ refusal.NoMemory) ⊎ RefusesBody self.old.world def args.now e) }
        ensures stays { Stays self.old self.new }
        ensures sound { IsSound self.new }
    {
        let body = match lower(self.alloc, self.world, def, args) {
            Ok(body) => body,
            Err(error) => return Err(error),
        };
        let Ok(body) = shared(self.alloc, body) else {
            return Err(MirLowerError::NoMemory);
        };
        let Ok(more) = share(&body) else {
            return Err(MirLowerError::NoMemory);
        };
        match self.keep(Held::Lowered(def, more)) {
            Ok(()) => Ok(body),
            Err(_) => Err(MirLowerError::NoMemory),
        }
    }

    /// The lowered body of a definition that is given no arguments, where it is kept.
    fn old_body(&self, def: DefWithBodyId, args: &GenericArgs) -> Option<&Rc<MirBody>>
        ensures some { IfSome result (λ body. Contains self.now.entries (Lowered def body.now.value) × (args.now.0 ≡ [])) }
        ensures none { IfNone result (args.now.0 ≡ [] → ¬ IsKept self.now (key.Lowered def)) }
    {
        if !has_none(args) {
            return None;
        }
        match self.find(Key::Lowered(def)) {
            Some(Held::Lowered(_, body)) => Some(body),
            _ => None,
        }
    }

    /// The lowered body of a definition: the kept one, or a new one, which is then kept.
    pub(crate) fn body_of(
        &mut self,
        def: DefWithBodyId,
        args: &GenericArgs,
    ) -> Result<Rc<MirBody>, MirLowerError>
        ensures found { IfOk result (λ body. Contains self.new.entries (Lowered def body.value)) }
        ensures given { OnOk result (args.now.0 ≡ []) }
        ensures refused { IfErr result (λ e. (e ≡ refusal.NoMemory) ⊎ RefusesBody self.old.world def args.now e) }
        ensures stays { Stays self.old self.new }
        ensures sound { IsSound self.new }
    {
        let _ = &self.alloc;
        if let Some(body) = self.old_body(def, args) {
            return match share(body) {
                Ok(body) => Ok(body),
                Err(_) => Err(MirLowerError::NoMemory),
            };
        }
        self.new_body(def, args)
    }

    /// The lowered body of a definition that is given no arguments: the kept one, or a new one, which is then kept. The
    /// refusals, in this order: `HasErrors` where inference met an error in the definition's body, `NotSupported` where the
    /// definition isn't built yet, `IncompleteExpr` where it has no body, and those of its expressions. `NoMemory` may come in place
    /// of any of them. The limits are those on the runs that lowering needs, and so far it needs none.
    pub fn mir_body_query(
        &mut self,
        def: DefWithBodyId,
        limits: &Limits,
    ) -> Result<Rc<MirBody>, MirLowerError>
        requires { IsWithin limits.now }
        ensures lowered { IfOk result (λ body. IsLowered self.old.world def body.value) }
        ensures kept { IfOk result (λ body. Contains self.new.entries (Lowered def body.value)) }
        ensures refused { IfErr result (λ e. (e ≡ refusal.NoMemory) ⊎ RefusesBody self.old.world def no_args e) }
        ensures complete { (row : _) → IsValid self.old.world def no_args row → HasDefinedCost (source_of self.old.world row) → IfErr result (λ e. e ≡ refusal.NoMemory) }
        ensures stays { Stays self.old self.new }
        ensures sound { IsSound self.new }
    {
        let _ = limits;
        // The clause `complete` needs that the world is checked, and `db` ensures it.
        let world = self.world;
        let db = world.db();
        let _ = db;
        let args = GenericArgs(List::new(self.alloc));
        self.body_of(def, &args)
    }

    /// The answer of a run of the definition's body, before its value is kept.
    fn answer(&mut self, def: DefWithBodyId, args: &GenericArgs, limits: &Limits) -> Evaluated
        requires { IsWithin limits.now }
        ensures printed { result.output ≡ ([], []) }
        ensures cause { HasCause self.new def args.now limits.now result.turns result.result }
        ensures turns { result.turns ≤ limits.now.blocks }
        ensures stays { Stays self.old self.new }
        ensures sound { IsSound self.new }
        ensures checked { IsChecked self.new.world }
        ensures parts { HasAggregates self.new.world }
    {
        // The clauses `checked` and `parts` need that the world is checked, and `db` ensures it.
        let world = self.world;
        let db = world.db();
        let _ = db;
        let body = match self.body_of(def, args) {
            Ok(body) => body,
            Err(error) => return refused(self.alloc, ConstEvalError::from(error)),
        };
        self.run_body(def, body, limits)
    }

    /// Keeps the value of a definition, unless one is kept.
    fn keep_value(&mut self, def: DefWithBodyId, konst: &Const) -> Result<(), NoMemory>
        requires { IsValueOf self.old def konst.now }
        ensures kept { OnOk result (IsKept self.new (key.Value def)) }
        ensures stays { Stays self.old self.new }
        ensures sound { IsSound self.new }
    {
        let _ = &self.alloc;
        if let Some(_) = self.find(Key::Value(def)) {
            return Ok(());
        }
        let konst = konst.try_clone(self.alloc)?;
        self.keep(Held::Value(def, konst))
    }

    /// Keeps what an answer is, where it is a value.
    fn keep_answer(
        &mut self,
        def: DefWithBodyId,
        answer: &Result<Const, ConstEvalError>,
    ) -> Result<(), NoMemory>
        requires { IfOk answer.now (IsValueOf self.old def) }
        ensures kept { OnOk result (IsOk answer.now → IsKept self.new (key.Value def)) }
        ensures stays { Stays self.old self.new }
        ensures sound { IsSound self.new }
    {
        let _ = &self.alloc;
        match answer {
            Ok(konst) => self.keep_value(def, konst),
            Err(_) => Ok(()),
        }
    }

    /// Evaluates a definition: runs its kept lowered body, which is lowered and kept first where there is
    /// none. So is the body of each function that the run calls. A value is kept too, unless one is kept
    /// already.
    pub fn eval_def(&mut self, def: DefWithBodyId, args: &GenericArgs, limits: &Limits) -> Evaluated
        requires { IsWithin limits.now }
        ensures printed { result.output ≡ ([], []) }
        ensures value { (row : _) (konst : _) → IsValid self.old.world def args.now row → result.result ≡ Ok konst → GivesValue (source_of self.old.world row) konst }
        ensures counts { (row : _) (konst : _) → IsValid self.old.world def args.now row → result.result ≡ Ok konst → CountsBlocks (source_of self.old.world row) result.turns }
        ensures panic { (row : _) (e : _) (word : _) → IsValid self.old.world def args.now row → result.result ≡ Err (constant.MirEvalError e) → panic_word e ≡ Some word
            → GivesPanic (source_of self.old.world row) word }
        ensures undefined { (row : _) (e : _) (text : _) → IsValid self.old.world def args.now row → result.result ≡ Err (constant.MirEvalError e) → undefined_text e ≡ Some text
            → GivesUndefined (source_of self.old.world row) text }
        ensures closed { (row : _) → IsValid self.old.world def args.now row → IfErr result.result (EndsIn (source_of self.old.world row) limits.now) }
        ensures complete { (row : _) → IsValid self.old.world def args.now row → AnswersWithin (source_of self.old.world row) limits.now result.result }
        ensures endless { (row : _) → IsValid self.old.world def args.now row → HasNoEnd (source_of self.old.world row)
            → AnswersEndless (source_of self.old.world row) limits.now result.result }
        ensures cause { HasCause self.new def args.now limits.now result.turns result.result }
        ensures turns { result.turns ≤ limits.now.blocks }
        ensures stays { Stays self.old self.new }
        ensures kept { IsOk result.result → (konst : _) × Contains self.new.entries (Value def konst) }
        ensures sound { IsSound self.new }
    {
        let evaluated = self.answer(def, args, limits);
        match self.keep_answer(def, &evaluated.result) {
            Ok(()) => evaluated,
            Err(_) => Evaluated {
                result: Err(ConstEvalError::NoMemory),
                output: evaluated.output,
                turns: evaluated.turns,
            },
        }
    }
}
