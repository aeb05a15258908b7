//! A graph that is being built: blocks, one of which is open, locals, the scopes that are open, and the projections of places.

ghost use Rattle.std.specs.Prelude.{◌≡◌, ◌<◌, ◌≤◌, ◌^◌, ◌∷◌, ◌++◌, ℕ, List, length, IfOk, IfSome, IfNone, OnOk, Some, None, [], slice_get};
ghost use Rattle.std.specs.Option.{option_map};
ghost use Rattle.mir.specs.Projections.{HasId};
ghost use Rattle.mir_graph.specs.Graph.{IsProjected, OpenTarget, with_targets, target_of_blocks, meant_target, shape, first_shape, with_statement, with_terminator, with_block, with_reserved, with_entered, with_binding, with_temp, with_mark, temp_of, binding_local, no_statements, cell_of, with_never, never_of, with_index, index_local};
ghost use Rattle.source_meaning.specs.Around.{is_meant};
ghost use Rattle.source_meaning.specs.Source.{IndexOf, Node, Never};

use mir::{
    BasicBlock, BasicBlockId, Interner, Local, LocalId, MirBody, Place, PlaceElem, ProjectionStore,
    Statement, Terminator,
};
use std::alloc::Global;
use world::{BindingId, DefWithBodyId, ExprId, LabelId, List, NoMemory, Ty};

/// What a local holds the value of.
#[derive(Clone, Copy)]
pub enum Held {
    /// An expression.
    Expr(ExprId),
    /// What a name is bound to.
    Binding(BindingId),
    /// The `!` of an expression that is adjusted by `NeverToAny`.
    Never(ExprId),
    /// The index of an index expression.
    Index(ExprId),
}

/// The locals of an expression, where it has them.
#[derive(Clone, Copy)]
pub struct Temps {
    /// That of its value.
    pub value: Option<LocalId>,
    /// That of its `!`, where it is adjusted by `NeverToAny`.
    pub never: Option<LocalId>,
    /// That of its index, where it is an index expression.
    pub index: Option<LocalId>,
}

/// A local that came into use in a scope that is open.
#[derive(Clone, Copy)]
pub struct Marked {
    /// What it holds the value of.
    pub held: Held,
    pub local: LocalId,
}

/// A loop or a labelled block that is being lowered: what a jump to it needs.
#[derive(Clone, Copy)]
pub struct LoopBlocks {
    /// The loop or the block as an expression.
    pub node: ExprId,
    /// The label that it has.
    pub label: Option<LabelId>,
    /// Where it begins, and where `continue` leads.
    pub begin: BasicBlockId,
    /// What follows it, and where `break` leads.
    pub end: BasicBlockId,
    /// Where its value goes.
    pub to: LocalId,
    /// How many locals were in use when it was entered.
    pub drop_scope: DropScopeToken,
}

/// An open scope: how many locals were in use when it was opened. Those behind them are its own, and those of scopes inside it.
#[derive(Clone, Copy)]
pub struct DropScopeToken(pub usize);

/// A graph that is being built. What a call does to it is said of its `shape`, in `specs/Graph.antt`.
#[derive(Drop)]
pub struct Graph<I> {
    /// The blocks so far, by their ids.
    pub blocks: Vec<BasicBlock>,
    /// The block that statements are added to.
    pub current: BasicBlockId,
    /// Local 0 is the return slot.
    pub locals: List<Local>,
    /// For each binding its local, where no closure owns it.
    pub bindings: Vec<Option<LocalId>>,
    /// For each expression the local that holds its value, that of its `!`, and that of its index.
    pub temps: Vec<Temps>,
    /// The locals in use in all open scopes, those of the outermost scope first.
    pub scope: Vec<Marked>,
    /// The loops and labelled blocks that are being lowered, the outermost first.
    pub loops: Vec<LoopBlocks>,
    /// The projections of places, each under one id.
    pub projections: I,
}

fn empty_block(alloc: Global) -> BasicBlock
    ensures { result ≡ no_statements }
{
    BasicBlock {
        statements: List::new(alloc),
        terminator: None,
        is_cleanup: false,
    }
}

/// Whether a jump means a loop or a labelled block: any, where the jump has no label.
fn is_meant(label: Option<LabelId>, blocks: &LoopBlocks) -> bool
    ensures { result ≡ is_meant label (target_of_blocks blocks.now).opened }
{
    match label {
        None => true,
        Some(label) => blocks.label == Some(label),
    }
}

impl<I: Interner + Drop> Graph<I> {
    /// One open block and the return slot, for a body of `nodes` expressions, over the projections that an interner keeps.
    pub fn new(alloc: Global, ty: Ty, nodes: u64, projections: I) -> Result<Graph<I>, NoMemory>
        ensures { IfOk result (λ graph. shape I.projections graph ≡ first_shape ty nodes (I.projections projections)) }
    {
        let mut blocks = Vec::new(alloc);
        blocks.push(empty_block(alloc))?;
        let mut locals = List::new(alloc);
        locals.push(Local { ty })?;
        let none = Temps {
            value: None,
            never: None,
            index: None,
        };
        let temps = vec![in alloc; none; nodes as usize]?;
        Ok(Graph {
            blocks,
            current: BasicBlockId(0),
            locals,
            bindings: Vec::new(alloc),
            temps,
            scope: Vec::new(alloc),
            loops: Vec::new(alloc),
            projections,
        })
    }
}

impl<I: Interner> Graph<I> {
    /// Adds a binding, with a new local of its type. A local that would be the 2^32nd has no id: `NoMemory`.
    #[tactic(auto, unfolding(crate::specs::Graph::with_binding))]
    pub fn push_bound(&mut self, ty: Ty) -> Result<(), NoMemory>
        ensures { OnOk result (shape I.projections self.new ≡ with_binding (Some ty) (shape I.projections self.old)) }
    {
        let count = self.locals.len();
        if count >= u32::MAX as u64 {
            return Err(NoMemory);
        }
        self.locals.push(Local { ty })?;
        self.bindings.push(Some(LocalId(count as u32)))?;
        Ok(())
    }

    /// Adds a binding that has no local.
    #[tactic(auto, unfolding(crate::specs::Graph::with_binding))]
    pub fn push_unbound(&mut self) -> Result<(), NoMemory>
        ensures { OnOk result (shape I.projections self.new ≡ with_binding None (shape I.projections self.old)) }
    {
        self.bindings.push(None)?;
        Ok(())
    }

    /// Adds a statement to the open block, behind those that it has. The open block has to be one of the graph's.
    #[tactic(auto, unfolding(crate::specs::Graph::with_statement))]
    pub fn push_statement(&mut self, statement: Statement) -> Result<(), NoMemory>
        requires { self.old.current.0 < length self.old.blocks.items }
        ensures { OnOk result (shape I.projections self.new ≡ with_statement statement (shape I.projections self.old)) }
    {
        let block = &mut self.blocks[self.current.0 as usize];
        block.statements.push(statement)?;
        Ok(())
    }

    /// Ends the open block by a terminator. The open block has to be one of the graph's, and it stays open.
    #[tactic(auto, unfolding(crate::specs::Graph::with_terminator))]
    pub fn set_terminator(&mut self, terminator: Terminator)
        requires { self.old.current.0 < length self.old.blocks.items }
        ensures { shape I.projections self.new ≡ with_terminator terminator (shape I.projections self.old) }
    {
        let block = &mut self.blocks[self.current.0 as usize];
        block.terminator = Some(terminator);
    }

    /// Adds a block and opens it. A block that would be the 2^32nd has no id: `NoMemory`.
    #[tactic(auto, unfolding(crate::specs::Graph::with_block))]
    pub fn open_block(&mut self, alloc: Global) -> Result<(), NoMemory>
        ensures { OnOk result (shape I.projections self.new ≡ with_block (shape I.projections self.old)) }
    {
        let count = self.blocks.len();
        if count >= u32::MAX as usize {
            return Err(NoMemory);
        }
        self.blocks.push(empty_block(alloc))?;
        self.current = BasicBlockId(count as u32);
        Ok(())
    }

    /// Adds a block, and leaves the open one open. A block that would be the 2^32nd has no id: `NoMemory`.
    #[tactic(auto, unfolding(crate::specs::Graph::with_reserved))]
    pub fn reserve_block(&mut self, alloc: Global) -> Result<BasicBlockId, NoMemory>
        ensures id { IfOk result (λ block. block.0 ≡ length (shape I.projections self.old).blocks) }
        ensures added { OnOk result (shape I.projections self.new ≡ with_reserved (shape I.projections self.old)) }
    {
        let count = self.blocks.len();
        if count >= u32::MAX as usize {
            return Err(NoMemory);
        }
        self.blocks.push(empty_block(alloc))?;
        Ok(BasicBlockId(count as u32))
    }

    /// Opens a block that was reserved.
    #[tactic(auto, unfolding(crate::specs::Graph::with_entered))]
    pub fn enter_block(&mut self, block: BasicBlockId)
        ensures { shape I.projections self.new ≡ with_entered block.0 (shape I.projections self.old) }
    {
        self.current = block;
    }

    /// A new local for an expression that has none yet. A local that would be the 2^32nd has no id: `NoMemory`.
    #[tactic(auto, unfolding(crate::specs::Graph::with_temp))]
    fn new_temp(&mut self, node: ExprId, ty: Ty) -> Result<LocalId, NoMemory>
        requires { node.0 < length self.old.temps.items }
        ensures local { IfOk result (λ local. local.0 ≡ length self.old.locals) }
        ensures added { OnOk result (shape I.projections self.new ≡ with_temp node.0 ty (shape I.projections self.old)) }
    {
        let count = self.locals.len();
        if count >= u32::MAX as u64 {
            return Err(NoMemory);
        }
        let local = LocalId(count as u32);
        self.locals.push(Local { ty })?;
        let temps = &mut self.temps[node.0 as usize];
        temps.value = Some(local);
        Ok(local)
    }

    /// A new local for the `!` of an expression that has none yet. A local that would be the 2^32nd has no id: `NoMemory`.
    #[tactic(auto, unfolding(crate::specs::Graph::with_never))]
    fn new_never(&mut self, node: ExprId, ty: Ty) -> Result<LocalId, NoMemory>
        requires { node.0 < length self.old.temps.items }
        ensures local { IfOk result (λ local. local.0 ≡ length self.old.locals) }
        ensures added { OnOk result (shape I.projections self.new ≡ with_never node.0 ty (shape I.projections self.old)) }
    {
        let count = self.locals.len();
        if count >= u32::MAX as u64 {
            return Err(NoMemory);
        }
        let local = LocalId(count as u32);
        self.locals.push(Local { ty })?;
        let temps = &mut self.temps[node.0 as usize];
        temps.never = Some(local);
        Ok(local)
    }

    /// A new local for the index of an index expression that has none yet. A local that would be the 2^32nd has no id: `NoMemory`.
    #[tactic(auto, unfolding(crate::specs::Graph::with_index))]
    fn new_index(&mut self, node: ExprId, ty: Ty) -> Result<LocalId, NoMemory>
        requires { node.0 < length self.old.temps.items }
        ensures local { IfOk result (λ local. local.0 ≡ length self.old.locals) }
        ensures added { OnOk result (shape I.projections self.new ≡ with_index node.0 ty (shape I.projections self.old)) }
    {
        let count = self.locals.len();
        if count >= u32::MAX as u64 {
            return Err(NoMemory);
        }
        let local = LocalId(count as u32);
        self.locals.push(Local { ty })?;
        let temps = &mut self.temps[node.0 as usize];
        temps.index = Some(local);
        Ok(local)
    }

    /// Marks a local as in use in the innermost open scope.
    pub fn mark(&mut self, held: Held, local: LocalId) -> Result<(), NoMemory>
        ensures marked { OnOk result (shape I.projections self.new ≡ with_mark (cell_of held) (shape I.projections self.old)) }
        ensures local { OnOk result (self.new.scope.items ≡ self.old.scope.items ++ record { held = held; local = local } ∷ []) }
    {
        self.scope.push(Marked { held, local })?;
        Ok(())
    }

    /// The local of an expression's value, marked as in use in the innermost open scope: the one that it has, or else a new one of a
    /// type. The expression has to be one of the body's. A local that would be the 2^32nd has no id: `NoMemory`.
    #[tactic(auto, unfolding(crate::specs::Graph::temp_of))]
    pub fn temp_for(&mut self, node: ExprId, ty: Ty) -> Result<LocalId, NoMemory>
        requires { node.0 < length self.old.temps.items }
        ensures old { IfOk result (λ local. (l : ℕ) → temp_of (shape I.projections self.old) node.0 ≡ Some l
            → (local.0 ≡ l) × (shape I.projections self.new ≡ with_mark (Node node.0) (shape I.projections self.old))) }
        ensures new { IfOk result (λ local. temp_of (shape I.projections self.old) node.0 ≡ None
            → (local.0 ≡ length self.old.locals) × (shape I.projections self.new ≡ with_mark (Node node.0) (with_temp node.0 ty (shape I.projections self.old)))) }
    {
        let local = match self.temps[node.0 as usize].value {
            Some(local) => local,
            None => self.new_temp(node, ty)?,
        };
        self.mark(Held::Expr(node), local)?;
        Ok(local)
    }

    /// The local of an expression's `!`, marked as in use in the innermost open scope: the one that it has, or else a new one of a
    /// type. The expression has to be one of the body's. A local that would be the 2^32nd has no id: `NoMemory`.
    #[tactic(auto, unfolding(crate::specs::Graph::never_of))]
    pub fn never_for(&mut self, node: ExprId, ty: Ty) -> Result<LocalId, NoMemory>
        requires { node.0 < length self.old.temps.items }
        ensures old { IfOk result (λ local. (l : ℕ) → never_of (shape I.projections self.old) node.0 ≡ Some l
            → (local.0 ≡ l) × (shape I.projections self.new ≡ with_mark (Never node.0) (shape I.projections self.old))) }
        ensures new { IfOk result (λ local. never_of (shape I.projections self.old) node.0 ≡ None
            → (local.0 ≡ length self.old.locals) × (shape I.projections self.new ≡ with_mark (Never node.0) (with_never node.0 ty (shape I.projections self.old)))) }
    {
        let local = match self.temps[node.0 as usize].never {
            Some(local) => local,
            None => self.new_never(node, ty)?,
        };
        self.mark(Held::Never(node), local)?;
        Ok(local)
    }

    /// The local of an index expression's index, marked as in use in the innermost open scope: the one that it has, or else a new one of a
    /// type. The expression has to be one of the body's. A local that would be the 2^32nd has no id: `NoMemory`.
    #[tactic(auto, unfolding(crate::specs::Graph::index_local))]
    pub fn index_for(&mut self, node: ExprId, ty: Ty) -> Result<LocalId, NoMemory>
        requires { node.0 < length self.old.temps.items }
        ensures old { IfOk result (λ local. (l : ℕ) → index_local (shape I.projections self.old) node.0 ≡ Some l
            → (local.0 ≡ l) × (shape I.projections self.new ≡ with_mark (IndexOf node.0) (shape I.projections self.old))) }
        ensures new { IfOk result (λ local. index_local (shape I.projections self.old) node.0 ≡ None
            → (local.0 ≡ length self.old.locals) × (shape I.projections self.new ≡ with_mark (IndexOf node.0) (with_index node.0 ty (shape I.projections self.old)))) }
    {
        let local = match self.temps[node.0 as usize].index {
            Some(local) => local,
            None => self.new_index(node, ty)?,
        };
        self.mark(Held::Index(node), local)?;
        Ok(local)
    }

    /// The local of a binding, where it has one: none where a closure owns it, and none where the graph has no such binding.
    #[tactic(auto, unfolding(crate::specs::Graph::binding_local))]
    pub fn binding_local(&self, binding: BindingId) -> Option<LocalId>
        ensures { option_map (λ local. local.0) result ≡ binding_local (shape I.projections self.now) binding.0 }
    {
        match self.bindings.get(binding.0 as usize) {
            Some(local) => *local,
            None => None,
        }
    }

    /// Opens a scope inside the open ones. It changes nothing and takes no memory.
    pub fn push_drop_scope(&self) -> DropScopeToken
        ensures { result.0 ≡ length (shape I.projections self.now).scope }
    {
        DropScopeToken(self.scope.len())
    }

    /// Takes back the last mark of a scope and of those inside it, where one is left. It takes no memory.
    pub fn pop_mark(&mut self, token: DropScopeToken) -> Option<Marked>
        ensures last { IfSome result (λ marked. shape I.projections self.old ≡ with_mark (cell_of marked.held) (shape I.projections self.new)) }
        ensures local { IfSome result (λ marked. self.old.scope.items ≡ self.new.scope.items ++ marked ∷ []) }
        ensures within { IfSome result (λ marked. token.0 ≤ length (shape I.projections self.new).scope) }
        ensures same { IfNone result (shape I.projections self.new ≡ shape I.projections self.old) }
        ensures none { IfNone result (length (shape I.projections self.old).scope ≤ token.0) }
    {
        if self.scope.len() > token.0 {
            self.scope.pop()
        } else {
            None
        }
    }

    /// Enters a loop or a labelled block.
    pub fn push_loop(&mut self, blocks: LoopBlocks) -> Result<(), NoMemory>
        ensures { OnOk result (shape I.projections self.new ≡ with_targets (target_of_blocks blocks ∷ (shape I.projections self.old).targets) (shape I.projections self.old)) }
    {
        self.loops.push(blocks)?;
        Ok(())
    }

    /// Leaves the innermost loop or labelled block. It takes no memory.
    pub fn pop_loop(&mut self)
        ensures rest { shape I.projections self.new ≡ with_targets (shape I.projections self.new).targets (shape I.projections self.old) }
        ensures outer { (first : OpenTarget) (outer : List OpenTarget) → (shape I.projections self.old).targets ≡ first ∷ outer → shape I.projections self.new ≡ with_targets outer (shape I.projections self.old) }
        ensures none { (shape I.projections self.old).targets ≡ [] → shape I.projections self.new ≡ shape I.projections self.old }
    {
        self.loops.pop();
    }

    /// The innermost loop or labelled block that a jump means: the one with its label, or any where it has none.
    pub fn innermost(&self, label: Option<LabelId>) -> Option<LoopBlocks>
        ensures { option_map target_of_blocks result ≡ meant_target label (shape I.projections self.now).targets }
    {
        let mut left = self.loops.len();
        while left > 0 {
            left -= 1;
            let blocks = self.loops[left];
            if is_meant(label, &blocks) {
                return Some(blocks);
            }
        }
        None
    }

    /// A place within another one, whose projection is one of the graph's: what an element leads to from there. A projection that would
    /// be the 2^32nd has no id: `NoMemory`.
    pub fn project(&mut self, place: Place, elem: PlaceElem) -> Result<Place, NoMemory>
        requires { HasId (I.projections self.old.projections) place.projection }
        ensures { IfOk result (λ made. IsProjected (shape I.projections self.old) (shape I.projections self.new) place elem made) }
    {
        if self.projections.count() >= u32::MAX as u64 {
            return Err(NoMemory);
        }
        let projection = self.projections.project_in(place.projection, elem)?;
        Ok(Place {
            local: place.local,
            projection,
        })
    }
}

impl Graph<ProjectionStore> {
    ghost use Rattle.mir.specs.ProjectionIds.{projections_of};

    /// The body with these blocks, locals and projections; some of the locals are the parameters'. It takes no memory.
    pub fn into_body(self, owner: DefWithBodyId, params: List<LocalId>) -> MirBody
        ensures blocks { result.basic_blocks ≡ (shape projections_of self).blocks }
        ensures locals { result.locals ≡ (shape projections_of self).locals }
        ensures start { result.start_block.0 ≡ 0 }
        ensures owner { result.owner ≡ owner }
        ensures params { result.param_locals ≡ params }
        ensures projections { result.projection_store.projections ≡ (shape projections_of self).projections }
    {
        let Graph {
            blocks,
            locals,
            projections,
            ..
        } = self;
        MirBody {
            basic_blocks: List::from_vec(blocks),
            locals,
            start_block: BasicBlockId(0),
            owner,
            param_locals: params,
            projection_store: projections,
        }
    }
}
