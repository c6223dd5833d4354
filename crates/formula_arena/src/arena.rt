//! Formulas put into the list of their nodes, and nodes and propositions looked up there.

ghost use Rattle.std.specs.Prelude.{◌≡◌, ◌<◌, ◌≤◌, ◌+◌, [], ◌∷◌, ◌++◌, drop, length, slice_get, Contains, false, IfOk, OnOk, OnErr, IfSome, IfNone, IsOk, Some, Err};
ghost use Rattle.mt_model.specs.Form.{Prop, form_of};
ghost use Rattle.formula_arena.specs.Cores.{core_of};
ghost use Rattle.indexmap.specs.IndexMap.{keys};
ghost use Rattle.indexmap.specs.IndexSet.{spare};
ghost use Rattle.formula_arena.specs.Nodes.{Extends, has_form, IsArena, IsAt, nodes_of, propositions_in, tree_at, with_nodes_of};
ghost use Rattle.formula_arena.specs.Shapes.{IsNode};
ghost use Rattle.formula_arena.specs.Table.{IsOver, tree_of_proposition, tree_over};
ghost use Rattle.formula_arena.specs.Growth.{IsGrown, with_subtrees, with_tree};
ghost use Rattle.formula_arena.specs.Walks.{AreHeld, IsMade, IsTaskTaken, Join, Negation, operands, step_in, tree_by, waiting_in};

use crate::ArenaFault;
use crate::node::{Core, Operator, Proposition};
use crate::walk::{Task, let_wait, pop_waiting, push_tasks};
use indexmap::{IndexMap, IndexSet};
use mt_model::{Formula, Name, NodeId, PropId, Tree};
use std::alloc::{AllocError, Global};
use std::marker::Model;

/// The most nodes of an arena.
pub const MAX_NODES: u32 = 512;

/// The nodes of formulas of metric temporal logic: each distinct subtree of a formula's core once, after
/// its children. Contracts see an arena as the list of its trees, where node k has tree k.
///
/// The core of a formula says the same in `true`, propositions, not, and, until and since alone. Look-ups
/// hash without random state, which the limit on nodes makes harmless.
#[derive(Drop)]
pub struct Arena {
    alloc: Global,
    nodes: IndexSet<Core>,
    // The propositions in the order of their nodes, each with its node.
    props: IndexMap<Proposition, NodeId>,
}

impl Model for Arena {
    ghost use Rattle.std.specs.Prelude.{List};
    ghost use Rattle.std.specs.Coded.{codes, coded_list};
    ghost use Rattle.mt_model.specs.Form.{Form};
    ghost use Rattle.formula_arena.specs.CodedForms.{coded_form};
    ghost use Rattle.indexmap.specs.IndexMap.{keys};
    ghost use Rattle.formula_arena.specs.Table.{trees_of, IsTable};

    ghost Value = { List Form };

    ghost coded = { coded_list (coded_form (Prim.hlevel codes)) };

    ghost view = { λ a. trees_of (keys a.props) a.nodes.keys };

    ghost invariant = { λ a. IsTable a.props.entries a.nodes.keys };
}

impl Arena {
    /// An arena without nodes. Takes no memory.
    pub fn new(alloc: Global) -> Arena
        ensures empty { result ≡ [] }
    {
        Arena {
            alloc,
            nodes: IndexSet::new(alloc),
            props: IndexMap::new(alloc),
        }
    }

    /// The number of its nodes. Takes no memory.
    pub fn len(&self) -> u32
        ensures nodes { result ≡ length self.now }
        ensures arena { IsArena self.now }
    {
        self.nodes.len() as u32
    }

    /// The number of its distinct propositions. Takes no memory.
    pub fn props(&self) -> u32
        ensures props { result ≡ length (propositions_in self.now) }
    {
        self.props.len() as u32
    }

    /// A node. Takes no memory.
    pub fn node(&self, id: NodeId) -> Core
        requires { id < length self.now }
        ensures node { IsNode self.now id result }
    {
        let nodes = self.nodes.as_slice();
        nodes[id.get() as usize]
    }

    /// The host and the name of a proposition. Propositions are numbered in the order of their nodes.
    /// Takes no memory.
    pub fn prop(&self, id: PropId) -> (&Name, &Name)
        requires { id < length (propositions_in self.now) }
        ensures prop { tree_at (propositions_in self.now) id ≡ Prop result.0.now result.1.now }
    {
        let (prop, _) = self.props.get_index(id.get() as usize).unwrap();
        (&prop.host, &prop.name)
    }

    /// Adds the nodes of a formula that aren't there, in the order of the formula's nodes, and answers
    /// the node of its core. Where more than 512 nodes would be held the answer is `TooManyNodes` or want of
    /// memory, elsewhere never `TooManyNodes`. After a fault the arena holds its old nodes, and perhaps
    /// further ones after them.
    pub fn intern(&mut self, f: &Formula) -> Result<NodeId, ArenaFault>
        ensures node { IfOk result (λ id. IsAt self.new id (core_of (form_of f.now))) }
        ensures nodes { OnOk result (self.new ≡ with_nodes_of self.old (form_of f.now)) }

        // Into an empty arena.
        ensures first { OnOk result (self.old ≡ [] → self.new ≡ nodes_of (form_of f.now)) }
        ensures root { IfOk result (λ id. self.old ≡ [] → id + 1 ≡ length self.new) }

        ensures enough { OnOk result (length (with_nodes_of self.old (form_of f.now)) ≤ MAX_NODES) }
        ensures too_many { result ≡ Err ArenaFault.TooManyNodes
            → MAX_NODES < length (with_nodes_of self.old (form_of f.now)) }
        ensures kept { Extends self.old self.new }
        ensures arena { IsArena self.new }
    {
        let node = self.walk(f.tree());
        // For the proof: the call says how many nodes an arena has at most.
        let _ = self.len();
        node
    }

    // The number of one more node, where there is room for it.
    fn next_id(&self) -> Result<NodeId, ArenaFault>
        ensures room { IfOk result (λ id. (id ≡ length self.now) × (id < MAX_NODES)) }
        ensures full { OnErr result (MAX_NODES ≤ length self.now) }
    {
        if self.len() < MAX_NODES {
            Ok(NodeId::new(self.len()))
        } else {
            Err(ArenaFault::TooManyNodes)
        }
    }

    // The node of an operator over nodes that are there.
    fn add(&mut self, node: Core) -> Result<NodeId, ArenaFault>
        requires { IsOver 0 (length self.old) node }
        ensures { let f = tree_over [] self.old node in IsGrown self.old (with_tree self.old f) f result self.new }
    {
        if let Some(place) = place_of(&self.nodes, &node) {
            return Ok(NodeId::new(place as u32));
        }
        let id = self.next_id()?;
        push_node(&mut self.nodes, node)?;
        Ok(id)
    }

    // The node of a proposition.
    fn add_prop(&mut self, host: &Name, name: &Name) -> Result<NodeId, ArenaFault>
        ensures { let f = Prop host.now name.now in IsGrown self.old (with_tree self.old f) f result self.new }
    {
        let prop = Proposition {
            host: host.copy(self.alloc)?,
            name: name.copy(self.alloc)?,
        };
        match node_of(&self.props, &prop) {
            Some(id) => Ok(id),
            None => self.add_new_prop(prop),
        }
    }

    // The node of a proposition that isn't there.
    fn add_new_prop(&mut self, prop: Proposition) -> Result<NodeId, ArenaFault>
        requires { has_form self.old (tree_of_proposition prop) ≡ false }
        ensures { let f = tree_of_proposition prop in IsGrown self.old (with_tree self.old f) f result self.new }
    {
        let id = self.next_id()?;
        let node = Core::Prop(PropId::new(self.props.len() as u32));
        // So that the node can be added once the proposition is.
        self.nodes.reserve(1)?;
        push_prop(&mut self.props, prop, id)?;
        push_node(&mut self.nodes, node)?;
        Ok(id)
    }

    // The node of a tree's core. Its subtrees are added in the order in which the walk finishes them.
    fn walk(&mut self, tree: &Tree) -> Result<NodeId, ArenaFault>
        ensures { let f = core_of (form_of tree.now) in IsGrown self.old (with_subtrees self.old f) f result self.new }
    {
        let mut tasks = Vec::new(self.alloc);
        let mut waiting = Vec::new(self.alloc);
        self.walk_in(tree, &mut tasks, &mut waiting)
    }

    // The same in two lists, which are empty.
    fn walk_in<'a>(
        &mut self,
        tree: &'a Tree,
        tasks: &mut Vec<Task<'a>>,
        waiting: &mut Vec<NodeId>,
    ) -> Result<NodeId, ArenaFault>
        requires no_task { tasks.old.items ≡ [] }
        requires none_waits { waiting.old.items ≡ [] }
        ensures { let f = core_of (form_of tree.now) in IsGrown self.old (with_subtrees self.old f) f result self.new }
    {
        tasks.extend_from_slice(&[Task::Tree(tree)])?;
        while let Some(task) = tasks.pop() {
            self.take(task, tasks, waiting)?;
        }
        Ok(pop_waiting(waiting))
    }

    // Does the next task.
    fn take<'a>(
        &mut self,
        task: Task<'a>,
        tasks: &mut Vec<Task<'a>>,
        waiting: &mut Vec<NodeId>,
    ) -> Result<(), ArenaFault>
        requires held { AreHeld self.old waiting.old.items }
        requires operands { operands (step_in task) ≤ length waiting.old.items }
        ensures { IsTaskTaken task.entry tasks.old.items self.old waiting.old.items result tasks.new.items self.new waiting.new.items }
    {
        match task {
            Task::Tree(tree) => {
                push_tasks(tasks, tree)?;
                Ok(())
            }
            Task::True => self.make(Core::True, waiting),
            Task::Prop(host, name) => self.make_prop(host, name, waiting),
            Task::Not => self.make_not(waiting),
            Task::Over(operator) => self.make_over(operator, waiting),
        }
    }

    // Adds the node of an operator over nodes that are there, and lets it wait.
    fn make(&mut self, node: Core, waiting: &mut Vec<NodeId>) -> Result<(), ArenaFault>
        requires over { IsOver 0 (length self.old) node }
        requires held { AreHeld self.old waiting.old.items }
        ensures { IsMade self.old (tree_over [] self.old node) (waiting_in self.old waiting.old.items) result self.new waiting.new.items }
    {
        let id = self.add(node)?;
        let_wait(waiting, id)?;
        Ok(())
    }

    // Adds the node of a proposition, and lets it wait.
    fn make_prop(
        &mut self,
        host: &Name,
        name: &Name,
        waiting: &mut Vec<NodeId>,
    ) -> Result<(), ArenaFault>
        requires { AreHeld self.old waiting.old.items }
        ensures { IsMade self.old (Prop host.now name.now) (waiting_in self.old waiting.old.items) result self.new waiting.new.items }
    {
        let id = self.add_prop(host, name)?;
        let_wait(waiting, id)?;
        Ok(())
    }

    // Adds the negation of the last node that waits, and lets it wait in its place.
    fn make_not(&mut self, waiting: &mut Vec<NodeId>) -> Result<(), ArenaFault>
        requires held { AreHeld self.old waiting.old.items }
        requires operand { 0 < length waiting.old.items }
        ensures { let w = waiting_in self.old waiting.old.items in IsMade self.old (tree_by Negation w) (drop 1 w) result self.new waiting.new.items }
    {
        let f = pop_waiting(waiting);
        self.make(Core::Not(f), waiting)
    }

    // Adds an operator over the last two nodes that wait, and lets it wait in their place.
    fn make_over(&mut self, operator: Operator, waiting: &mut Vec<NodeId>) -> Result<(), ArenaFault>
        requires held { AreHeld self.old waiting.old.items }
        requires operands { 1 < length waiting.old.items }
        ensures { let w = waiting_in self.old waiting.old.items in IsMade self.old (tree_by (Join operator) w) (drop 2 w) result self.new waiting.new.items }
    {
        let g = pop_waiting(waiting);
        let f = pop_waiting(waiting);
        self.make(operator.over(f, g), waiting)
    }
}

// The place of a node among the nodes.
fn place_of(nodes: &IndexSet<Core>, node: &Core) -> Option<usize>
    ensures found { IfSome result (λ i. slice_get nodes.now.keys i ≡ Some node.now) }
    ensures absent { IfNone result (Contains nodes.now.keys node.now → ⊥) }
{
    nodes.get_index_of(node)
}

// Adds a node, which isn't among the nodes, at the end.
fn push_node(nodes: &mut IndexSet<Core>, node: Core) -> Result<(), AllocError>
    requires { Contains nodes.old.keys node → ⊥ }
    ensures ok { OnOk result (nodes.new.keys ≡ nodes.old.keys ++ node ∷ []) }
    ensures err { OnErr result (nodes.new.keys ≡ nodes.old.keys) }
    ensures succeeds { 0 < spare nodes.old → IsOk result }
{
    nodes.insert(node)?;
    Ok(())
}

// The node of a proposition.
fn node_of(props: &IndexMap<Proposition, NodeId>, prop: &Proposition) -> Option<NodeId>
    ensures found { IfSome result (λ id. Contains props.now.entries (prop.now, id)) }
    ensures absent { IfNone result (Contains (keys props.now) prop.now → ⊥) }
{
    props.get(prop).copied()
}

// Adds a proposition, which isn't among the propositions, at the end, with its node.
fn push_prop(
    props: &mut IndexMap<Proposition, NodeId>,
    prop: Proposition,
    node: NodeId,
) -> Result<(), AllocError>
    requires { Contains (keys props.old) prop → ⊥ }
    ensures ok { OnOk result (props.new.entries ≡ props.old.entries ++ (prop, node) ∷ []) }
    ensures err { OnErr result (props.new.entries ≡ props.old.entries) }
{
    props.insert(prop, node)?;
    Ok(())
}
