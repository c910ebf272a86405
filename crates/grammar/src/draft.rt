//! A script that is being read: what its lines so far have said. Each node has exactly one name.
//! Names and nodes are kept in the order of the lines, so the index of a name is the number of its
//! node.
ghost use Rattle.std.specs.Prelude.{◌≡◌, None, IfOk, map, position, string_bytes};
ghost use Rattle.std.specs.Str.{bytes_eq};
ghost use Rattle.plan.specs.Rules.{is_readable};
ghost use Rattle.update.specs.declared.refusal.Refusal.TheVariants.{UnknownName};
ghost use Rattle.grammar.specs.Commands.{is_input_of, is_view_of};
ghost use Rattle.grammar.specs.ParseStates.{parse_state, number_of_name, source, input, view, new_name, plan_with};
ghost use Rattle.grammar.specs.Declarations.{with_node};
ghost use Rattle.grammar.specs.Outcomes.{Gives};
ghost use Rattle.grammar.specs.Scripts.{first_parse_state};

use crate::command::CommandLine;
use crate::fault::LineError;
use crate::names::is_name;
use indexmap::IndexSet;
use plan::{Node, NodeId, Plan, PlanBuilder};
use std::alloc::Global;
use std::mem;
use update::Refusal;

#[derive(Drop)]
pub(crate) struct Draft {
    pub(crate) names: IndexSet<String>,
    pub(crate) plan: Plan,
    pub(crate) started: bool,
    pub(crate) commands: Vec<CommandLine>,
}

// The refusal of a name that does not exist, or that names a node of another kind.
fn unknown() -> LineError
    ensures { result ≡ LineError.Refused UnknownName }
{
    LineError::Refused(Refusal::UnknownName)
}

// The place of a name among the names. As each node has one name, it is the number of the node.
pub(crate) fn place(names: &IndexSet<String>, word: &str) -> Option<usize>
    ensures { result ≡ position (bytes_eq word.now) (map string_bytes names.now.keys) }
{
    names.get_index_of(word)
}

// Whether the node is a view.
pub(crate) fn is_view(plan: &Plan, id: NodeId) -> bool
    ensures { result ≡ is_view_of plan.now id }
{
    id.number() < plan.len() && plan.node(id).is_output()
}

impl Draft {
    pub(crate) fn new(alloc: Global) -> Draft
        ensures { parse_state result ≡ first_parse_state }
    {
        Draft {
            names: IndexSet::new(alloc),
            plan: PlanBuilder::new(alloc).finish(),
            started: false,
            commands: Vec::new(alloc),
        }
    }

    fn is_input(&self, id: NodeId) -> bool
        ensures { result ≡ is_input_of self.now.plan id }
    {
        id.number() < self.plan.len() && self.plan.node(id).is_input()
    }

    // The node with this name, if other nodes may read it.
    #[tactic(auto, unfolding(crate::specs::ParseStates::source))]
    pub(crate) fn source(&self, word: &str) -> Result<NodeId, LineError>
        ensures { Gives (λ id. id) result (source (parse_state self.now) word.now) }
    {
        match place(&self.names, word).map(NodeId::new) {
            Some(id) if self.plan.is_readable(id) => Ok(id),
            _ => Err(unknown()),
        }
    }

    // The input with this name.
    #[tactic(auto, unfolding(crate::specs::ParseStates::input))]
    pub(crate) fn input(&self, word: &str) -> Result<NodeId, LineError>
        ensures { Gives (λ id. id) result (input (parse_state self.now) word.now) }
    {
        match place(&self.names, word).map(NodeId::new) {
            Some(id) if self.is_input(id) => Ok(id),
            _ => Err(unknown()),
        }
    }

    // The view with this name.
    #[tactic(auto, unfolding(crate::specs::ParseStates::view))]
    pub(crate) fn view(&self, word: &str) -> Result<NodeId, LineError>
        ensures { Gives (λ id. id) result (view (parse_state self.now) word.now) }
    {
        match place(&self.names, word).map(NodeId::new) {
            Some(id) if is_view(&self.plan, id) => Ok(id),
            _ => Err(unknown()),
        }
    }

    // The word as a new name: it has the form of a name, and no node has it yet.
    #[tactic(auto, unfolding(crate::specs::ParseStates::new_name))]
    pub(crate) fn new_name(&self, alloc: Global, word: &str) -> Result<String, LineError>
        ensures name { Gives (λ name. string_bytes name) result
            (new_name (parse_state self.now) word.now) }
        ensures free { IfOk result
            (λ name. number_of_name (parse_state self.now) (string_bytes name) ≡ None) }
    {
        if !is_name(word) {
            return Err(LineError::Refused(Refusal::BadName));
        }
        if place(&self.names, word).is_some() {
            return Err(LineError::Refused(Refusal::DuplicateName));
        }
        Ok(String::from_str(alloc, word)?)
    }

    // Adds the node under a name that is free.
    #[tactic(auto, unfolding(crate::specs::Declarations::with_node))]
    pub(crate) fn add(&mut self, alloc: Global, name: String, node: Node) -> Result<(), LineError>
        requires { number_of_name (parse_state self.old) (string_bytes name) ≡ None }
        ensures { Gives (λ _. parse_state self.new) result
            (with_node (parse_state self.old) (string_bytes name) node) }
    {
        push_node(alloc, &mut self.plan, node)?;
        self.names.insert(name)?;
        Ok(())
    }
}

// Adds the node to the plan. Plans grow through a builder. Turning a plan into a builder and back
// costs nothing.
fn push_node(alloc: Global, plan: &mut Plan, node: Node) -> Result<(), LineError>
    ensures { Gives (λ _. plan.new) result (plan_with plan.old node) }
{
    let nodes = mem::replace(plan, PlanBuilder::new(alloc).finish());
    let mut builder = PlanBuilder::from(nodes);
    let added = builder.add(node);
    *plan = builder.finish();
    match added {
        Ok(_) => Ok(()),
        Err(refusal) => Err(LineError::of(refusal)),
    }
}
