//! A script that was read: a plan, a name for each of its nodes, and the commands in the order of
//! their lines. The invariant saves a reader of the commands from testing them: each command names
//! an input of the plan, or a view if it asks about one.
ghost use Rattle.std.specs.Prelude.{◌≡◌, ◌<◌, length};
ghost use Rattle.std.specs.List.{All};
ghost use Rattle.grammar.specs.Commands.{IsAbout};
ghost use Rattle.grammar.specs.ParseStates.{parse_state};
ghost use Rattle.grammar.specs.Scripts.{model_of};
ghost use Rattle.grammar.specs.ScriptModels.{IsWhole, name_at, view_named};

use crate::command::CommandLine;
use crate::draft::{Draft, is_view, place};
use indexmap::IndexSet;
use plan::{NodeId, Plan};
use std::marker::Model;

/// A script. A contract sees its names, its plan and its commands.
#[derive(Drop)]
pub struct Script {
    names: IndexSet<String>,
    plan: Plan,
    commands: Vec<CommandLine>,
}

impl Model for Script {
    ghost use Rattle.std.specs.Prelude.{map, string_bytes};
    ghost use Rattle.grammar.specs.ScriptModels.{ScriptModel, IsWhole};

    ghost Value = { ScriptModel };

    ghost view = { λ s. record {
      names = map string_bytes s.names.keys;
      plan = s.plan;
      commands = s.commands.items;
    } };

    ghost invariant = { λ s. IsWhole (record {
      names = map string_bytes s.names.keys;
      plan = s.plan;
      commands = s.commands.items;
    }) };
}

impl Script {
    // The finished draft as a script.
    pub(crate) fn of(draft: Draft) -> Script
        requires { IsWhole (model_of (parse_state draft)) }
        ensures { result ≡ model_of (parse_state draft) }
    {
        let Draft {
            names,
            plan,
            started: _,
            commands,
        } = draft;
        Script {
            names,
            plan,
            commands,
        }
    }

    /// The number of nodes, inputs and views included. Takes no memory.
    pub fn nodes(&self) -> u64
        ensures { result ≡ length self.now.plan }
    {
        self.plan.len() as u64
    }

    /// The number of commands, which are the lines after `start` that are not skipped. Takes no
    /// memory.
    pub fn commands(&self) -> u64
        ensures { result ≡ length self.now.commands }
    {
        self.commands.len() as u64
    }

    /// The plan, with the nodes in the order of their lines. Takes no memory.
    pub fn plan(&self) -> &Plan
        ensures plan { result.now ≡ self.now.plan }
    {
        &self.plan
    }

    /// The name of a node. Takes no memory.
    pub fn name(&self, id: NodeId) -> &str
        requires { id < length self.now.plan }
        ensures { result.now ≡ name_at self.now.names id }
    {
        self.names.get_index(id.number()).unwrap().as_str()
    }

    /// The view with this name. Takes no memory.
    ///
    /// Cost: one look into a hash table.
    #[tactic(auto, unfolding(crate::specs::ScriptModels::view_named))]
    pub fn view(&self, name: &str) -> Option<NodeId>
        ensures { result ≡ view_named self.now name.now }
    {
        match place(&self.names, name).map(NodeId::new) {
            Some(id) if is_view(&self.plan, id) => Some(id),
            _ => None,
        }
    }

    /// The commands in the order of their lines. Each is about an input of the plan, or about a
    /// view if it is a question. Takes no memory.
    pub fn command_lines(&self) -> &[CommandLine]
        ensures lines { result.now ≡ self.now.commands }
        ensures about { All (λ line. IsAbout self.now.plan line.command) self.now.commands }
    {
        self.commands.as_slice()
    }
}
