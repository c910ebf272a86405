//! What the commands of a script do with its inputs and views.
use grammar::{Command, InputCommand, Script, ViewCommand};
use lattice::Bitime;
use plan::NodeId;
use std::alloc::{AllocError, Global};
use update::Times;

/// What some commands do with a node.
#[derive(Clone, Copy)]
pub(crate) struct Use {
    /// It is a view, and a line asks about it.
    pub(crate) is_asked: bool,
    /// It is a view, and a line reads it.
    pub(crate) is_read: bool,
    /// It is an input, and a line closes it, or advances it past its first time.
    pub(crate) is_moved: bool,
}

// No command does anything with the node.
const NO_USE: Use = Use {
    is_asked: false,
    is_read: false,
    is_moved: false,
};

/// For each node what no command does with it: a list to begin with.
pub(crate) fn no_uses(alloc: Global, script: &Script) -> Result<Vec<Use>, AllocError> {
    let mut uses = Vec::new(alloc);
    for _ in 0..script.nodes() {
        uses.push(NO_USE)?;
    }
    Ok(uses)
}

/// What all commands of the script do with each node.
pub(crate) fn uses_of(alloc: Global, script: &Script) -> Result<Vec<Use>, AllocError> {
    let mut uses = no_uses(alloc, script)?;
    for line in script.command_lines() {
        note(&mut uses, &line.command);
    }
    Ok(uses)
}

/// Adds what the command does.
pub(crate) fn note(uses: &mut Vec<Use>, command: &Command) {
    let of = use_of(uses, command);
    if let Some(place) = uses.get_mut(node_of(command).number()) {
        *place = of;
    }
}

/// What is done with the node.
pub(crate) fn use_at(uses: &Vec<Use>, node: NodeId) -> Use {
    match uses.get(node.number()) {
        Some(of) => *of,
        None => NO_USE,
    }
}

// What is done with the command's node, the command included.
fn use_of(uses: &Vec<Use>, command: &Command) -> Use {
    let mut of = use_at(uses, node_of(command));
    match command {
        Command::Input(InputCommand::Close { .. }) => of.is_moved = true,
        Command::Input(InputCommand::Advance { times, .. }) => {
            of.is_moved = of.is_moved || moves(times);
        }
        Command::View(ViewCommand::Read { .. }) => {
            of.is_asked = true;
            of.is_read = true;
        }
        Command::View(_) => of.is_asked = true,
        _ => (),
    }
    of
}

/// The input or the view of the command.
fn node_of(command: &Command) -> NodeId {
    match command {
        Command::Input(InputCommand::Change { input, .. }) => *input,
        Command::Input(InputCommand::Advance { input, .. }) => *input,
        Command::Input(InputCommand::Close { input }) => *input,
        Command::Allow { view, .. } => *view,
        Command::View(ViewCommand::Read { view, .. }) => *view,
        Command::View(ViewCommand::Changes { view }) => *view,
        Command::View(ViewCommand::Frontier { view }) => *view,
    }
}

// Whether an input that advances to these times passes any time.
fn moves(times: &Times<Bitime>) -> bool {
    times
        .as_slice()
        .iter()
        .all(|time| time.first != 0 || time.second != 0)
}
