//! What the names of a file stand for.
ghost use Rattle.std.specs.Prelude.{◌<◌, length, IfSome};

use grammar::Reader;
use plan::NodeId;

/// What a name stands for.
#[derive(Clone, Copy, PartialEq, Eq)]
pub(crate) enum NameSort {
    Input,
    Node,
    View,
}

impl NameSort {
    /// The sort with its article.
    pub(crate) fn text(self) -> &'static str {
        match self {
            NameSort::Input => "an input",
            NameSort::Node => "a node",
            NameSort::View => "a view",
        }
    }
}

/// The node with this name.
pub(crate) fn node_named(reader: &Reader, name: &str) -> Option<NodeId>
    ensures { IfSome result (λ id. id < length reader.now.plan) }
{
    match reader.find(name) {
        Some(id) if id.number() < reader.plan().len() => Some(id),
        _ => None,
    }
}

/// What the name stands for, if it stands for anything.
pub(crate) fn sort_of(reader: &Reader, name: &str) -> Option<NameSort> {
    let id = node_named(reader, name)?;
    let node = reader.plan().node(id);
    if node.is_input() {
        Some(NameSort::Input)
    } else if node.is_output() {
        Some(NameSort::View)
    } else {
        Some(NameSort::Node)
    }
}

/// How many columns the rows of an input or a node have; `None` if the name stands for neither.
pub(crate) fn width_of(reader: &Reader, name: &str) -> Option<usize> {
    let id = node_named(reader, name)?;
    Some(reader.plan().width(id))
}

/// By how many columns the node is arranged; `None` if it is not arranged.
pub(crate) fn key_of(reader: &Reader, name: &str) -> Option<usize> {
    let id = node_named(reader, name)?;
    reader.plan().node(id).arranged_by()
}

/// The name that differs from this one only in small and large letters.
pub(crate) fn same_letters<'r>(reader: &'r Reader, name: &str) -> Option<&'r str> {
    for number in 0..reader.names() {
        let other = reader.name(number);
        if other.eq_ignore_ascii_case(name) {
            return Some(other);
        }
    }
    None
}
