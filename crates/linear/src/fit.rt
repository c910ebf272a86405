//! Tests of what [`apply`](crate::apply) requires of a node and of rows, for a caller without a
//! plan.
ghost use Rattle.std.specs.Prelude.{◌≡◌};
ghost use Rattle.plan.specs.Rules.{is_width};
ghost use Rattle.linear.specs.Widths.{takes_items, takes_width, takes_rows};

use lattice::Lattice;
use plan::Node;
use row::{Item, MAX_WIDTH, are_within};
use update::Update;

/// Whether each row has the columns that the node names, and the node makes a row of it. Takes no
/// memory.
///
/// Cost: linear in the number of updates; for a map, times the number of its items.
pub fn takes_rows<T: Lattice>(node: &Node, updates: &[Update<T>]) -> bool
    ensures { result ≡ takes_rows node.now updates.now }
{
    updates
        .iter()
        .all(|update| takes_width(node, update.row.width()))
}

// Whether the node takes rows of this width.
fn takes_width(node: &Node, columns: usize) -> bool
    ensures { result ≡ takes_width node.now columns }
{
    match node {
        Node::Map { items, .. } => takes_items(items.as_slice(), columns),
        Node::Filter { test, .. } => test.is_within(columns),
        _ => true,
    }
}

// Whether rows of this width have the columns that the items name, and the items make a row.
fn takes_items(items: &[Item], columns: usize) -> bool
    ensures { result ≡ takes_items items.now columns }
{
    is_width(items.len()) && are_within(items, columns)
}

// Whether a row can have this many columns.
fn is_width(columns: usize) -> bool
    ensures { result ≡ is_width columns }
{
    1 <= columns && columns <= MAX_WIDTH
}
