//! Short helpers for the nodes, plans and changes that tests make. Sources are plain numbers here,
//! and a time is a pair of numbers.
ghost use Rattle.std.specs.Prelude.{◌≡◌, ◌∷◌, [], map, IfOk};
ghost use Rattle.lattice.specs.Pairs.{make_pair};
ghost use Rattle.plan.specs.declared.node.Node.TheVariants.{Arrange, Concat, Filter, Input, Join, Map, Negate, Output, Reduce};

use crate::times;
use lattice::Bitime;
use plan::{Items, Kind, Node, NodeId, Plan, PlanBuilder};
use row::{Cmp, Item, Row, Test};
use std::alloc::{AllocError, Global};
use update::{Refusal, Update};

/// The time of this pair: its valid time, then its system time.
pub fn at(time: (u64, u64)) -> Bitime
    ensures { result ≡ make_pair time.0 time.1 }
{
    times::at(time.0, time.1)
}

/// An input of rows of this width.
pub fn input(width: usize) -> Node
    ensures { result ≡ Input width }
{
    Node::Input { width }
}

/// A map to the row of these items. The node has a copy of them.
pub fn map(alloc: Global, source: usize, items: &[Item]) -> Result<Node, AllocError>
    ensures { IfOk result (λ node. node ≡ Map source items.now) }
{
    let mut copy = Vec::with_capacity(alloc, items.len())?;
    for item in items {
        copy.push(*item)?;
    }
    Ok(Node::Map {
        source: NodeId::new(source),
        items: Items::from(copy),
    })
}

/// A filter: it keeps the rows for which the comparison holds.
pub fn filter(source: usize, left: Item, op: Cmp, right: Item) -> Node
    ensures { result ≡ Filter source (record { left = left; op = op; right = right }) }
{
    Node::Filter {
        source: NodeId::new(source),
        test: Test { left, op, right },
    }
}

/// A concat of two nodes.
pub fn concat(left: usize, right: usize) -> Node
    ensures { result ≡ Concat left right }
{
    Node::Concat {
        left: NodeId::new(left),
        right: NodeId::new(right),
    }
}

/// A negated node.
pub fn negate(source: usize) -> Node
    ensures { result ≡ Negate source }
{
    Node::Negate {
        source: NodeId::new(source),
    }
}

/// A node that is arranged by its first `key` columns.
pub fn arrange(source: usize, key: usize) -> Node
    ensures { result ≡ Arrange source key }
{
    Node::Arrange {
        source: NodeId::new(source),
        key,
    }
}

/// A join of two arranged nodes.
pub fn join(left: usize, right: usize) -> Node
    ensures { result ≡ Join left right }
{
    Node::Join {
        left: NodeId::new(left),
        right: NodeId::new(right),
    }
}

/// A reduction of an arranged node.
pub fn reduce(kind: Kind, source: usize) -> Node
    ensures { result ≡ Reduce kind source }
{
    Node::Reduce {
        kind,
        source: NodeId::new(source),
    }
}

/// A view of a node.
pub fn view(source: usize) -> Node
    ensures { result ≡ Output source }
{
    Node::Output {
        source: NodeId::new(source),
    }
}

/// The plan of these nodes, or the first refusal of one of them. Cost: a copy of each node.
pub fn built(alloc: Global, nodes: &[Node]) -> Result<Plan, Refusal>
    ensures { IfOk result (λ plan. plan ≡ nodes.now) }
{
    let mut builder = PlanBuilder::new(alloc);
    for node in nodes {
        builder.add(node.clone()?)?;
    }
    Ok(builder.finish())
}

/// The plan of an input of this width, arranged by its first column, a reduction of it, and a view.
pub fn reduction(alloc: Global, width: usize, kind: Kind) -> Result<Plan, Refusal>
    ensures { IfOk result (λ plan. plan
        ≡ Input width ∷ Arrange 0 1 ∷ Reduce kind 1 ∷ Output 2 ∷ []) }
{
    built(
        alloc,
        &[input(width), arrange(0, 1), reduce(kind, 1), view(2)],
    )
}

/// The plan of two inputs of this width, their join by the first column, and a view.
pub fn join_of_two(alloc: Global, width: usize) -> Result<Plan, Refusal>
    ensures { IfOk result (λ plan. plan ≡ Input width ∷ Input width ∷ Arrange 0 1 ∷ Arrange 1 1
        ∷ Join 2 3 ∷ Output 4 ∷ []) }
{
    built(
        alloc,
        &[
            input(width),
            input(width),
            arrange(0, 1),
            arrange(1, 1),
            join(2, 3),
            view(4),
        ],
    )
}

/// A change: its time, its row and its diff.
pub type Change = ((u64, u64), &'static [i64], i64);

/// A list of updates, each from its time, row and diff. Refused if a row does not have 1 to 8
/// columns, or if memory is.
pub fn list(
    alloc: Global,
    changes: &[((u64, u64), &[i64], i64)],
) -> Result<Vec<Update<Bitime>>, Refusal>
    ensures { IfOk result (λ list. list.items ≡ map (λ c. record {
      time = make_pair c.0.0 c.0.1;
      row = c.1.now;
      diff = c.2;
    }) changes.now) }
{
    let mut list = Vec::new(alloc);
    for (time, columns, diff) in changes {
        list.push(Update {
            time: at(*time),
            row: Row::new(alloc, columns)?,
            diff: *diff,
        })?;
    }
    Ok(list)
}
