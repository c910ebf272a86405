//! What is found from all that is counted: the least times that count for a frontier, and whether
//! any is at or before a time.
ghost use Rattle.std.specs.Prelude.{◌≡◌, ◌<◌, ◌||◌, OnOk, length};
ghost use Rattle.update.specs.Refusals.{OnlyMemory};
ghost use Rattle.lattice.specs.Frontiers.{is_beyond};
ghost use Rattle.progress.specs.CountLists.{listed};
ghost use Rattle.progress.specs.Tallies.{times_where};
ghost use Rattle.progress.specs.Scopes.{scope_node, is_in_scope};

use crate::counted::Counted;
use crate::elements::insert_time;
use crate::graph::Graph;
use crate::scope::Scope;
use lattice::Lattice;
use std::collections::BTreeMap;
use update::Refusal;

// Inserts the times that count for a frontier.
pub(crate) fn insert_times<T: Lattice>(
    found: &mut Vec<T>,
    graph: &Graph,
    scope: &Scope,
    items: &[Counted<T>],
) -> Result<(), Refusal>
    requires { scope_node scope.now < length graph.now }
    ensures beyond { OnOk result ((t : T) → is_beyond T.times found.new.items t
        ≡ (is_beyond T.times found.old.items t
        || is_beyond T.times (times_where (is_in_scope graph.now scope.now) items.now) t)) }
    ensures refused { OnlyMemory result }
{
    for item in items {
        if scope.counts(graph, &item.place) {
            insert_time(found, item.time)?;
        }
    }
    Ok(())
}

// Whether some time that counts for a frontier is at or before this one. The first such item
// settles it.
pub(crate) fn is_any_in<T: Lattice>(
    graph: &Graph,
    scope: &Scope,
    items: &[Counted<T>],
    t: &T,
) -> bool
    requires { scope_node scope.now < length graph.now }
    ensures { result
        ≡ is_beyond T.times (times_where (is_in_scope graph.now scope.now) items.now) t.now }
{
    for item in items {
        if scope.counts(graph, &item.place) && item.time.less_equal(t) {
            return true;
        }
    }
    false
}

// Inserts all of these times.
pub(crate) fn insert_all<T: Lattice>(found: &mut Vec<T>, times: &[T]) -> Result<(), Refusal>
    ensures beyond { OnOk result ((s : T) → is_beyond T.times found.new.items s
        ≡ (is_beyond T.times found.old.items s || is_beyond T.times times.now s)) }
    ensures refused { OnlyMemory result }
{
    for t in times {
        insert_time(found, *t)?;
    }
    Ok(())
}

// Inserts the times that have an entry in a list.
pub(crate) fn insert_entries<T: Lattice>(
    found: &mut Vec<T>,
    few: &[(T, usize)],
) -> Result<(), Refusal>
    ensures beyond { OnOk result ((s : T) → is_beyond T.times found.new.items s
        ≡ (is_beyond T.times found.old.items s || is_beyond T.times (listed few.now) s)) }
    ensures refused { OnlyMemory result }
{
    for entry in few {
        insert_time(found, entry.0)?;
    }
    Ok(())
}

// Whether some time that has an entry in a list is at or before this one.
pub(crate) fn is_any_entry<T: Lattice>(few: &[(T, usize)], t: &T) -> bool
    ensures { result ≡ is_beyond T.times (listed few.now) t.now }
{
    for entry in few {
        if entry.0.less_equal(t) {
            return true;
        }
    }
    false
}

// Inserts the times that have an entry in a tree.
pub(crate) fn insert_listed<T: Lattice>(
    found: &mut Vec<T>,
    more: &BTreeMap<T, usize>,
) -> Result<(), Refusal>
    ensures beyond { OnOk result ((s : T) → is_beyond T.times found.new.items s
        ≡ (is_beyond T.times found.old.items s
        || is_beyond T.times (listed more.now.entries) s)) }
    ensures refused { OnlyMemory result }
{
    for (entry, _) in more {
        insert_time(found, *entry)?;
    }
    Ok(())
}

// Whether some time that has an entry in a tree is at or before this one.
pub(crate) fn is_any_listed<T: Lattice>(more: &BTreeMap<T, usize>, t: &T) -> bool
    ensures { result ≡ is_beyond T.times (listed more.now.entries) t.now }
{
    for (entry, _) in more {
        if entry.less_equal(t) {
            return true;
        }
    }
    false
}
