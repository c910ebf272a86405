//! Cuts what a worker gave into bundles along an edge, one for each worker that gets something.
//! Into an arrange node, an update goes to the worker of its key. Along every other edge it stays
//! on its worker.
//!
//! No bundle is empty. So each bundle that waits is work to do, and no more is sent than there is.
//! The clauses say which bundles there are and in which order they are made. `give` relies only on
//! each place getting exactly its share, in bundles that are stamped and not empty.
ghost use Rattle.std.specs.Prelude.{◌≡◌, ◌<◌, ◌≤◌, ◌++◌, IfOk, OnOk, get_or, length, replicate, take, ℕ, []};
ghost use Rattle.update.specs.Refusals.{OnlyMemory};
ghost use Rattle.histories.specs.Histories.States.{place};
ghost use Rattle.histories.specs.Histories.Cuts.{part_by_key, bundled, bundles_along};

use columns::UpdateList;
use histories::{Bundle, Emission, Site, stamp_of};
use lattice::Minimum;
use plan::Edge;
use row::Row;
use std::alloc::Global;
use update::{Refusal, Update, Updates};

// Appends the bundle that stays on the worker that gave it.
pub(crate) fn push_for_giver<T: Minimum>(
    sent: &mut Vec<Bundle<T>>,
    edge: &Edge,
    emission: &Emission<T>,
) -> Result<(), Refusal>
    ensures more { OnOk result (sent.new.items ≡ sent.old.items
        ++ bundled T.times (place edge.now.reader edge.now.port emission.now.worker)
        emission.now.updates) }
    ensures refused { OnlyMemory result }
{
    let updates = emission.updates.copy(*sent.allocator())?;
    push_bundle(sent, place_at(edge, emission.worker), updates)
}

// Appends the bundles for the workers that get something by their keys, of this many columns.
pub(crate) fn push_for_workers<T: Minimum>(
    sent: &mut Vec<Bundle<T>>,
    edge: &Edge,
    columns: usize,
    workers: usize,
    emission: &Emission<T>,
) -> Result<(), Refusal>
    requires { 1 ≤ workers }
    ensures more { OnOk result (sent.new.items ≡ sent.old.items
        ++ bundles_along T.times edge.now workers
        (part_by_key columns workers emission.now.updates)) }
    ensures refused { OnlyMemory result }
{
    let alloc = *sent.allocator();
    let updates = emission.updates.to_vec(alloc)?;
    let parts = parts_by_key(alloc, updates.as_slice(), columns, workers)?;
    push_bundles(sent, edge, parts)
}

// Copies the updates, by worker: each goes to the worker of its key, of this many columns.
fn parts_by_key<T: Minimum>(
    alloc: Global,
    updates: &[Update<T>],
    columns: usize,
    workers: usize,
) -> Result<Vec<Updates<T>>, Refusal>
    requires { 1 ≤ workers }
    ensures parts { IfOk result (λ parts. (k : ℕ) → k < workers
        → get_or parts.items k [] ≡ part_by_key columns workers updates.now k) }
    ensures workers { IfOk result (λ parts. length parts.items ≡ workers) }
    ensures refused { OnlyMemory result }
{
    let mut parts = no_parts(alloc, workers)?;
    for update in updates {
        let worker = row::route(key(&update.row, columns), workers);
        parts[worker].push(update.copy())?;
    }
    Ok(parts)
}

// An empty part for each worker.
fn no_parts<T: Minimum>(alloc: Global, workers: usize) -> Result<Vec<Updates<T>>, Refusal>
    ensures none { IfOk result (λ parts. parts.items ≡ replicate workers []) }
    ensures refused { OnlyMemory result }
{
    let mut parts = Vec::with_capacity(alloc, workers)?;
    for _worker in 0..workers {
        parts.push(Vec::new(alloc).into())?;
    }
    Ok(parts)
}

// Appends the bundles that go along an edge, from each worker's part.
fn push_bundles<T: Minimum>(
    sent: &mut Vec<Bundle<T>>,
    edge: &Edge,
    mut parts: Vec<Updates<T>>,
) -> Result<(), Refusal>
    ensures more { OnOk result (sent.new.items ≡ sent.old.items
        ++ bundles_along T.times edge.now (length parts.items) (λ k. get_or parts.items k [])) }
    ensures refused { OnlyMemory result }
{
    for worker in 0..parts.len() {
        let updates = parts[worker].take().into_vec();
        push_bundle(sent, place_at(edge, worker), updates.into())?;
    }
    Ok(())
}

// Appends a bundle of these updates, if there are any.
fn push_bundle<T: Minimum>(
    sent: &mut Vec<Bundle<T>>,
    place: Site,
    updates: UpdateList<T>,
) -> Result<(), Refusal>
    ensures more { OnOk result (sent.new.items ≡ sent.old.items ++ bundled T.times place updates) }
    ensures refused { OnlyMemory result }
{
    if updates.len() > 0 {
        let stamp = stamp_of(*sent.allocator(), &updates)?;
        sent.push(Bundle {
            place,
            updates,
            stamp: stamp.into(),
        })?;
    }
    Ok(())
}

// The place at the end of an edge, on a worker.
pub(crate) fn place_at(edge: &Edge, worker: usize) -> Site
    ensures { result ≡ place edge.now.reader edge.now.port worker }
{
    Site {
        node: edge.reader,
        port: edge.port,
        worker,
    }
}

// The first columns of a row; all of them if the row has fewer.
fn key(row: &Row, columns: usize) -> &[i64]
    ensures key { result.now ≡ take columns row.now }
    ensures few { length result.now ≤ 8 }
{
    row.key(columns.min(row.width()))
}
