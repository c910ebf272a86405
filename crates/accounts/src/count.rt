//! How bundles are counted that are sent: each element of a stamp, at the port where the bundle is
//! to wait. A bundle whose place does not exist is dropped when it is put, so it is not counted.
ghost use Rattle.std.specs.Prelude.{◌≡◌, ◌++◌, [], ◌∷◌, OnErr, OnOk};
ghost use Rattle.update.specs.Refusals.{OnlyMemory};
ghost use Rattle.progress.specs.declared.place.Place.TheVariants.{Port};
ghost use Rattle.progress.specs.Several.{AreCounted};
ghost use Rattle.progress.specs.Tallies.{SameCounts};
ghost use Rattle.outstanding.specs.Stations.{lots};
ghost use Rattle.accounts.specs.Accounts.{items_sent};

use histories::{Bundle, Site};
use lattice::Minimum;
use outstanding::Stations;
use progress::{Place, Tally};
use update::Refusal;

// Where a bundle is counted that waits at a place. Frontiers count what waits on all workers.
pub(crate) fn port_of(site: &Site) -> Place
    ensures { result ≡ Port site.now.node site.now.port }
{
    Place::Port {
        node: site.node,
        port: site.port,
    }
}

// Counts the stamps of bundles that are sent. If it was refused, then no item is counted more or
// less often than before.
pub(crate) fn add_sent<T: Minimum>(
    tally: &mut Tally<T>,
    stations: &Stations<T>,
    sent: &[Bundle<T>],
) -> Result<(), Refusal>
    ensures counted { OnOk result
        (SameCounts tally.new.items (items_sent (lots stations.now) sent.now ++ tally.old.items)) }
    ensures nodes { tally.new.nodes ≡ tally.old.nodes }
    ensures refused { OnlyMemory result }
    ensures unchanged { OnErr result (SameCounts tally.new.items tally.old.items) }
{
    for number in 0..sent.len() {
        if let Err(refusal) = add_one(tally, stations, &sent[number]) {
            remove_sent(tally, stations, &sent[..number]);
            return Err(refusal);
        }
    }
    Ok(())
}

// Counts the stamp of one bundle.
fn add_one<T: Minimum>(
    tally: &mut Tally<T>,
    stations: &Stations<T>,
    bundle: &Bundle<T>,
) -> Result<(), Refusal>
    ensures counted { OnOk result (SameCounts tally.new.items
        (items_sent (lots stations.now) (bundle.now ∷ []) ++ tally.old.items)) }
    ensures nodes { tally.new.nodes ≡ tally.old.nodes }
    ensures refused { OnlyMemory result }
    ensures unchanged { OnErr result (SameCounts tally.new.items tally.old.items) }
{
    if !stations.has_place(&bundle.place) {
        return Ok(());
    }
    tally.add_all(&port_of(&bundle.place), bundle.stamp.as_slice())
}

// Counts the stamps of bundles no more. Takes no memory.
pub(crate) fn remove_sent<T: Minimum>(
    tally: &mut Tally<T>,
    stations: &Stations<T>,
    sent: &[Bundle<T>],
)
    requires { AreCounted tally.old.items (items_sent (lots stations.now) sent.now) }
    ensures counted { SameCounts (items_sent (lots stations.now) sent.now ++ tally.new.items)
        tally.old.items }
    ensures nodes { tally.new.nodes ≡ tally.old.nodes }
{
    for bundle in sent {
        remove_one(tally, stations, bundle);
    }
}

// Counts the stamp of one bundle no more.
fn remove_one<T: Minimum>(tally: &mut Tally<T>, stations: &Stations<T>, bundle: &Bundle<T>)
    requires { AreCounted tally.old.items (items_sent (lots stations.now) (bundle.now ∷ [])) }
    ensures counted { SameCounts
        (items_sent (lots stations.now) (bundle.now ∷ []) ++ tally.new.items) tally.old.items }
    ensures nodes { tally.new.nodes ≡ tally.old.nodes }
{
    if stations.has_place(&bundle.place) {
        tally.remove_all(&port_of(&bundle.place), bundle.stamp.as_slice());
    }
}
