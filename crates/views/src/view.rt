//! What is kept of one view: what it captured, the frontier beyond which it may be read, and its
//! last read.
ghost use Rattle.std.specs.Prelude.{◌≡◌, ◌++◌, [], IfErr, IfOk, OnErr, OnOk};
ghost use Rattle.update.specs.Refusals.{OnlyMemory};
ghost use Rattle.update.specs.Bags.{Alike, IsBag};
ghost use Rattle.update.specs.Updates.{as_of};
ghost use Rattle.views.specs.Views.{IsReadOf, IsSumRefusal};

use crate::last_read::{LastRead, read_anew, read_on};
use columns::{Columns, UpdateList};
use lattice::Minimum;
use std::alloc::Global;
use std::marker::Model;
use update::{Bag, Refusal, Times};

/// What a view captured, and the frontier beyond which it may be read. A node that is no view
/// captures nothing.
///
/// Cost: a captured update takes a time and 8 bytes. If its row is another than that of the update
/// before, it takes 9 bytes more, and 8 for each column of the row.
#[derive(Drop)]
pub struct View<T: Minimum> {
    since: Times<T>,
    captured: Columns<T>,
    // The last read, if there was one.
    last: Option<LastRead<T>>,
}

impl<T: Minimum> Model for View<T> {
    ghost use Rattle.std.specs.Prelude.{IfSome};
    ghost use Rattle.views.specs.Views.{ViewState, IsReadOf};

    ghost Value = { ViewState T };

    ghost view = { λ v. record { since = v.since; captured = v.captured } };

    ghost invariant = { λ v. IfSome v.last (λ r.
        IsReadOf T.times v.captured r.time r.bag r.known r.later.items) };
}

impl<T: Minimum> View<T> {
    /// A view that has captured nothing yet, and may be read beyond a frontier. Takes no memory.
    pub fn new(alloc: Global, since: Times<T>) -> View<T>
        ensures { result ≡ record { since = since; captured = [] } }
    {
        View {
            since,
            captured: Columns::new(alloc),
            last: None,
        }
    }

    /// The frontier beyond which the view may be read, as its elements. Takes no memory.
    pub fn since(&self) -> &[T]
        ensures { result.now ≡ self.now.since }
    {
        self.since.as_slice()
    }

    /// Moves the frontier beyond which the view may be read. Takes no memory.
    ///
    /// The last read stays, even if its own time may not be read any more: it is a sum of what was
    /// captured, and a read at a later time goes on from it. It goes only if no time may be read.
    pub fn move_since(&mut self, since: Times<T>)
        ensures { self.new ≡ record self.old { since = since } }
    {
        if since.as_slice().is_empty() {
            self.last = None;
        }
        self.since = since;
    }

    /// What the view captured. Takes no memory.
    pub fn captured(&self) -> &Columns<T>
        ensures { result.now ≡ self.now.captured }
    {
        &self.captured
    }

    /// Captures these updates. They move if they are in columns and nothing was captured before;
    /// then the list is empty. Refused only with `OutOfMemory`, and then nothing changes.
    ///
    /// Cost: constant if they move, else that of [`View::append`].
    pub fn capture(&mut self, updates: &mut UpdateList<T>) -> Result<(), Refusal>
        ensures more { OnOk result
            (self.new ≡ record self.old { captured = self.old.captured ++ updates.old }) }
        ensures refused { OnlyMemory result }
        ensures unchanged { OnErr result (self.new ≡ self.old) }
        ensures kept { OnErr result (updates.new ≡ updates.old) }
    {
        updates.move_to(&mut self.captured)
    }

    /// Captures copies of these updates. Refused only with `OutOfMemory`, and then nothing changes.
    ///
    /// Cost: linear in the updates, each of whose rows is compared with the one before.
    pub fn append(&mut self, updates: &UpdateList<T>) -> Result<(), Refusal>
        ensures more { OnOk result
            (self.new ≡ record self.old { captured = self.old.captured ++ updates.now }) }
        ensures refused { OnlyMemory result }
        ensures unchanged { OnErr result (self.new ≡ self.old) }
    {
        updates.append_to(&mut self.captured)
    }

    /// What the view captured, summed to a time. Refused with `Overflow` only if a row's count at
    /// the time does not fit in 64 bits, in whatever order the updates came, and with `OutOfMemory`
    /// if an allocation was refused.
    ///
    /// Cost: if the last read was at or before this time, linear in its bag, in the updates that it
    /// knew but left out, and in what was captured since, and a sort of the updates that come in.
    /// Otherwise linear in all that was captured, and a sort of each part of it: of so many updates
    /// as the bag has rows, or 4,096. Only if a sum on the way is too large, all are added up at
    /// once.
    pub fn sum_at(&mut self, alloc: Global, t: T) -> Result<Bag, Refusal>
        ensures kept { self.new ≡ self.old }
        ensures bag { IfOk result IsBag }
        ensures sum { IfOk result (λ bag. Alike bag (as_of T.times t self.old.captured)) }
        ensures refused { IfErr result (IsSumRefusal T.times self.old.captured t) }
    {
        let read = self.read_at(alloc, t)?;
        let bag = read.bag.clone()?;
        self.last = Some(read);
        Ok(bag)
    }

    // A read of all that was captured. It goes on from the last read if that was at or before the
    // time.
    fn read_at(&self, alloc: Global, t: T) -> Result<LastRead<T>, Refusal>
        ensures read { IfOk result (λ r.
            IsReadOf T.times self.now.captured r.time r.bag r.known r.later.items) }
        ensures bag { IfOk result (λ r. IsBag r.bag) }
        ensures sum { IfOk result (λ r. Alike r.bag (as_of T.times t self.now.captured)) }
        ensures refused { IfErr result (IsSumRefusal T.times self.now.captured t) }
    {
        let captured = &self.captured;
        match &self.last {
            Some(last) if last.time.less_equal(&t) => read_on(alloc, captured, last, t),
            _ => read_anew(alloc, captured, t),
        }
    }
}
