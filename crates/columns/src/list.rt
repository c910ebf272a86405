//! Updates on their way from node to node.
//!
//! An operator that goes over updates in place has them one by one, each with its row. One that
//! gives many updates of few rows, or more than it takes, gives them column by column: so they take
//! half the memory or less while they wait. A list has one of the two forms, and a contract sees
//! neither. A caller that wants the updates one by one asks for a vector: that copies a list of
//! columns, and moves any other one. A caller that collects columns gets a list of columns without
//! a copy if it has none yet. One that reads a list without taking it looks at its form.
ghost use Rattle.std.specs.Prelude.{◌≡◌, ◌<◌, ◌++◌, length, slice_get, IfErr, IfOk, IsSomeAnd, OnErr, OnOk};
ghost use Rattle.update.specs.Refusals.{OnlyMemory};
ghost use Rattle.update.specs.declared.refusal.Refusal.TheVariants.{OutOfMemory};
ghost use Rattle.columns.specs.Lists.{listed};

use crate::columns::Columns;
use lattice::Lattice;
use std::alloc::Global;
use std::marker::Model;
use std::mem;
use update::{Refusal, Update};

/// The form of a list.
#[derive(Drop)]
pub enum Form<T> {
    /// One by one, each with its row.
    Plain(Vec<Update<T>>),
    /// Column by column. They lie behind a box, so that a short list takes no more room.
    Packed(Box<Columns<T>>),
}

/// Updates that travel together. A contract sees the list of them.
pub struct UpdateList<T> {
    form: Form<T>,
}

impl<T> Model for UpdateList<T> {
    ghost use Rattle.std.specs.Prelude.{List};
    ghost use Rattle.update.specs.declared.change.Update.{Update};
    ghost use Rattle.columns.specs.Lists.{listed};

    ghost Value = { List (Update T) };

    ghost view = { λ list. listed list.form };
}

// (written by hand, so that to let a list go is one step in the proofs of its owners)
impl<T: Drop> Drop for UpdateList<T> {
    fn drop(self) {
        let UpdateList { form: _ } = self;
    }
}

impl<T: Lattice> UpdateList<T> {
    /// A list that is kept column by column. If memory was refused, the columns come back.
    pub fn packed(alloc: Global, columns: Columns<T>) -> Result<UpdateList<T>, Columns<T>>
        ensures packed { IfOk result (λ list. list ≡ columns) }
        ensures returned { IfErr result (λ back. back ≡ columns) }
    {
        match Box::new(alloc, columns) {
            Ok(columns) => Ok(UpdateList {
                form: Form::Packed(columns),
            }),
            Err(refused) => Err(refused.value),
        }
    }

    /// The form of the list, for one who reads it as it stands. Takes no memory.
    pub fn form(&self) -> &Form<T>
        ensures { listed result.now ≡ self.now }
    {
        &self.form
    }

    /// The number of updates. Takes no memory.
    pub fn len(&self) -> usize
        ensures { result ≡ length self.now }
    {
        match &self.form {
            Form::Plain(updates) => updates.len(),
            Form::Packed(columns) => columns.len(),
        }
    }

    /// Takes the updates out as a vector, after which the list is of no use. Refused only with
    /// `OutOfMemory`, and only if they are in columns; then the list is as before.
    ///
    /// Cost: none, or that of [`Columns::to_vec`].
    pub fn take_vec(&mut self, alloc: Global) -> Result<Vec<Update<T>>, Refusal>
        ensures updates { IfOk result (λ updates. updates.items ≡ self.old) }
        ensures same { OnErr result (self.new ≡ self.old) }
        ensures refused { OnlyMemory result }
    {
        if let Form::Plain(updates) = &mut self.form {
            return Ok(mem::replace(updates, Vec::new(alloc)));
        }
        self.to_vec(alloc)
    }

    /// The time of update `i`, counted from 0. Takes no memory.
    pub fn time(&self, i: usize) -> T
        requires { i < length self.now }
        ensures { IsSomeAnd (slice_get self.now i) (λ u. result ≡ u.time) }
    {
        match &self.form {
            Form::Plain(updates) => updates[i].time,
            Form::Packed(columns) => columns.time(i),
        }
    }

    /// Copies of the updates, each with its row. Refused only with `OutOfMemory`.
    ///
    /// Cost: one step for each column of each row.
    pub fn to_vec(&self, alloc: Global) -> Result<Vec<Update<T>>, Refusal>
        ensures copied { IfOk result (λ list. list.items ≡ self.now) }
        ensures refused { OnlyMemory result }
    {
        match &self.form {
            Form::Plain(updates) => copies_of(alloc, updates.as_slice()),
            Form::Packed(columns) => columns.to_vec(alloc),
        }
    }

    /// A copy, in the same form. Refused only with `OutOfMemory`.
    ///
    /// Cost: linear in the updates. Columns are copied as they stand.
    pub fn copy(&self, alloc: Global) -> Result<UpdateList<T>, Refusal>
        ensures copied { IfOk result (λ copy. copy ≡ self.now) }
        ensures refused { OnlyMemory result }
    {
        match &self.form {
            Form::Plain(updates) => Ok(copies_of(alloc, updates.as_slice())?.into()),
            Form::Packed(columns) => packed_copy(alloc, columns),
        }
    }

    /// Appends copies of all updates to others that are kept column by column. Refused only with
    /// `OutOfMemory`, and then those are as before.
    ///
    /// Cost: as for [`Columns::append`] or [`Columns::append_columns`].
    pub fn append_to(&self, others: &mut Columns<T>) -> Result<(), Refusal>
        ensures more { OnOk result (others.new ≡ others.old ++ self.now) }
        ensures same { OnErr result (others.new ≡ others.old) }
        ensures refused { OnlyMemory result }
    {
        match &self.form {
            Form::Plain(updates) => others.append(updates.as_slice()),
            Form::Packed(columns) => others.append_columns(columns),
        }
    }

    /// Appends all updates to others that are kept column by column. They move if they are kept so,
    /// too, and there were no others. Refused only with `OutOfMemory`, and then both lists are as
    /// before.
    ///
    /// Cost: constant if they move, else as for [`append_to`](UpdateList::append_to).
    pub fn move_to(&mut self, others: &mut Columns<T>) -> Result<(), Refusal>
        ensures more { OnOk result (others.new ≡ others.old ++ self.old) }
        ensures same { OnErr result (others.new ≡ others.old) }
        ensures left { OnErr result (self.new ≡ self.old) }
        ensures refused { OnlyMemory result }
    {
        if let Form::Packed(columns) = &mut self.form {
            others.take_columns(columns)?;
            return Ok(());
        }
        self.append_to(others)
    }
}

// Copies of updates.
fn copies_of<T: Lattice>(alloc: Global, updates: &[Update<T>]) -> Result<Vec<Update<T>>, Refusal>
    ensures copied { IfOk result (λ copies. copies.items ≡ updates.now) }
    ensures refused { OnlyMemory result }
{
    let mut copies = Vec::with_capacity(alloc, updates.len())?;
    for update in updates {
        copies.push(update.copy())?;
    }
    Ok(copies)
}

// A copy of columns, as a list.
fn packed_copy<T: Lattice>(alloc: Global, columns: &Columns<T>) -> Result<UpdateList<T>, Refusal>
    ensures copied { IfOk result (λ copy. copy ≡ columns.now) }
    ensures refused { OnlyMemory result }
{
    let copy = columns.to_columns(alloc)?;
    match UpdateList::packed(alloc, copy) {
        Ok(list) => Ok(list),
        Err(_copy) => Err(Refusal::OutOfMemory),
    }
}

/// Takes no memory.
impl<T> From<Vec<Update<T>>> for UpdateList<T> {
    ghost use Rattle.std.specs.Prelude.{◌≡◌};

    ghost from_gives = { λ v r. r ≡ v.items };

    fn from(updates: Vec<Update<T>>) -> UpdateList<T> {
        UpdateList {
            form: Form::Plain(updates),
        }
    }
}
