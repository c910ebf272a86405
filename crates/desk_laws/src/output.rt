//! What a worker has ready to be given. Most nodes make a list. A reduction makes columns, and a
//! list of columns asks for memory. That may be refused after the reduction has answered, and then
//! its answer would be lost. So an output has either form, and it is made a list before it is
//! given.
ghost use Rattle.std.specs.Prelude.{◌≡◌, IfErr, IfOk};

use columns::{Columns, UpdateList};
use lattice::Lattice;
use std::alloc::Global;
use std::marker::Model;
use update::Refusal;

// The form of an output.
#[derive(Drop)]
pub(crate) enum Form<T> {
    // A list.
    Listed(UpdateList<T>),
    // Column by column, as a reduction answers.
    Answered(Columns<T>),
}

/// Updates that are ready to be given. A contract sees the list of them.
#[derive(Drop)]
pub struct Output<T> {
    form: Form<T>,
}

impl<T> Model for Output<T> {
    ghost use Rattle.std.specs.Prelude.{List};
    ghost use Rattle.update.specs.declared.change.Update.{Update};
    ghost use Rattle.desk_laws.specs.Outputs.{put_out};

    ghost Value = { List (Update T) };

    ghost view = { λ o. put_out o.form };
}

impl<T: Lattice> Output<T> {
    /// The output as a list that can be given. If memory was refused, the output comes back as it
    /// was.
    ///
    /// Cost: constant.
    pub fn into_list(self, alloc: Global) -> Result<UpdateList<T>, Output<T>>
        ensures list { IfOk result (λ list. list ≡ self) }
        ensures returned { IfErr result (λ back. back ≡ self) }
    {
        let Output { form } = self;
        match form {
            Form::Listed(list) => Ok(list),
            Form::Answered(columns) => match UpdateList::packed(alloc, columns) {
                Ok(list) => Ok(list),
                Err(back) => Err(back.into()),
            },
        }
    }
}

/// Takes no memory.
impl<T> From<UpdateList<T>> for Output<T> {
    ghost use Rattle.std.specs.Prelude.{◌≡◌};

    ghost from_gives = { λ v r. r ≡ v };

    fn from(list: UpdateList<T>) -> Output<T> {
        Output {
            form: Form::Listed(list),
        }
    }
}

/// Takes no memory.
impl<T> From<Columns<T>> for Output<T> {
    ghost use Rattle.std.specs.Prelude.{◌≡◌};

    ghost from_gives = { λ v r. r ≡ v };

    fn from(columns: Columns<T>) -> Output<T> {
        Output {
            form: Form::Answered(columns),
        }
    }
}
