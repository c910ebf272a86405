//! The bags of the first nodes of a plan, in the order of the nodes' numbers. Arrange nodes and
//! views pass on the rows of their sources as they are. So such a node shares its source's bag,
//! which costs no copy however many rows there are. A contract sees a list of bags, and not which
//! of them are shared.
ghost use Rattle.std.specs.Prelude.{◌≡◌, ◌<◌, ◌++◌, ◌∷◌, [], length, OnOk};
ghost use Rattle.update.specs.Refusals.{OnlyMemory};
ghost use Rattle.oracle.specs.Evaluation.{nth_bag};

use std::alloc::Global;
use std::marker::Model;
use std::rc::Rc;
use update::{Bag, Refusal};

/// The bags of the first nodes.
#[derive(Drop)]
pub(crate) struct Bags {
    bags: Vec<Rc<Bag>>,
}

impl Model for Bags {
    ghost use Rattle.std.specs.Prelude.{List, map};
    ghost use Rattle.update.specs.Bags.{Entry};

    ghost Value = { List (List Entry) };

    ghost view = { λ b. map (λ shared. shared.value) b.bags.items };
}

impl Bags {
    /// No bags. Takes no memory.
    pub(crate) fn new(alloc: Global) -> Bags
        ensures { result ≡ [] }
    {
        Bags {
            bags: Vec::new(alloc),
        }
    }

    /// How many nodes have a bag.
    pub(crate) fn len(&self) -> usize
        ensures { result ≡ length self.now }
    {
        self.bags.len()
    }

    /// The bag of the node with this number.
    pub(crate) fn get(&self, number: usize) -> &Bag
        requires { number < length self.now }
        ensures { result.now ≡ nth_bag self.now number }
    {
        self.bags[number].as_ref()
    }

    /// Appends the bag of the next node. Refused only for lack of memory.
    pub(crate) fn push(&mut self, alloc: Global, bag: Bag) -> Result<(), Refusal>
        ensures more { OnOk result (self.new ≡ self.old ++ bag ∷ []) }
        ensures refused { OnlyMemory result }
    {
        let Ok(shared) = Rc::new(alloc, bag) else {
            return Err(Refusal::OutOfMemory);
        };
        self.bags.push(shared)?;
        Ok(())
    }

    /// Appends the bag of an earlier node for the next one. Refused only for lack of memory.
    pub(crate) fn share(&mut self, number: usize) -> Result<(), Refusal>
        requires { number < length self.old }
        ensures more { OnOk result (self.new ≡ self.old ++ nth_bag self.old number ∷ []) }
        ensures refused { OnlyMemory result }
    {
        let shared = self.bags[number].clone()?;
        self.bags.push(shared)?;
        Ok(())
    }
}
