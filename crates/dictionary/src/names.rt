//! Names and their numbers.
ghost use Rattle.std.specs.Prelude.{◌≡◌, ◌<◌, ◌^◌, ◌++◌, ◌∷◌, [], ◌==◌, length, Some, None, IfOk, IfSome, OnOk, OnErr, option_map, slice_get};
ghost use Rattle.dictionary.specs.Names.{number_in, with_name};

use indexmap::IndexSet;
use std::alloc::{AllocError, Global};
use std::marker::Model;

/// Names, numbered from 0 in the order of their first use. A contract sees the list of their texts.
#[derive(Drop)]
pub struct Names {
    set: IndexSet<String>,
}

impl Model for Names {
    ghost use Rattle.std.specs.Prelude.{List, ℕ, map, string_bytes};

    ghost Value = { List (List ℕ) };

    ghost view = { λ names. map string_bytes names.set.keys };
}

impl Names {
    /// No names yet. Takes no memory.
    pub fn new(alloc: Global) -> Names
        ensures { result ≡ [] }
    {
        Names {
            set: IndexSet::new(alloc),
        }
    }

    /// How many names there are.
    pub fn len(&self) -> usize
        ensures value { result ≡ length self.now }
        ensures small { result < 2 ^ 63 }
    {
        self.set.len()
    }

    /// Whether there is no name.
    pub fn is_empty(&self) -> bool
        ensures { result ≡ (length self.now == 0) }
    {
        self.len() == 0
    }

    // The name's number, if it has one.
    fn find(&self, name: &str) -> Option<usize>
        ensures value { result ≡ number_in self.now name.now }
        ensures within { IfSome result (λ n. n < length self.now) }
    {
        self.set.get_index_of(name)
    }

    // Gives the next number to a name that has none.
    fn add(&mut self, alloc: Global, name: &str) -> Result<(), AllocError>
        requires { number_in self.old name.now ≡ None }
        ensures added { OnOk result (self.new ≡ self.old ++ name.now ∷ []) }
        ensures kept { OnErr result (self.new ≡ self.old) }
    {
        self.set.insert(String::from_str(alloc, name)?)?;
        Ok(())
    }

    /// The name's number. A name that has none gets the next one. The other names keep theirs.
    ///
    /// Cost: that of one look-up.
    pub fn number_of(&mut self, alloc: Global, name: &str) -> Result<usize, AllocError>
        ensures names { OnOk result (self.new ≡ with_name self.old name.now) }
        ensures number { IfOk result (λ n. slice_get self.new n ≡ Some name.now) }
        ensures small { IfOk result (λ n. n < 2 ^ 63) }
        ensures kept { OnErr result (self.new ≡ self.old) }
    {
        let next = self.len();
        if let Some(number) = self.find(name) {
            return Ok(number);
        }
        self.add(alloc, name)?;
        Ok(next)
    }

    /// The name with this number, if there is one.
    pub fn name(&self, number: usize) -> Option<&str>
        ensures { option_map (λ s. s.now) result ≡ slice_get self.now number }
    {
        self.set.get_index(number).map(|name| name.as_str())
    }
}
