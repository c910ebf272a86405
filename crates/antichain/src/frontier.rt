//! The antichain itself. The elements are private. In every value no two of them can be compared
//! and they are in `Ord` order, so a contract can name the list of elements and mean the set.
ghost use Rattle.std.specs.Prelude.{◌≡◌, ◌+◌, ◌*◌, ◌<◌, ◌≤◌, ◌↔◌, not, ◌&&◌, ◌||◌, [], ◌∷◌, length, IsTrue, IsOk, IfOk, OnOk, OnErr};
ghost use Rattle.std.specs.List.{list_all};
ghost use Rattle.lattice.specs.Frontiers.{is_beyond, all_beyond};
ghost use Rattle.antichain.specs.Antichains.{SameElements, IsFrontier, is_incomparable, least};

use crate::NoMemory;
use crate::beyond::{all_beyond, is_beyond};
use crate::edits::insert_new;
use lattice::Lattice;
use smallvec::SmallVec;
use std::alloc::{AllocError, Global};
use std::marker::Model;

/// A set of times of which no two can be compared, as in timely dataflow. A contract sees the list
/// of its elements in `Ord` order, so that equal sets are equal lists. Up to four elements take no
/// memory.
#[derive(Drop)]
pub struct Antichain<T: Lattice> {
    elements: SmallVec<T, 4>,
}

impl<T: Lattice> Model for Antichain<T> {
    ghost use Rattle.std.specs.Prelude.{List, ◌≤◌};
    ghost use Rattle.std.specs.Coded.{coded_list};
    ghost use Rattle.antichain.specs.Antichains.{IsFrontier};

    ghost Value = { List T };

    ghost coded = { coded_list T.code };

    ghost view = { λ a. a.elements.items };

    ghost invariant = { λ a. IsFrontier T.times T.cmp a.elements.items
        × (4 ≤ a.elements.capacity) };
}

impl<T: Lattice> Antichain<T> {
    /// The empty antichain, which has passed every time. Takes no memory.
    pub fn new(alloc: Global) -> Self
        ensures { result ≡ [] }
    {
        Antichain {
            elements: SmallVec::new(alloc),
        }
    }

    /// The antichain of one time. Takes no memory.
    pub fn from_elem(alloc: Global, t: T) -> Self
        ensures { result ≡ t ∷ [] }
    {
        Antichain {
            elements: SmallVec::from_slice(alloc, &[t]).unwrap(),
        }
    }

    /// The least of the times, which may be given in any order and repeated. [`NoMemory`] only if
    /// there are more than four times.
    ///
    /// Cost: each time is compared with all elements held at that moment. There may be more of them
    /// on the way than in the result, so the cost is linear in the number of times multiplied by
    /// the most elements that are ever held.
    pub fn least_of(alloc: Global, times: &[T]) -> Result<Self, NoMemory>
        ensures least { IfOk result (λ frontier. SameElements frontier (least T.times times.now)) }
        ensures beyond { IfOk result (λ frontier. (s : T)
            → is_beyond T.times frontier s ≡ is_beyond T.times times.now s) }
        ensures small { length times.now ≤ 4 → IsOk result }
    {
        let mut frontier = Antichain::new(alloc);
        for t in times {
            frontier.insert(*t)?;
        }
        Ok(frontier)
    }

    /// The elements, in `Ord` order; no two can be compared. Takes no memory.
    pub fn elements(&self) -> &[T]
        ensures value { result.now ≡ self.now }
        ensures frontier { IsFrontier T.times T.cmp self.now }
    {
        self.elements.as_slice()
    }

    /// Tells the prover that the elements are a frontier. Costs nothing.
    pub fn known(&self)
        ensures { IsFrontier T.times T.cmp self.now }
    {
        let _ = &self.elements;
    }

    /// The number of elements. Takes no memory.
    pub fn len(&self) -> usize
        ensures { result ≡ length self.now }
    {
        self.elements.len()
    }

    /// Whether there are no elements, so that every time has been passed. Takes no memory.
    pub fn is_empty(&self) -> bool
        ensures { IsTrue result ↔ (self.now ≡ []) }
    {
        self.elements.is_empty()
    }

    /// Whether the time is beyond the antichain, which means that some element is at or before it.
    /// Otherwise the antichain has passed the time. Takes no memory.
    ///
    /// Cost: one comparison for each element.
    pub fn less_equal(&self, t: &T) -> bool
        ensures { result ≡ is_beyond T.times self.now t.now }
    {
        is_beyond(self.elements.as_slice(), t)
    }

    /// Whether this antichain is beyond the other: each of its elements is beyond the other, and so
    /// is each time beyond it. The empty antichain is beyond every antichain. Takes no memory.
    ///
    /// Cost: one comparison for each pair of elements.
    pub fn is_beyond(&self, other: &Antichain<T>) -> bool
        ensures value { result ≡ all_beyond T.times other.now self.now }
        ensures times { IsTrue result ↔ ((t : T)
            → IsTrue (is_beyond T.times self.now t) → IsTrue (is_beyond T.times other.now t)) }
    {
        all_beyond(other.elements.as_slice(), self.elements.as_slice())
    }

    /// Adds a time: the elements are then the least of the old elements and the time. Returns true
    /// if the time was not beyond the antichain; otherwise nothing changes.
    ///
    /// [`NoMemory`] only if the set would grow past four elements, which means that there are at
    /// least four and none of them can be compared with the time. Then nothing changes.
    ///
    /// Cost: linear in the number of elements.
    pub fn insert(&mut self, t: T) -> Result<bool, NoMemory>
        ensures least { OnOk result (SameElements self.new (least T.times (t ∷ self.old))) }
        ensures beyond { OnOk result ((s : T)
            → is_beyond T.times self.new s ≡ (T.times.below t s || is_beyond T.times self.old s)) }
        ensures answer { IfOk result (λ inserted. inserted ≡ not (is_beyond T.times self.old t)) }
        ensures already { IsTrue (is_beyond T.times self.old t) → self.new ≡ self.old }
        ensures frontier { IsFrontier T.times T.cmp self.new }
        ensures len { OnOk result (length self.new ≤ length self.old + 1) }

        ensures err { OnErr result (self.new ≡ self.old) }
        ensures full { OnErr result ((4 ≤ length self.old)
            × IsTrue (list_all (is_incomparable T.times t) self.old)) }
    {
        if self.less_equal(&t) {
            return Ok(false);
        }
        insert_new(&mut self.elements, t)?;
        Ok(true)
    }

    /// The antichain of the times that are beyond both: a time is beyond the result if and only if
    /// it is beyond this antichain and beyond the other. [`NoMemory`] only if there are more than
    /// four pairs of elements.
    ///
    /// Cost: the join of each pair of elements is compared with all elements held at that moment.
    /// There may be more of them on the way than in the result, so the cost is linear in the number
    /// of pairs multiplied by the most elements that are ever held.
    pub fn joined(&self, other: &Antichain<T>) -> Result<Antichain<T>, NoMemory>
        ensures beyond { IfOk result (λ both. (t : T)
            → is_beyond T.times both t
            ≡ (is_beyond T.times self.now t && is_beyond T.times other.now t)) }
        ensures small { OnErr result (4 < length self.now * length other.now) }
    {
        let mut both = Antichain::new(*self.elements.allocator());
        for f in self.elements.as_slice() {
            insert_joins(&mut both, *f, other.elements())?;
        }
        Ok(both)
    }
}

// Inserts the joins of one time with each of the others.
fn insert_joins<T: Lattice>(both: &mut Antichain<T>, f: T, others: &[T]) -> Result<(), NoMemory>
    ensures beyond { OnOk result ((t : T) → is_beyond T.times both.new t
        ≡ (is_beyond T.times both.old t || (T.times.below f t && is_beyond T.times others.now t))) }
    ensures len { OnOk result (length both.new ≤ length both.old + length others.now) }
    ensures full { OnErr result (4 < length both.old + length others.now) }
{
    for g in others {
        both.insert(f.join(*g))?;
    }
    Ok(())
}

/// A copy. It is never refused if there are at most four elements.
impl<T: Lattice> Clone for Antichain<T> {
    ghost use Rattle.std.specs.Prelude.{◌≡◌, ◌≤◌, length};

    ghost is_clone = { λ a b. b ≡ a };

    ghost is_infallible = { λ a. length a ≤ 4 };

    fn clone(&self) -> Result<Self, AllocError> {
        Ok(Antichain {
            elements: SmallVec::from_slice(*self.elements.allocator(), self.elements.as_slice())?,
        })
    }
}

/// Two antichains are equal if and only if they have the same elements.
impl<T: Lattice> PartialEq for Antichain<T> {
    ghost use Rattle.std.specs.Prelude.{◌≡◌, ◌↔◌, IsTrue};
    ghost use Rattle.std.specs.Cmp.Lexicographic.{pointwise, lists_per};

    ghost eq = { pointwise T.eq };

    ghost laws = { lists_per T.PartialEq.laws };

    fn eq(&self, other: &Self) -> bool
        ensures value { result ≡ pointwise T.eq self.now other.now }
        ensures same { IsTrue result ↔ (self.now ≡ other.now) }
    {
        self.elements.as_slice() == other.elements.as_slice()
    }
}

impl<T: Lattice> Eq for Antichain<T> {
    ghost use Rattle.std.specs.Cmp.Lexicographic.{lists_equiv};

    ghost laws = { lists_equiv T.Eq.laws };
}
