//! How many digits of an amount stand after its point.
ghost use Rattle.std.specs.Prelude.{◌≡◌, ◌↔◌, ◌≤◌, ◌<◌, IfSome, IsNone};

use std::fmt;

/// A number of decimal places, 0 to 9.
#[derive(Clone, Copy, Debug, PartialEq, Eq)]
pub struct Places {
    count: u8,
    ghost few: { count ≤ 9 },
}

impl Places {
    /// No decimal place: the amounts are whole numbers.
    pub const NONE: Places = Places { count: 0 };

    /// So many places; `None` above 9.
    pub fn new(count: u8) -> Option<Places>
        ensures some { IfSome result (λ places. places.count ≡ count) }
        ensures none { IsNone result ↔ (9 < count) }
    {
        if count > 9 {
            return None;
        }
        Some(Places { count })
    }

    /// How many there are, at most 9.
    pub fn count(self) -> u8
        ensures value { result ≡ self.count }
        ensures few { result ≤ 9 }
    {
        self.count
    }
}

impl fmt::Display for Places {
    fn fmt<W: fmt::Write>(&self, f: &mut fmt::Formatter<W>) -> fmt::Result {
        let count = self.count;
        if count == 1 {
            write!(f, "1 place")
        } else {
            write!(f, "{count} places")
        }
    }
}
