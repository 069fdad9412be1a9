// How many records were replayed.
ghost use Rattle.std.specs.Prelude.{◌≡◌, ◌+◌, ◌%◌, ◌^◌, cond};

use std::fmt;
use std::fmt::{Display, Formatter};

// How many records there were of one kind, and how many of them were answered otherwise than they say.
#[derive(Clone, Copy, Debug, Default, PartialEq, Eq)]
pub struct Tally {
    pub cases: u64,
    pub differences: u64,
}

impl Tally {
    // Counts a record, which is answered as it says or not.
    pub fn count(&mut self, is_met: bool)
        ensures cases { self.new.cases ≡ (self.old.cases + 1) % 2 ^ 64 }
        ensures differences { self.new.differences ≡ cond is_met self.old.differences ((self.old.differences + 1) % 2 ^ 64) }
    {
        self.cases = self.cases.wrapping_add(1);
        if !is_met {
            self.differences = self.differences.wrapping_add(1);
        }
    }
}

impl Display for Tally {
    fn fmt<W: fmt::Write>(&self, f: &mut Formatter<W>) -> fmt::Result {
        write!(f, "{} cases {} differences", self.cases, self.differences)
    }
}
