// What a record holds.
use std::fmt;
use std::fmt::{Display, Formatter};

#[derive(Clone, Copy, Debug, PartialEq, Eq)]
pub(crate) enum Kind {
    Read,
    Written,
    HandedOut,
    Compared,
}

impl Kind {
    // In the order of their numbers in a record.
    pub(crate) const ALL: [Kind; 4] = [Kind::Read, Kind::Written, Kind::HandedOut, Kind::Compared];

    // The kind with a number of a record. Numbers past the last begin again with the first, so it is no `From`, which
    // keeps a value.
    pub(crate) fn of(number: u64) -> Kind {
        Kind::ALL[number as usize % Kind::ALL.len()]
    }
}

impl Display for Kind {
    fn fmt<W: fmt::Write>(&self, f: &mut Formatter<W>) -> fmt::Result {
        f.write_str(match self {
            Kind::Read => "lists read",
            Kind::Written => "lists written",
            Kind::HandedOut => "records handed out",
            Kind::Compared => "records compared",
        })
    }
}
