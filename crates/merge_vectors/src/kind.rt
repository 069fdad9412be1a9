// What a record holds.
use std::fmt;
use std::fmt::{Display, Formatter};

#[derive(Clone, Copy, Debug, PartialEq, Eq)]
pub(crate) enum Kind {
    Merge,
    Winner,
    MergedList,
}

impl Kind {
    // In the order of their numbers in a record.
    pub(crate) const ALL: [Kind; 3] = [Kind::Merge, Kind::Winner, Kind::MergedList];

    // The kind with a number of a record. Numbers past the last begin again with the first, so it is no `From`, which
    // keeps a value.
    pub(crate) fn of(number: u64) -> Kind {
        Kind::ALL[number as usize % Kind::ALL.len()]
    }
}

impl Display for Kind {
    fn fmt<W: fmt::Write>(&self, f: &mut Formatter<W>) -> fmt::Result {
        f.write_str(match self {
            Kind::Merge => "merges",
            Kind::Winner => "winners",
            Kind::MergedList => "merged lists",
        })
    }
}
