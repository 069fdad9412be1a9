// Replays frozen answers of the number helpers: two blocks of 65,536 bytes at most. A record is four numbers of eight
// bytes, low byte first: which call, its one or two arguments by their bit patterns, and the answer's bit pattern.
#![tactic(auto)]

use kernel::number;
use replay::{Block, Tally};
use std::fmt::{Display, Formatter};
use std::{fmt, io};

// The bytes of a record.
const RECORD: usize = 32;

#[derive(Clone, Copy, Debug, PartialEq, Eq)]
enum Call {
    Sqrt,
    Abs,
    Max,
    Value,
    Constant,
}

impl Call {
    // In the order of their numbers in a record.
    const ALL: [Call; 5] = [
        Call::Sqrt,
        Call::Abs,
        Call::Max,
        Call::Value,
        Call::Constant,
    ];

    // The call with a number of a record. Numbers past the last begin again with the first, so it is no `From`, which
    // keeps a value.
    fn of(number: u64) -> Call {
        Call::ALL[number as usize % Call::ALL.len()]
    }

    // A match, since in a table of functions those of one number would have to take two, as `max` does.
    fn answer(self, x: f64, y: f64) -> f64 {
        match self {
            Call::Sqrt => number::sqrt(x),
            Call::Abs => number::abs(x),
            Call::Max => number::max(x, y),
            Call::Value => number::value(x),
            Call::Constant => number::constant(x),
        }
    }
}

impl Display for Call {
    fn fmt<W: fmt::Write>(&self, f: &mut Formatter<W>) -> fmt::Result {
        f.write_str(match self {
            Call::Sqrt => "sqrt",
            Call::Abs => "abs",
            Call::Max => "max",
            Call::Value => "value",
            Call::Constant => "constant",
        })
    }
}

// Counts a record under its call.
fn replay_record(record: &[u8], tallies: &mut [Tally; 5]) {
    let call = Call::of(replay::number(record, 0));
    let x = replay::double(replay::number(record, 1));
    let y = replay::double(replay::number(record, 2));
    tallies[call as usize].count(replay::is_same(call.answer(x, y), replay::number(record, 3)));
}

// As in the other programs: a function over the calls and their checks would need a trait as long as this.
fn main(rt: HostRuntime) -> io::Result<()> {
    let mut tallies = [Tally::default(); 5];
    let mut reader = rt.reader();
    let mut block = Block::new();
    // Both are asked for, whatever the first one gives: the input of a terminal goes on after an end.
    for _ in 0..2 {
        block.fill(&mut reader);
        for record in block.bytes().chunks_exact(RECORD) {
            replay_record(record, &mut tallies);
        }
    }
    for (call, tally) in Call::ALL.iter().zip(&tallies) {
        println!(rt; "{call} {tally}")?;
    }
    Ok(())
}
