// Replays frozen merges, winners, and merges with their lists. The input is blocks of 65,536 bytes, each some records
// and then zeros. All numbers have eight bytes, low byte first, the floor and the gate stand by their bit patterns, and
// bytes are filled up with zeros to a whole number. A record has its length in numbers, its kind and ten numbers more,
// which each kind below names in their order, and then its data.
#![tactic(auto)]

mod kind;

use crate::kind::Kind;
use kernel::bytes::same_bytes;
use kernel::question::Question;
use merge::Counts;
use merge::winner::{Part, WinningPart, winner, winning};
use replay::{Block, Tally, after, number, part, split};
use std::io;

// The bytes of a record before its data.
const HEAD: u64 = 96;
// The most bytes of rows that a record lends.
const ROWS: usize = 400;
// The most bytes of list that a record lends.
const LIST: usize = 1400;

// What stands in the rows and in the list before a merge.
const BEFORE: u8 = 0xA5;

// Whether a merge answers as the record s tells, with its counts.
fn is_told(answer: Result<Counts, Question>, s: &[u8]) -> bool {
    match answer {
        Ok(counts) => {
            number(s, 8) == 0
                && counts.full as u64 == number(s, 9)
                && counts.half as u64 == number(s, 10)
                && counts.single as u64 == number(s, 11)
        }
        Err(question) => number(s, 8) == u64::from(u8::from(question)),
    }
}

// The three lists of a merge, and the floor and the gate.
#[derive(Clone, Copy)]
struct Lists<'a> {
    base: &'a [u8],
    ours: &'a [u8],
    theirs: &'a [u8],
    floor: f64,
    gate: f64,
}

impl<'a> Lists<'a> {
    // What the record s of a merge hands to it, and its data after the lists.
    fn of(s: &'a [u8]) -> (Lists<'a>, &'a [u8]) {
        let (base, after_base) = split(after(s, HEAD), number(s, 2));
        let (ours, after_ours) = split(after_base, number(s, 3));
        let (theirs, rest) = split(after_ours, number(s, 4));
        let lists = Lists {
            base,
            ours,
            theirs,
            floor: replay::double(number(s, 5)),
            gate: replay::double(number(s, 6)),
        };
        (lists, rest)
    }
}

// Kind 0, a merge: the lengths of base, ours and theirs, the floor, the gate, the bytes of rows that are lent, the
// answer's number, and how many rows have three, two and one track; the three lists, and the rows afterwards.
fn merges(s: &[u8]) -> bool {
    let (lists, rest) = Lists::of(s);
    let left = part(rest, 0, number(s, 7));
    let mut rows = [BEFORE; ROWS];
    let rows = &mut rows[..number(s, 7).min(ROWS as u64) as usize];
    let answer = merge::merge(
        lists.base,
        lists.ours,
        lists.theirs,
        lists.floor,
        lists.gate,
        rows,
    );
    is_told(answer, s) && same_bytes(left, rows)
}

// Kind 2, a merge with its list: the same, and after them the bytes of list that are lent, the list's length, and the
// bytes of list afterwards.
fn merges_with_list(s: &[u8]) -> bool {
    let (lists, rest) = Lists::of(s);
    let (left, told) = split(rest, number(s, 7));
    let list_left = part(told, 16, number(told, 0));
    let mut rows = [BEFORE; ROWS];
    let rows = &mut rows[..number(s, 7).min(ROWS as u64) as usize];
    let mut list = [BEFORE; LIST];
    let list = &mut list[..number(told, 0).min(LIST as u64) as usize];
    let is_told = match merge_list::merge_list(
        lists.base,
        lists.ours,
        lists.theirs,
        lists.floor,
        lists.gate,
        rows,
        list,
    ) {
        Ok(merged) => is_told(Ok(merged.counts), s) && merged.length as u64 == number(told, 1),
        Err(question) => is_told(Err(question), s),
    };
    is_told && same_bytes(left, rows) && same_bytes(list_left, list)
}

// Whether a part stands where the record s of a winner tells.
fn is_place(place: Part, s: &[u8]) -> bool {
    place.start as u64 == number(s, 6) && place.length as u64 == number(s, 7)
}

// Kind 1, a winner: the lengths of ours and theirs, the row as a number, the list, 1 for ours, 2 for theirs and 0 for
// nobody, the start and the length; the two lists.
fn wins(s: &[u8]) -> bool {
    let (ours, after_ours) = split(after(s, HEAD), number(s, 2));
    let theirs = part(after_ours, 0, number(s, 3));
    let row = ((number(s, 4) % 0x1_0000_0000) as u32).to_le_bytes();
    let list = if number(s, 5) == 2 { theirs } else { ours };
    let is_told = match winning(ours, theirs, row) {
        None => number(s, 5) == 0,
        Some(WinningPart::Ours(place)) => number(s, 5) == 1 && is_place(place, s),
        Some(WinningPart::Theirs(place)) => number(s, 5) == 2 && is_place(place, s),
    };
    let wanted = part(list, number(s, 6), number(s, 7));
    is_told && same_bytes(wanted, winner(ours, theirs, row))
}

// Whether the record at the start of s is answered as it says. A match on an enum: the kind stands in the input.
fn is_met(s: &[u8], kind: Kind) -> bool {
    match kind {
        Kind::Merge => merges(s),
        Kind::Winner => wins(s),
        Kind::MergedList => merges_with_list(s),
    }
}

// As in the other programs: a function over the kinds and their checks would need a trait as long as this.
fn main(rt: HostRuntime) -> io::Result<()> {
    let mut tallies = [Tally::default(); 3];
    let mut reader = rt.reader();
    let mut block = Block::new();
    // Nothing says that the input ends, and a proved loop has to: so the turns are counted, up to a number that no run
    // uses up.
    for _ in 0..u64::MAX {
        if !block.fill(&mut reader) {
            break;
        }
        for s in block.records() {
            let kind = Kind::of(number(s, 1));
            tallies[kind as usize].count(is_met(s, kind));
        }
    }
    for (kind, tally) in Kind::ALL.iter().zip(&tallies) {
        println!(rt; "{} {kind}, {} differences", tally.cases, tally.differences)?;
    }
    Ok(())
}
