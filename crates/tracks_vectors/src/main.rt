// Replays frozen answers of the track lists: one block of 65,536 bytes, some records and then zeros. All numbers have
// eight bytes, low byte first, values stand by their bit patterns, and bytes are filled up with zeros to a whole
// number. A record has its length in numbers, its kind and six numbers more, which each kind below names in their
// order, and then its data.
#![tactic(auto)]

mod kind;

use crate::kind::Kind;
use kernel::bytes::same_bytes;
use replay::{Blocks, Tally};
use std::io;
use tracks::reader::Reader;
use tracks::{read, record, write};

// The bytes of a record before its data.
const HEAD: u64 = 64;
// The most values and bytes that a record lends.
const MOST_VALUES: u16 = 128;

const VALUES: usize = MOST_VALUES as usize;

const MOST_BYTES: u16 = 1100;

const BYTES: usize = MOST_BYTES as usize;

// The most records of a list.
const MOST_RECORDS: usize = 32;

// What stands in lent memory before a call.
const VALUE_BEFORE: f64 = 7.0;

const BYTE_BEFORE: u8 = 0xA5;

// Kind 0, a list that is read: the list's length, the values that are lent, the answer's number, the
// count, the dimension and the records that a reader finds; the list, and the values afterwards.
fn reads(s: &[u8]) -> bool {
    let (list, left) = replay::split(replay::after(s, HEAD), replay::number(s, 2));
    let room = replay::up_to(MOST_VALUES, replay::number(s, 3));
    let mut lent = [VALUE_BEFORE; VALUES];
    let values = &mut lent[..room];
    let is_told = match read::read_list(list, values) {
        Ok(size) => {
            replay::number(s, 4) == 0
                && size.count as u64 == replay::number(s, 5)
                && size.dimension as u64 == replay::number(s, 6)
        }
        Err(question) => replay::number(s, 4) == u64::from(u8::from(question)),
    };
    is_told && replay::are_same(values, left)
}

// The same list, walked through by a reader, which goes from its start through so many records to the list's end.
fn walks(s: &[u8]) -> bool {
    let (list, _) = replay::split(replay::after(s, HEAD), replay::number(s, 2));
    let records = replay::number(s, 7);
    let mut reader = Reader::start(list);
    let met = reader.by_ref().take(MOST_RECORDS).count() as u64;
    reader.ended() && met == records && (records == 0 || reader.at == list.len())
}

// Kind 1, a list that is written: the count, the dimension, the values' number, the bytes that are lent, the answer's
// number and the list's length; the values, and the bytes afterwards.
fn writes(s: &[u8]) -> bool {
    let data = replay::after(s, HEAD);
    let n = replay::up_to(MOST_VALUES, replay::number(s, 4));
    let values = replay::first_doubles::<VALUES>(data);
    let room = replay::up_to(MOST_BYTES, replay::number(s, 5));
    let (left, _) = replay::split(replay::after(data, 8 * n as u64), replay::number(s, 5));
    let mut lent = [BYTE_BEFORE; BYTES];
    let out = &mut lent[..room];
    let count = replay::number(s, 2) as usize;
    let dimension = replay::number(s, 3) as usize;
    let is_told = match write::write_list(count, dimension, &values[..n], out) {
        Ok(length) => replay::number(s, 6) == 0 && length as u64 == replay::number(s, 7),
        Err(question) => replay::number(s, 6) == u64::from(u8::from(question)),
    };
    is_told && same_bytes(left, out)
}

// Whether a reader at an offset finds this part there, has ended where it is empty, and goes on after it.
fn is_found(list: &[u8], at: usize, wanted: &[u8]) -> bool {
    let reader = Reader { list, at };
    let next = (at as u64).wrapping_add(wanted.len() as u64);
    reader.ended() == wanted.is_empty()
        && same_bytes(wanted, reader.here())
        && reader.after().at as u64 == next
}

// Kind 2, a track's own bytes, by the call and by a reader: the list's length, the offset and the record's length; the
// list.
fn hands_out(s: &[u8]) -> bool {
    let (list, _) = replay::split(replay::after(s, HEAD), replay::number(s, 2));
    let at = replay::number(s, 3) as usize;
    let wanted = replay::part(list, replay::number(s, 3), replay::number(s, 4));
    let given = record::record(list, at);
    given.len() as u64 == replay::number(s, 4)
        && same_bytes(wanted, given)
        && is_found(list, at, wanted)
}

// Kind 3, whether two records are equal: their lengths, and 1 for yes; the two.
fn compares(s: &[u8]) -> bool {
    let (a, rest) = replay::split(replay::after(s, HEAD), replay::number(s, 2));
    let (b, _) = replay::split(rest, replay::number(s, 3));
    replay::number(s, 4) == u64::from(record::same_record(a, b))
}

// Whether the record at the start of s is answered as it says. A match on an enum: the kind stands in the input.
fn is_met(s: &[u8], kind: Kind) -> bool {
    match kind {
        Kind::Read => reads(s) && walks(s),
        Kind::Written => writes(s),
        Kind::HandedOut => hands_out(s),
        Kind::Compared => compares(s),
    }
}

// As in the other programs: a function over the kinds and their checks would need a trait as long as this.
fn main(rt: HostRuntime) -> io::Result<()> {
    let mut tallies = [Tally::default(); 4];
    for block in Blocks::of(rt.reader()).take(1) {
        for record in block.records() {
            let kind = Kind::of(replay::number(record, 1));
            tallies[kind as usize].count(is_met(record, kind));
        }
    }
    for (kind, tally) in Kind::ALL.iter().zip(&tallies) {
        println!(rt; "{} {kind}, {} differences", tally.cases, tally.differences)?;
    }
    Ok(())
}
