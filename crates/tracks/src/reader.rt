// A list and the next record's offset together. The methods are thin: each takes the reader apart and leaves the work
// to `record`, which takes a plain slice and an offset.
ghost use Rattle.std.specs.Prelude.{◌≡◌, ◌-◌, length};
ghost use Rattle.std.specs.Iterator.{at_most};
ghost use Rattle.tracks.specs.Record.{record_at, OwnBytes, next_offset, at_end, Reads};

use crate::record;

#[derive(Clone, Copy)]
pub struct Reader<'a> {
    pub list: &'a [u8],
    pub at: usize,
}

impl<'a> Reader<'a> {
    // At the first record.
    pub fn start(list: &'a [u8]) -> Reader<'a>
        ensures { (result.list ≡ list.entry) × (result.at ≡ 2) }
    {
        Reader { list, at: 2 }
    }

    // Whether there is no record here.
    pub fn ended(self) -> bool
        ensures { result ≡ at_end self.entry.list.now self.entry.at }
    {
        record::at_end(self.list, self.at)
    }

    // The record here, as a part of the list.
    pub fn here(self) -> &'a [u8]
        ensures { (result.now ≡ record_at self.entry.list.now self.entry.at) × OwnBytes self.entry.list self.entry.at result }
    {
        record::record(self.list, self.at)
    }

    // The reader at the next record.
    pub fn after(self) -> Reader<'a>
        ensures { (result.list ≡ self.entry.list) × (result.at ≡ next_offset self.entry.list.now self.entry.at) }
    {
        Reader {
            list: self.list,
            at: record::next_offset(self.list, self.at),
        }
    }
}

// Each record in turn, from the one here on.
#[tactic(auto, using(crate::proofs::Records::Ends::record_short), unfolding(crate::specs::Record::next_offset))]
impl<'a> Iterator for Reader<'a> {
    type Item = &'a [u8];

    ghost next_gives = { λ before result after. (after.list ≡ before.list) × Reads before.list before.at result after.at };

    ghost remaining = { λ s. at_most (length s.list.now - s.at) };

    fn next(&mut self) -> Option<&'a [u8]> {
        let record = self.here();
        if record.is_empty() {
            return None;
        }
        self.at += record.len();
        Some(record)
    }
}
