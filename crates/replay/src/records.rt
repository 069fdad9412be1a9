// The records of a block, and what stands in one.
ghost use Rattle.std.specs.Prelude.{◌≡◌, ◌+◌, ◌-◌, ◌*◌, ◌%◌, ◌<◌, ◌≤◌, length, drop, MatchOption};
ghost use Rattle.std.specs.Iterator.{at_most};
ghost use Rattle.kernel.specs.Bytes.{word};
ghost use Rattle.replay.specs.Replay.{bytes_at, bytes_after, record_size};

use kernel::bytes;

// Number k of s; 0 where it is not all there.
#[tactic(auto, using(kernel::proofs::Words::word_outside))]
pub fn number(s: &[u8], k: usize) -> u64
    ensures { result ≡ word s.now (8 * k) }
{
    if s.len() / 8 <= k {
        return 0;
    }
    bytes::word(s, 8 * k)
}

// The n bytes of s at an index; none where they are not all there.
#[tactic(auto, using(crate::proofs::Parts::bytes_missing, crate::proofs::Parts::part_there))]
pub fn part(s: &[u8], at: u64, n: u64) -> &[u8]
    ensures { result.now ≡ bytes_at s.now at n }
{
    let from = at as usize;
    let count = n as usize;
    if s.len() < from || s.len() - from < count {
        return &s[..0];
    }
    &s[from..from + count]
}

// What s has after n bytes that are filled up to a whole number.
#[tactic(auto, using(crate::proofs::Parts::none_after, crate::proofs::Parts::left_after))]
pub fn after(s: &[u8], n: u64) -> &[u8]
    ensures { result.now ≡ bytes_after s.now n }
{
    let count = n as usize;
    let zeros = (8 - count % 8) % 8;
    if s.len() < count || s.len() - count < zeros {
        return &s[..0];
    }
    &s[count + zeros..]
}

// The n bytes at the start of s, and what s has after them, once they are filled up to a whole number.
pub fn split(s: &[u8], n: u64) -> (&[u8], &[u8])
    ensures { (result.0.now ≡ bytes_at s.now 0 n) × (result.1.now ≡ bytes_after s.now n) }
{
    (part(s, 0, n), after(s, n))
}

// A number from 0 to most, by one of a record: the rest that is left of n by one more than most.
pub fn up_to(most: u16, n: u64) -> usize
    ensures { (result ≡ n % (most + 1)) × (result ≤ most) }
{
    (n % (u64::from(most) + 1)) as usize
}

// The bytes of the record of s at an index; 0 where it is not all there.
#[tactic(auto, using(crate::proofs::Parts::size_missing, crate::proofs::Parts::size_within), unfolding(crate::specs::Replay::record_size))]
pub fn size(s: &[u8], at: usize) -> usize
    ensures { (result ≡ record_size s.now at) × (result ≤ length s.now - at) }
{
    let numbers = bytes::word(s, at);
    if s.len() / 8 < numbers as usize {
        return 0;
    }
    part(s, at as u64, 8 * numbers).len()
}

// The records of a block, one after the other, each with what follows it. They end where one is not all there, or has
// no numbers.
#[derive(Clone, Copy)]
pub struct Records<'a> {
    pub rest: &'a [u8],
}

impl<'a> Iterator for Records<'a> {
    type Item = &'a [u8];

    ghost next_gives = { λ s r t. MatchOption r ((record_size s.rest.now 0 ≡ 0) × (t.rest.now ≡ s.rest.now))
        (λ x. (x.now ≡ s.rest.now) × (t.rest.now ≡ drop (record_size s.rest.now 0) s.rest.now)) };

    ghost remaining = { λ s. at_most (length s.rest.now) };

    fn next(&mut self) -> Option<&'a [u8]> {
        let record = self.rest;
        let n = size(record, 0);
        if n == 0 {
            return None;
        }
        self.rest = &record[n..];
        Some(record)
    }
}
