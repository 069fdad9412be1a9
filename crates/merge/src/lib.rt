// The merge of three track lists: rows of base, ours and theirs with a verdict each.
#![tactic(auto)]

ghost use Rattle.std.specs.Prelude.{◌≡◌, length};
ghost use Rattle.merge.specs.Merge.{merging, after_merge};
ghost use Rattle.merge.specs.Demand3.{Demanded};

mod counting;
mod equality;
mod fusing;
pub mod inside;
mod keys;
mod pairings;
mod questions;
mod rows;
pub mod verdict;
pub mod winner;
mod writing;

use inside::merge_fused;
pub use kernel::question::Question;

// What stands in a row for no track: a byte, since C reads a row's bytes.
pub const NO_TRACK: u8 = pairing::NOBODY;

// How many rows have three, two and one track.
#[derive(Clone, Copy, Debug, PartialEq, Eq)]
pub struct Counts {
    pub full: usize,
    pub half: usize,
    pub single: usize,
}

// Merges ours and theirs over their base. The rows go to the front of the buffer, four bytes each, and the rest of it stays.
#[tactic(auto, using(crate::proofs::Demand::EveryAnswer::demanded))]
pub fn merge(
    base: &[u8],
    ours: &[u8],
    theirs: &[u8],
    floor: f64,
    gate: f64,
    rows: &mut [u8],
) -> Result<Counts, Question>
    ensures rows_after { (result, rows.new) ≡ after_merge (merging base.now ours.now theirs.now floor gate (length rows.old)) rows.old }
    ensures demanded { Demanded base.now ours.now theirs.now floor gate rows.old result rows.new }
{
    let mut values = [0.0f64; 1728];
    merge_fused(base, ours, theirs, floor, gate, rows, &mut values)
}
