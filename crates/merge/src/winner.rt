// The winner's bytes: the record that a row's verdict takes, as a part of its list.
ghost use Rattle.std.specs.Prelude.{◌≡◌};
ghost use Rattle.merge.specs.Winner.{place_in, winning, winner_bytes, WinnersOwn};

use crate::verdict::Verdict;
use tracks::record::{track_offsets, track_record};

// Where a record stands in its list.
#[derive(Clone, Copy, Debug, PartialEq, Eq)]
pub struct Part {
    pub start: usize,
    pub length: usize,
}

// Whose record wins, and where it stands in that list.
#[derive(Clone, Copy, Debug, PartialEq, Eq)]
pub enum WinningPart {
    Ours(Part),
    Theirs(Part),
}

// Where the record of track i of a list stands, unless that list or the other is refused. Each is checked once.
fn place_in(list: &[u8], other: &[u8], i: usize) -> Option<Part>
    ensures { result ≡ place_in list.now other.now i }
{
    let mut offsets = [0usize; 33];
    let mut other_offsets = [0usize; 33];
    let size = track_offsets(list, &mut offsets).ok()?;
    track_offsets(other, &mut other_offsets).ok()?;
    if size.count <= i {
        return None;
    }
    Some(Part {
        start: offsets[i],
        length: track_record(list, &offsets, i).len(),
    })
}

// Whose record wins by a row of a merge, and where it stands; None where the verdict takes none, or a list is refused.
#[tactic(auto, unfolding(crate::specs::Winner::winning))]
pub fn winning(ours: &[u8], theirs: &[u8], row: [u8; 4]) -> Option<WinningPart>
    ensures { result ≡ winning ours.now theirs.now row }
{
    match Verdict::try_from(row[3]).ok()? {
        Verdict::TakeOurs => place_in(ours, theirs, row[1] as usize).map(WinningPart::Ours),
        Verdict::TakeTheirs => place_in(theirs, ours, row[2] as usize).map(WinningPart::Theirs),
        Verdict::Keep | Verdict::Deleted | Verdict::Conflict | Verdict::Fuse => None,
    }
}

// The winning record's own bytes, as a part of ours or of theirs, or an empty part.
#[tactic(auto, using(crate::proofs::Winning::ours_within, crate::proofs::Winning::theirs_within, crate::proofs::Winning::ours_bytes, crate::proofs::Winning::theirs_bytes))]
pub fn winner<'a>(ours: &'a [u8], theirs: &'a [u8], row: [u8; 4]) -> &'a [u8]
    ensures result_value { result.now ≡ winner_bytes ours.now theirs.now (winning ours.now theirs.now row) }
    ensures winners_own { WinnersOwn ours.entry theirs.entry (winning ours.now theirs.now row) result }
{
    match winning(ours, theirs, row) {
        None => &ours[..0],
        Some(WinningPart::Ours(part)) => &ours[part.start..part.start + part.length],
        Some(WinningPart::Theirs(part)) => &theirs[part.start..part.start + part.length],
    }
}
