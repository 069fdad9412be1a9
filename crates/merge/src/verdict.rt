// The verdict on a row, by the records of its tracks.
ghost use Rattle.std.specs.Prelude.{◌≡◌, ◌<◌, cond, MatchResult};
ghost use Rattle.kernel.specs.Lists.{over, tabulate};
ghost use Rattle.merge.specs.Rows.{verdict, Equal, deleted, conflict};
ghost use Rattle.merge.specs.Fused.{fuse};
ghost use Rattle.merge.specs.Verdict.{verdict_number};
ghost use Rattle.merge.specs.Private.{ThreeIndices, RowsToDecide, verdict_held, decided_row, rows_bytes};

use crate::NO_TRACK;
use crate::equality::{Placed, same_tracks};

// What becomes of a row's tracks; a row has the number.
#[derive(Clone, Copy, Debug, PartialEq, Eq)]
pub enum Verdict {
    Keep = 0,
    TakeOurs = 1,
    TakeTheirs = 2,
    Deleted = 3,
    Conflict = 4,
    Fuse = 5,
}

// The number of a verdict in a row.
impl From<Verdict> for u8 {
    ghost from_gives = { λ verdict n. n ≡ verdict_number verdict };

    fn from(verdict: Verdict) -> u8 {
        verdict as u8
    }
}

// That a number is above that of the last verdict.
#[derive(Clone, Copy, Debug, PartialEq, Eq)]
pub struct NoVerdict;

// The verdict with a number.
impl TryFrom<u8> for Verdict {
    type Error = NoVerdict;

    ghost try_from_gives = { λ n r. MatchResult r (λ v. verdict_number v ≡ n) (λ e. fuse < n) };

    fn try_from(number: u8) -> Result<Verdict, NoVerdict> {
        match number {
            0 => Ok(Verdict::Keep),
            1 => Ok(Verdict::TakeOurs),
            2 => Ok(Verdict::TakeTheirs),
            3 => Ok(Verdict::Deleted),
            4 => Ok(Verdict::Conflict),
            5 => Ok(Verdict::Fuse),
            _ => Err(NoVerdict),
        }
    }
}

// Where the tracks of base, ours and theirs start, and where the last one of each ends.
#[derive(Clone, Copy)]
pub struct Offsets {
    pub base: [usize; 33],
    pub ours: [usize; 33],
    pub theirs: [usize; 33],
}

// Base, ours and theirs.
#[derive(Clone, Copy)]
pub(crate) struct Lists<'a> {
    pub(crate) base: Placed<'a>,
    pub(crate) ours: Placed<'a>,
    pub(crate) theirs: Placed<'a>,
}

// The indices of a row.
#[derive(Clone, Copy)]
pub(crate) struct Indices {
    pub(crate) base: u8,
    pub(crate) ours: u8,
    pub(crate) theirs: u8,
}

// The verdict on a track of base that one side deleted, by whether the other side left it as it was.
fn deleted_if(left: bool) -> Verdict
    ensures { verdict_number result ≡ cond left deleted conflict }
{
    if left {
        Verdict::Deleted
    } else {
        Verdict::Conflict
    }
}

// The verdict by which of the three tracks are there, and which of their records are equal.
#[tactic(auto, unfolding(crate::specs::Rows::verdict))]
fn decide(
    base: bool,
    ours: bool,
    theirs: bool,
    ours_base: bool,
    theirs_base: bool,
    ours_theirs: bool,
) -> Verdict
    ensures { verdict_number result ≡ verdict base ours theirs (record { ours_base = ours_base; theirs_base = theirs_base; ours_theirs = ours_theirs }) }
{
    match (base, ours, theirs) {
        (true, true, true) => {
            if ours_base && theirs_base {
                Verdict::Keep
            } else if ours_base {
                Verdict::TakeTheirs
            } else if theirs_base || ours_theirs {
                Verdict::TakeOurs
            } else {
                Verdict::Conflict
            }
        }
        (true, true, false) => deleted_if(ours_base),
        (true, false, true) => deleted_if(theirs_base),
        (true, false, false) => Verdict::Deleted,
        (false, true, true) if ours_theirs => Verdict::TakeOurs,
        (false, true, true) => Verdict::Conflict,
        (false, true, false) => Verdict::TakeOurs,
        (false, false, true) => Verdict::TakeTheirs,
        (false, false, false) => Verdict::Keep,
    }
}

// The verdict on the tracks with these indices.
fn verdict_on(lists: Lists, row: Indices) -> Verdict
    requires { ThreeIndices lists row }
    ensures { verdict_number result ≡ verdict_held lists.entry row.base row.ours row.theirs }
{
    let i = row.base;
    let j = row.ours;
    let k = row.theirs;
    decide(
        i != NO_TRACK,
        j != NO_TRACK,
        k != NO_TRACK,
        same_tracks(lists.ours, j, lists.base, i),
        same_tracks(lists.theirs, k, lists.base, i),
        same_tracks(lists.ours, j, lists.theirs, k),
    )
}

// Writes the verdicts of the first `total` rows, whose indices stand.
pub(crate) fn write_verdicts(lists: Lists, total: usize, rows: &mut [u8])
    requires { RowsToDecide lists total rows.old }
    ensures { rows.new ≡ over rows.old 0 (rows_bytes (tabulate total (decided_row lists.entry rows.old))) }
{
    // By `as_chunks_mut`, a row an array, the proof stays open: of the slice it then knows only the length.
    for r in 0..total {
        let row = Indices {
            base: rows[4 * r],
            ours: rows[4 * r + 1],
            theirs: rows[4 * r + 2],
        };
        rows[4 * r + 3] = u8::from(verdict_on(lists, row));
    }
}
