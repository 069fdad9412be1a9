// The rows by the partners of the three pairings, group by group: base tracks, then ours without base, then the remaining theirs. Their
// verdicts are decided when all of them stand.
ghost use Rattle.std.specs.Prelude.{◌≡◌, ◌+◌, ◌*◌, ◌≤◌, [], ◌∷◌, length};
ghost use Rattle.kernel.specs.Lists.{over};
ghost use Rattle.merge.specs.Private.{undecided, undecided_row, rows_by, rows_bytes, base_group, ours_group, theirs_group, Appended, RowsRoom, AllRowsRoom};

use crate::NO_TRACK;
use crate::pairings::Pairings;
use crate::questions::Sizes;
use crate::verdict::Verdict;

// Writes row r of three indices, its verdict not yet decided, and gives the row after it.
fn put_row(i: u8, j: u8, k: u8, r: usize, rows: &mut [u8]) -> usize
    requires { (r ≤ 96) × (4 * r + 4 ≤ length rows.old) }
    ensures { Appended (undecided_row i j k ∷ []) r rows.old result rows.new }
{
    rows[4 * r..4 * r + 4].copy_from_slice(&[i, j, k, u8::from(Verdict::Keep)]);
    r + 1
}

// Writes the rows of m base tracks, by their partners in ours and in theirs.
fn base_rows(ours_of: [u8; 32], theirs_of: [u8; 32], m: usize, rows: &mut [u8])
    requires { RowsRoom m 0 rows.old }
    ensures { rows.new ≡ over rows.old 0 (rows_bytes (base_group ours_of theirs_of m)) }
{
    // The index stands in the row, is the row's place and is read at in two tables: by `zip`, `take` and `enumerate`
    // on the tables it is no shorter, and the proof must tell what they yield.
    for i in 0..m {
        put_row(i as u8, ours_of[i], theirs_of[i], i, rows);
    }
}

// Writes the rows of those of n tracks of ours that have no base track, by their partners in base and in theirs, from
// row `at` on, and gives the row after them.
fn ours_rows(base_of: [u8; 32], theirs_of: [u8; 32], n: usize, at: usize, rows: &mut [u8]) -> usize
    requires { RowsRoom n at rows.old }
    ensures { Appended (ours_group base_of theirs_of n) at rows.old result rows.new }
{
    let mut r = at;
    // As in `base_rows`; and each row goes after those that were wanted before.
    for j in 0..n {
        if base_of[j] == NO_TRACK {
            r = put_row(NO_TRACK, j as u8, theirs_of[j], r, rows);
        }
    }
    r
}

// Writes the rows of those of l tracks of theirs that have neither, by their partners in base and in ours, from row
// `at` on, and gives the row after them.
fn theirs_rows(base_of: [u8; 32], ours_of: [u8; 32], l: usize, at: usize, rows: &mut [u8]) -> usize
    requires { RowsRoom l at rows.old }
    ensures { Appended (theirs_group base_of ours_of l) at rows.old result rows.new }
{
    let mut r = at;
    // As in `ours_rows`.
    for k in 0..l {
        if base_of[k] == NO_TRACK && ours_of[k] == NO_TRACK {
            r = put_row(NO_TRACK, NO_TRACK, k as u8, r, rows);
        }
    }
    r
}

// Writes the rows of lists of these sizes, by the partners of the three pairings, and gives how many there are.
pub(crate) fn write_rows(p: Pairings, sizes: Sizes, rows: &mut [u8]) -> usize
    requires { AllRowsRoom sizes rows.old }
    ensures { Appended (rows_by undecided p sizes) 0 rows.old result rows.new }
{
    let base_ours = p.base_ours;
    let base_theirs = p.base_theirs;
    let ours_theirs = p.ours_theirs;
    base_rows(base_ours.firsts, base_theirs.firsts, sizes.base, rows);
    let r = ours_rows(
        base_ours.seconds,
        ours_theirs.firsts,
        sizes.ours,
        sizes.base,
        rows,
    );
    theirs_rows(
        base_theirs.seconds,
        ours_theirs.seconds,
        sizes.theirs,
        r,
        rows,
    )
}
