// How many rows have three, two and one track.
ghost use Rattle.std.specs.Prelude.{◌≡◌, ◌*◌, ◌≤◌, eqb, length};
ghost use Rattle.merge.specs.Rows.{tracks_among};
ghost use Rattle.merge.specs.Buffer.{tracks_in, how_many};
ghost use Rattle.merge.specs.Private.{counts_in};

use crate::{Counts, NO_TRACK};

// How many tracks stand in a row of these indices.
#[tactic(auto, unfolding(crate::specs::Rows::tracks_among))]
fn tracks_among(i: u8, j: u8, k: u8) -> usize
    ensures { result ≡ tracks_among i j k }
{
    usize::from(i != NO_TRACK) + usize::from(j != NO_TRACK) + usize::from(k != NO_TRACK)
}

// How many of the first `total` rows have n tracks. One chain; that of merge_list's `with_verdict` asks a row otherwise.
fn rows_with(rows: &[u8], total: usize, n: usize) -> usize
    requires { 4 * total ≤ length rows.now }
    ensures { result ≡ how_many total (λ x. eqb (tracks_in rows.now x) n) }
{
    let (rows, _) = rows.as_chunks::<4>();
    rows[..total]
        .iter()
        .filter(|row| tracks_among(row[0], row[1], row[2]) == n)
        .count()
}

// The counts of the first `total` rows.
pub(crate) fn count_rows(rows: &[u8], total: usize) -> Counts
    requires { 4 * total ≤ length rows.now }
    ensures { result ≡ counts_in rows.now total }
{
    let full = rows_with(rows, total, 3);
    let half = rows_with(rows, total, 2);
    let single = rows_with(rows, total, 1);
    Counts { full, half, single }
}
