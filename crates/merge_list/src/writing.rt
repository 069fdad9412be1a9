// The merged list's questions, and the list in the caller's buffer.
ghost use Rattle.std.specs.Prelude.{◌≡◌, ◌≤◌, length};
ghost use Rattle.tracks.specs.Calls.{write_answer, write_bytes};
ghost use Rattle.tracks.specs.Private.{Writes};
ghost use Rattle.merge.specs.Verdict.{verdict_number};
ghost use Rattle.merge_list.specs.MergeList.{with_verdict, takers, list_of_rows};
ghost use Rattle.merge_list.specs.Private.{rows_in, located, list_taken, RowsStand, ToList, ToPut};

use crate::records::{Lists, write_records};
use kernel::question::Question;
use merge::verdict::{Offsets, Verdict};
use tracks::record::track_offsets;

// How many of the first `total` rows have a verdict. One chain; that of merge's `rows_with` asks a row otherwise.
fn with_verdict(rows: &[u8], total: usize, verdict: Verdict) -> usize
    requires { RowsStand rows.now total }
    ensures { (result ≡ with_verdict (verdict_number verdict) (rows_in rows.now total)) × (result ≤ 96) }
{
    let (rows, _) = rows.as_chunks::<4>();
    rows[..total]
        .iter()
        .filter(|row| row[3] == u8::from(verdict))
        .count()
}

// How many of them take a track.
fn takers(rows: &[u8], total: usize) -> usize
    requires { RowsStand rows.now total }
    ensures { result ≡ takers (rows_in rows.now total) }
{
    with_verdict(rows, total, Verdict::Keep)
        + with_verdict(rows, total, Verdict::TakeOurs)
        + with_verdict(rows, total, Verdict::TakeTheirs)
        + with_verdict(rows, total, Verdict::Fuse)
}

// Writes the list of so many tracks, and gives its length.
fn put_list(lists: Lists, rows: &[u8], total: usize, count: usize, list: &mut [u8]) -> usize
    requires { ToPut lists rows.now total count list.old }
    ensures writes { Writes (list_taken (located lists.entry) (rows_in rows.now total)) list.old 0 result list.new }
    ensures upper_bound { result ≤ length list.new }
{
    let mut offsets = Offsets {
        base: [0usize; 33],
        ours: [0usize; 33],
        theirs: [0usize; 33],
    };
    // which have nothing to refuse, since the merge read these lists
    let _ = track_offsets(lists.base, &mut offsets.base);
    let _ = track_offsets(lists.ours, &mut offsets.ours);
    let _ = track_offsets(lists.theirs, &mut offsets.theirs);
    list[0] = count as u8;
    list[1] = lists.base[1];
    write_records(lists, &offsets, rows, total, list)
}

// Writes the list of the tracks that the first `total` rows of a merge of three lists take. It stands in a local array
// before its length is asked; no list of at most 32 tracks is longer than that.
#[tactic(auto, using(crate::proofs::Taken::front_written), unfolding(crate::specs::MergeList::list_of_rows))]
pub(crate) fn write_chosen(
    lists: Lists,
    rows: &[u8],
    total: usize,
    out: &mut [u8],
) -> Result<usize, Question>
    requires { ToList lists rows.now total }
    ensures value { result ≡ write_answer (list_of_rows (length out.old) (rows_in rows.now total)
        (list_taken (located lists.entry) (rows_in rows.now total))) }
    ensures out_after { out.new ≡ write_bytes (list_of_rows (length out.old) (rows_in rows.now total)
        (list_taken (located lists.entry) (rows_in rows.now total))) out.old }
{
    if with_verdict(rows, total, Verdict::Conflict) != 0 {
        return Err(Question::NoConflict);
    }
    let count = takers(rows, total);
    if count > 32 {
        return Err(Question::MergedCount);
    }
    let mut list = [0u8; 14050];
    let length = put_list(lists, rows, total, count, &mut list);
    if out.len() < length {
        return Err(Question::ListBuffer);
    }
    out[..length].copy_from_slice(&list[..length]);
    Ok(length)
}
