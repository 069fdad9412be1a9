// A track's own bytes, as a part of the caller's list.
ghost use Rattle.std.specs.Prelude.{◌≡◌, ◌≤◌, length, get_or, unwrap_or, IfSome};
ghost use Rattle.kernel.specs.Bytes.{same_bytes};
ghost use Rattle.tracks.specs.Record.{record_end, record_at, OwnBytes, track_record, next_offset, at_end};
ghost use Rattle.tracks.specs.Calls.{track_offsets};

use crate::read;
use crate::read::ListSize;
use kernel::bytes;
use kernel::question::Question;

// Where the record that starts at an offset ends, among so many records, if one of them starts there.
#[tactic(auto, using(crate::proofs::Records::Ends::end_laws))]
fn find_end(list: &[u8], size: ListSize, at: usize) -> Option<usize>
    requires { (size.dimension ≤ 9) × (2 ≤ length list.now) }
    ensures end { unwrap_or result 0 ≡ record_end list.now size.dimension at 2 size.count }
    ensures within { IfSome result (λ end. (at ≤ end) × (end ≤ length list.now)) }
{
    let mut here = 2;
    // Each record goes after the one before. A `try_fold` would hand out the end that is found as an error.
    for _ in 0..size.count {
        let next = read::check_track(list, size.dimension, here).ok()?;
        if here == at {
            return Some(next);
        }
        here = next;
    }
    None
}

// A track's own bytes: the record of an accepted list that starts at an offset, or an empty part.
#[tactic(auto, using(crate::proofs::Reading::Known::record_laws))]
pub fn record(list: &[u8], at: usize) -> &[u8]
    ensures { (result.now ≡ record_at list.now at) × OwnBytes list.entry at result }
{
    let Ok(size) = read::check_list(list) else {
        return &list[..0];
    };
    let Some(end) = find_end(list, size, at) else {
        return &list[..0];
    };
    &list[at..end]
}

// Where each track of an accepted list starts, and after them where the last one ends, so that a caller takes each
// track's own bytes without going through the list again.
#[tactic(auto, using(crate::proofs::Reading::Offsets::offset_laws))]
pub fn track_offsets(list: &[u8], offsets: &mut [usize]) -> Result<ListSize, Question>
    ensures { (result, offsets.new) ≡ track_offsets list.now offsets.old }
{
    let mut found = [0; 33];
    let size = read::check_offsets(list, &mut found)?;
    if offsets.len() <= size.count {
        return Err(Question::Length);
    }
    read::copy_offsets(&found, size.count + 1, offsets);
    Ok(size)
}

// The record of track i, by the offsets that `track_offsets` leaves: a track's own bytes without going through the list
// again. Where the offsets are no part's ends, as in an order that falls or past the list, or there are none for i, it
// is an empty part.
#[tactic(auto, unfolding(crate::specs::Record::track_record))]
pub fn track_record<'a>(list: &'a [u8], offsets: &[usize], i: usize) -> &'a [u8]
    ensures { (result.now ≡ track_record list.now offsets.now i) × OwnBytes list.entry (get_or offsets.now i 0) result }
{
    if offsets.len() <= i || offsets.len() == i + 1 {
        return &list[..0];
    }
    let start = offsets[i];
    let end = offsets[i + 1];
    if list.len() < end || end < start {
        return &list[..0];
    }
    &list[start..end]
}

// The offset after the record at an offset; the offset itself where no record starts there.
#[tactic(auto, using(crate::proofs::Records::Ends::record_short), unfolding(crate::specs::Record::next_offset))]
pub fn next_offset(list: &[u8], at: usize) -> usize
    ensures { result ≡ next_offset list.now at }
{
    at + record(list, at).len()
}

// Whether no record starts at an offset, as at the end of a list.
#[tactic(auto, unfolding(crate::specs::Record::at_end))]
pub fn at_end(list: &[u8], at: usize) -> bool
    ensures { result ≡ at_end list.now at }
{
    record(list, at).is_empty()
}

// Whether two records are equal.
pub fn same_record(a: &[u8], b: &[u8]) -> bool
    ensures { result ≡ same_bytes a.now b.now }
{
    bytes::same_bytes(a, b)
}
