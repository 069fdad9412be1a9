// Reading a list. Every question is put before anything is written.
ghost use Rattle.std.specs.Prelude.{◌≡◌, ◌+◌, ◌/◌, ◌<◌, ◌≤◌, [], ◌∷◌, length, take};
ghost use Rattle.kernel.specs.Answer.{and_then};
ghost use Rattle.kernel.specs.Lists.{over, tabulate};
ghost use Rattle.tracks.specs.Read.{stored, field, items, track, tracks, contents, reading};
ghost use Rattle.tracks.specs.Calls.{joined, read_answer, read_values, read_with_offsets};
ghost use Rattle.tracks.specs.Record.{end_of};
ghost use Rattle.tracks.specs.Private.{ends, Within, Puts, PutsField, PutsTrack, Offsets, TracksChecked, FieldsChecked, FieldPut, TrackPut, TracksPut};

use crate::{inside, layout};
use kernel::bytes;
use kernel::question::Question;

// How many tracks a list has, and of which dimension.
#[derive(Clone, Copy, Debug, PartialEq, Eq)]
pub struct ListSize {
    pub count: usize,
    pub dimension: usize,
}

// Where the field stored at an offset ends; questions 12, 14 and 15.
#[tactic(auto, unfolding(crate::specs::Read::stored))]
fn check_stored(list: &[u8], at: usize) -> Result<usize, Question>
    requires { at ≤ length list.now }
    ensures { result ≡ ends (stored list.now at) }
{
    if list.len() - at < 8 {
        return Err(Question::Present);
    }
    let bits = bytes::word(list, at);
    if !layout::finite(bits) {
        return Err(Question::FiniteField);
    }
    if bits == 0 {
        return Err(Question::NonzeroField);
    }
    Ok(at + 8)
}

// Where field k of the track whose map is at an offset ends.
#[tactic(auto, unfolding(crate::specs::Read::field))]
fn check_field(list: &[u8], map: usize, k: usize, at: usize) -> Result<usize, Question>
    requires { (map + k / 8 < length list.now) × (at ≤ length list.now) }
    ensures { result ≡ ends (field list.now map k at) }
{
    if layout::stands(list, map, k) {
        return check_stored(list, at);
    }
    Ok(at)
}

// Where the f fields, from a start on, of the track whose map is at an offset end. It stops at the first that is
// refused: with a loop that carries the refusal along, as that over tracks does, reading the largest list took 40 %
// longer.
#[tactic(auto, using(crate::proofs::Reading::Items::ends_more, crate::proofs::Reading::Accepted::field_within), unfolding(crate::specs::Read::items))]
fn check_fields(list: &[u8], f: usize, map: usize, start: usize) -> Result<usize, Question>
    requires { FieldsChecked list.now f map start }
    ensures { result ≡ ends (items (field list.now map) start f) }
{
    let mut at = start;
    // By `(0..f).try_fold(start, ..)` it is not proved that each call finds its offset within the list, nor what the
    // calls give: no lemma of the library speaks of `try_fold`.
    for k in 0..f {
        at = check_field(list, map, k, at)?;
    }
    Ok(at)
}

// Where the track of dimension d at an offset ends.
#[tactic(auto, using(crate::proofs::Reading::Items::ends_made), unfolding(crate::specs::Read::track, crate::specs::Layout::map_bits))]
pub(crate) fn check_track(list: &[u8], d: usize, at: usize) -> Result<usize, Question>
    requires { (d ≤ 9) × (at ≤ length list.now) }
    ensures { result ≡ ends (track list.now d at) }
{
    let f = inside::fields(d);
    let size = layout::map_bytes(d);
    if list.len() - at < size {
        return Err(Question::Present);
    }
    if !layout::spare_clear(list, f, at) {
        return Err(Question::SpareBits);
    }
    check_fields(list, f, at, at + size)
}

// Where the track of dimension d ends that follows tracks which end as told, unless one of those is refused.
fn next_track(list: &[u8], d: usize, end: Result<usize, Question>) -> Result<usize, Question>
    requires { (d ≤ 9) × Within list.now end }
    ensures { result ≡ and_then end (λ at. ends (track list.now d at)) }
{
    check_track(list, d, end?)
}

// Where so many tracks end. Where each track starts is stored, and where the last one ends; 0 in place of what follows
// a refusal. It carries a refusal along and does not stop, so that all of these places are written.
fn check_tracks(list: &[u8], size: ListSize, offsets: &mut [usize]) -> Result<usize, Question>
    requires { TracksChecked list.now size offsets.old }
    ensures value { result ≡ ends (tracks list.now size.dimension size.count) }
    ensures offsets_after { offsets.new ≡ over offsets.old 0 (tabulate (size.count + 1) (λ j. end_of (tracks list.now size.dimension j))) }
{
    let mut end = Ok(2);
    // Each track goes after the one before.
    for offset in offsets[..size.count].iter_mut() {
        *offset = end.unwrap_or(0);
        end = next_track(list, size.dimension, end);
    }
    offsets[size.count] = end.unwrap_or(0);
    end
}

// The questions of a list, but for the room for its values, in one pass: where its tracks start and end is stored on
// the way.
#[tactic(auto, using(crate::proofs::Reading::Accepted::question_laws))]
pub(crate) fn check_offsets(list: &[u8], offsets: &mut [usize]) -> Result<ListSize, Question>
    requires { length offsets.old ≡ 33 }
    ensures value { result ≡ read_answer (contents list.now) }
    ensures offsets { Offsets list.now offsets.old offsets.new }
{
    if list.len() < 2 {
        return Err(Question::Header);
    }
    let size = ListSize {
        count: list[0] as usize,
        dimension: list[1] as usize,
    };
    if !layout::count_met(size.count) {
        return Err(Question::Count);
    }
    if !layout::dimension_met(size.dimension) {
        return Err(Question::Dimension);
    }
    let end = check_tracks(list, size, offsets)?;
    if end != list.len() {
        return Err(Question::NothingAfter);
    }
    Ok(size)
}

// The questions of a list, but for the room for its values.
pub(crate) fn check_list(list: &[u8]) -> Result<ListSize, Question>
    ensures { result ≡ read_answer (contents list.now) }
{
    let mut offsets = [0; 33];
    check_offsets(list, &mut offsets)
}

// Stores field k of an accepted track, and gives the offset after the field.
#[tactic(auto, using(crate::proofs::Reading::Accepted::field_laws))]
fn put_field(list: &[u8], map: usize, k: usize, at: usize, value: &mut f64) -> usize
    requires { FieldPut list.now map k at }
    ensures { PutsField (field list.now map k at) result value.new }
{
    if layout::stands(list, map, k) {
        *value = f64::from_bits(bytes::word(list, at));
        return at + 8;
    }
    *value = 0.0;
    at
}

// Stores the fields of an accepted track, and gives the offset after the track.
fn put_track(list: &[u8], d: usize, map: usize, values: &mut [f64]) -> usize
    requires { TrackPut list.now d map values.old }
    ensures { PutsTrack (track list.now d map) result values.new }
{
    let mut at = map + layout::map_bytes(d);
    // Each field goes after the one before, whose length the map tells.
    for (k, value) in values.iter_mut().enumerate() {
        at = put_field(list, map, k, at, value);
    }
    at
}

// Stores the fields of so many tracks, and gives the offset after the last one.
fn put_tracks(list: &[u8], size: ListSize, values: &mut [f64]) -> usize
    requires { TracksPut list.now size values.old }
    ensures { Puts joined (tracks list.now size.dimension size.count) values.old 0 result values.new }
{
    let f = inside::fields(size.dimension);
    let mut at = 2;
    // Over `chunks_exact_mut(f).take(size.count)` the invariant has no name for the values that are stored.
    for j in 0..size.count {
        at = put_track(list, size.dimension, at, &mut values[j * f..(j + 1) * f]);
    }
    at
}

// Reads a list: its tracks' fields go to the front of the values, in their order.
#[tactic(auto, using(crate::proofs::Reading::Known::read_laws))]
pub fn read_list(list: &[u8], values: &mut [f64]) -> Result<ListSize, Question>
    ensures value { result ≡ read_answer (reading list.now (length values.old)) }
    ensures values_after { values.new ≡ read_values (reading list.now (length values.old)) values.old }
{
    let size = check_list(list)?;
    if values.len() < size.count * inside::fields(size.dimension) {
        return Err(Question::Length);
    }
    put_tracks(list, size, values);
    Ok(size)
}

// Copies the first n offsets.
#[tactic(auto, using(crate::proofs::Slices::Lists::front_copied))]
pub(crate) fn copy_offsets(from: &[usize], n: usize, to: &mut [usize])
    requires { (n ≤ length from.now) × (n ≤ length to.old) }
    ensures { to.new ≡ over to.old 0 (take n from.now) }
{
    to[..n].copy_from_slice(&from[..n]);
}

// Reads a list and says where its tracks stand: the fields go to the front of the values, and where each track starts
// to the front of the offsets, with the end of the last one after them. The list is checked once.
#[tactic(auto, using(crate::proofs::Reading::Offsets::placed_laws))]
pub fn read_with_offsets(
    list: &[u8],
    values: &mut [f64],
    offsets: &mut [usize],
) -> Result<ListSize, Question>
    ensures { (result, (values.new, offsets.new)) ≡ read_with_offsets list.now values.old offsets.old }
{
    let mut found = [0; 33];
    let size = check_offsets(list, &mut found)?;
    if values.len() < size.count * inside::fields(size.dimension) || offsets.len() <= size.count {
        return Err(Question::Length);
    }
    put_tracks(list, size, values);
    copy_offsets(&found, size.count + 1, offsets);
    Ok(size)
}
