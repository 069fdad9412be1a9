// The records that rows take, one after another: copied out of a list, or written where the track is fused.
ghost use Rattle.std.specs.Prelude.{◌+◌, ◌≤◌, length};
ghost use Rattle.tracks.specs.Record.{track_record};
ghost use Rattle.tracks.specs.Private.{Writes};
ghost use Rattle.merge_list.specs.Private.{row_in, rows_in, placed_in, sources, record_taken, records_taken, RecordsFit, HasDimension, HasPlace, RowToTake, ToTake};

use dense::shape::row;
use merge::verdict::{Offsets, Verdict};
use tracks::inside::{fields, write_track};
use tracks::record::track_record;

// Base, ours and theirs, and values in which a fused track stands in the place of its base track.
#[derive(Clone, Copy)]
pub(crate) struct Lists<'a> {
    pub(crate) base: &'a [u8],
    pub(crate) ours: &'a [u8],
    pub(crate) theirs: &'a [u8],
    pub(crate) values: &'a [f64],
}

// Copies the record of track i of a list into a slice from an index on, and gives the index after it.
#[tactic(auto, using(crate::proofs::Taken::part_copied))]
fn copy_record(list: &[u8], offsets: &[usize], i: u8, out: &mut [u8], at: usize) -> usize
    requires { at + length (track_record list.now offsets.now i) ≤ length out.old }
    ensures { Writes (track_record list.now offsets.now i) out.old at result out.new }
{
    let record = track_record(list, offsets, i as usize);
    let end = at + record.len();
    out[at..end].copy_from_slice(record);
    end
}

// The same of the record of the fields that stand in values in the place of track i of base. It is written, not copied.
#[tactic(auto, unfolding(crate::specs::Private::placed_record))]
fn write_placed(lists: Lists, i: u8, out: &mut [u8], at: usize) -> usize
    requires { HasDimension lists.base.now × HasPlace lists.base.now lists.values.now i × (at + length (placed_in lists i) ≤ length out.old) }
    ensures { Writes (placed_in lists.entry i) out.old at result out.new }
{
    let d = lists.base[1] as usize;
    write_track(row(lists.values, fields(d), i as usize), d, out, at)
}

// The same of the record that a row takes, if it takes one.
#[tactic(auto, using(kernel::proofs::Lists::over_none), unfolding(crate::specs::Private::record_taken))]
fn write_taken(lists: Lists, offsets: &Offsets, row: [u8; 4], out: &mut [u8], at: usize) -> usize
    requires to_take { RowToTake lists row }
    requires fits { at + length (record_taken (sources lists offsets.now) (row_in row 0)) ≤ length out.old }
    ensures { Writes (record_taken (sources lists.entry offsets.now) (row_in row 0)) out.old at result out.new }
{
    match Verdict::try_from(row[3]) {
        Ok(Verdict::Keep) => copy_record(lists.base, &offsets.base, row[0], out, at),
        Ok(Verdict::TakeOurs) => copy_record(lists.ours, &offsets.ours, row[1], out, at),
        Ok(Verdict::TakeTheirs) => copy_record(lists.theirs, &offsets.theirs, row[2], out, at),
        Ok(Verdict::Fuse) => write_placed(lists, row[0], out, at),
        Ok(Verdict::Deleted | Verdict::Conflict) | Err(_) => at,
    }
}

// Writes the records that the first `total` rows take, after the two bytes of count and dimension, and gives where they
// end.
pub(crate) fn write_records(
    lists: Lists,
    offsets: &Offsets,
    rows: &[u8],
    total: usize,
    out: &mut [u8],
) -> usize
    requires to_take { ToTake lists rows.now total }
    requires records_fit { RecordsFit (sources lists offsets.now) (rows_in rows.now total) out.old }
    ensures { Writes (records_taken (sources lists.entry offsets.now) (rows_in rows.now total)) out.old 2 result out.new }
{
    let (rows, _) = rows.as_chunks::<4>();
    let mut at = 2;
    for row in &rows[..total] {
        at = write_taken(lists, offsets, *row, out, at);
    }
    at
}
