// The track lists.
ghost use Rattle.std.specs.Prelude.{◌≡◌};
ghost use Rattle.std.proofs.Math.ListN as ListN;
ghost use Rattle.tracks.specs.Read as Read;
ghost use Rattle.tracks.specs.Write as Write;
ghost use Rattle.tracks.specs.Calls as Calls;
ghost use Rattle.tracks.specs.Record as Record;
ghost use Rattle.capi.specs.Told.{told, told_read};

use crate::told::{enter, enter_read};
use tracks::{read, record, write};

// The tracks' fields of a list into values, and its count and dimension.
#[unsafe(no_mangle)]
pub extern "C" fn pel_read_list(
    list: &[u8],
    values: &mut [f64],
    count: &mut usize,
    dimension: &mut usize,
) -> u32
    ensures dimension_after { (result, (count.new, dimension.new))
        ≡ told_read (Calls.read_answer (Read.reading list.now (ListN.length values.old))) count.old dimension.old }
    ensures values_after { values.new ≡ Calls.read_values (Read.reading list.now (ListN.length values.old)) values.old }
{
    enter_read(read::read_list(list, values), count, dimension)
}

// A list of so many tracks with these fields into out, and its length.
#[unsafe(no_mangle)]
pub extern "C" fn pel_write_list(
    count: usize,
    dimension: usize,
    values: &[f64],
    out: &mut [u8],
    length: &mut usize,
) -> u32
    ensures length_after { (result, length.new)
        ≡ told (Calls.write_answer (Write.written count dimension (Calls.patterns values.now) (ListN.length out.old))) length.old }
    ensures out_after { out.new ≡ Calls.write_bytes (Write.written count dimension (Calls.patterns values.now) (ListN.length out.old)) out.old }
{
    enter(write::write_list(count, dimension, values, out), length)
}

// The record of a list at an offset: the offset, and the record's length, 0 where there is none.
#[unsafe(no_mangle)]
pub extern "C" fn pel_record(list: &[u8], offset: usize, start: &mut usize, length: &mut usize)
    ensures start_after { start.new ≡ offset }
    ensures length_after { length.new ≡ ListN.length (Record.record_at list.now offset) }
{
    *start = offset;
    *length = record::record(list, offset).len();
}
