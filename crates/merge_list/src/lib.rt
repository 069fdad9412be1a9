// The merged list: a merge of three track lists, and the records that its rows take, written as a list.
#![tactic(auto)]

ghost use Rattle.std.specs.Prelude.{◌≡◌, length};
ghost use Rattle.merge_list.specs.MergeList.{merging_list, after_merge_list};
ghost use Rattle.merge_list.specs.Private.{ToLeave, list_left, list_asked};

mod records;
mod writing;

pub use kernel::question::Question;
use merge::Counts;
use merge::inside::merge_fused;
use records::Lists;
use writing::write_chosen;

// The bytes of the rows of three lists of 32 tracks.
const MOST_ROW_BYTES: usize = 384;

// What a merge into a list answers: the merge's counts and the length of the list.
#[derive(Clone, Copy, Debug, PartialEq, Eq)]
pub struct MergedList {
    pub counts: Counts,
    pub length: usize,
}

// Writes the list that the rows of a merge take and, where it is written, the rows.
#[tactic(auto, using(crate::proofs::Left::left_refused))]
fn write_merged(
    lists: Lists,
    found: &[u8],
    counts: Counts,
    rows: &mut [u8],
    out: &mut [u8],
) -> Result<MergedList, Question>
    requires { ToLeave lists found.now counts rows.old }
    ensures { (result, (rows.new, out.new))
        ≡ list_left (list_asked lists.entry found.now counts (length out.old)) counts found.now rows.old out.old }
{
    let total = counts.full + counts.half + counts.single;
    let length = write_chosen(lists, found, total, out)?;
    rows[..4 * total].copy_from_slice(&found[..4 * total]);
    Ok(MergedList { counts, length })
}

// Merges ours and theirs over their base, as `merge` does, and writes the merged list. The rows go to the front of
// their buffer and the list to the front of `out`; the rest of both stays. The rows are found in a local array, since a
// conflict among them refuses, and the fused tracks in another.
pub fn merge_list(
    base: &[u8],
    ours: &[u8],
    theirs: &[u8],
    floor: f64,
    gate: f64,
    rows: &mut [u8],
    out: &mut [u8],
) -> Result<MergedList, Question>
    ensures { (result, (rows.new, out.new))
        ≡ after_merge_list (merging_list base.now ours.now theirs.now floor gate (length rows.old) (length out.old))
        rows.old out.old }
{
    let mut found = [0u8; 384];
    let mut values = [0.0f64; 1728];
    let room = rows.len().min(MOST_ROW_BYTES);
    let counts = merge_fused(
        base,
        ours,
        theirs,
        floor,
        gate,
        &mut found[..room],
        &mut values,
    )?;
    let lists = Lists {
        base,
        ours,
        theirs,
        values: &values,
    };
    write_merged(lists, &found, counts, rows, out)
}
