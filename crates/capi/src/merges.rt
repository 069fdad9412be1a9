// The merge, with its list or without, and the winner of a row.
ghost use Rattle.std.specs.Prelude.{◌≡◌};
ghost use Rattle.std.proofs.Math.ListN as ListN;
ghost use Rattle.merge.specs.Merge as Merge;
ghost use Rattle.merge_list.specs.MergeList as MergeList;
ghost use Rattle.capi.specs.Merges.{told_merge, told_merged_list, in_numbers, told_winner};

use crate::told::refused;
use kernel::question::Question;
use merge::winner::{Part, WinningPart};
use merge::{Counts, winner};
use merge_list::MergedList;

// The code of a merge, and its numbers of rows into their places.
fn enter_counts(
    answer: Result<Counts, Question>,
    full: &mut usize,
    half: &mut usize,
    single: &mut usize,
) -> u32
    ensures { (result, (full.new, (half.new, single.new))) ≡ told_merge answer full.old half.old single.old }
{
    match answer {
        Ok(counts) => {
            *full = counts.full;
            *half = counts.half;
            *single = counts.single;
            0
        }
        Err(question) => refused(question),
    }
}

// Merges ours and theirs over their base. The rows go to the front of the slice, and the numbers of those with three,
// two and one track to their places.
#[unsafe(no_mangle)]
pub extern "C" fn pel_merge(
    base: &[u8],
    ours: &[u8],
    theirs: &[u8],
    floor: f64,
    gate: f64,
    rows: &mut [u8],
    full: &mut usize,
    half: &mut usize,
    single: &mut usize,
) -> u32
    ensures single_after { (result, (full.new, (half.new, single.new)))
        ≡ told_merge (Merge.after_merge (Merge.merging base.now ours.now theirs.now floor gate (ListN.length rows.old)) rows.old).0
        full.old half.old single.old }
    ensures rows_after { rows.new
        ≡ (Merge.after_merge (Merge.merging base.now ours.now theirs.now floor gate (ListN.length rows.old)) rows.old).1 }
{
    enter_counts(
        merge::merge(base, ours, theirs, floor, gate, rows),
        full,
        half,
        single,
    )
}

// The code of a merge with its list, and its numbers of rows and the list's length into their places.
fn enter_merged_list(
    answer: Result<MergedList, Question>,
    full: &mut usize,
    half: &mut usize,
    single: &mut usize,
    length: &mut usize,
) -> u32
    ensures { (result, (full.new, (half.new, (single.new, length.new))))
        ≡ told_merged_list answer full.old half.old single.old length.old }
{
    match answer {
        Ok(merged) => {
            *length = merged.length;
            enter_counts(Ok(merged.counts), full, half, single)
        }
        Err(question) => refused(question),
    }
}

// Merges as pel_merge does, and writes the merged list: the rows go to the front of their slice, the list to the front
// of out, and the numbers of rows and the list's length to their places.
#[unsafe(no_mangle)]
pub extern "C" fn pel_merge_list(
    base: &[u8],
    ours: &[u8],
    theirs: &[u8],
    floor: f64,
    gate: f64,
    rows: &mut [u8],
    out: &mut [u8],
    full: &mut usize,
    half: &mut usize,
    single: &mut usize,
    length: &mut usize,
) -> u32
    ensures length_after { (result, (full.new, (half.new, (single.new, length.new))))
        ≡ told_merged_list
        (MergeList.after_merge_list
        (MergeList.merging_list base.now ours.now theirs.now floor gate (ListN.length rows.old) (ListN.length out.old))
        rows.old out.old).0
        full.old half.old single.old length.old }
    ensures out_after { (rows.new, out.new)
        ≡ (MergeList.after_merge_list
        (MergeList.merging_list base.now ours.now theirs.now floor gate (ListN.length rows.old) (ListN.length out.old))
        rows.old out.old).1 }
{
    enter_merged_list(
        merge_list::merge_list(base, ours, theirs, floor, gate, rows, out),
        full,
        half,
        single,
        length,
    )
}

// A winner's list, start and length into their places.
fn enter_winner(winner: Option<WinningPart>, list: &mut u32, start: &mut usize, length: &mut usize)
    ensures { (list.new, (start.new, length.new)) ≡ in_numbers winner }
{
    let (number, part) = match winner {
        None => (
            0,
            Part {
                start: 0,
                length: 0,
            },
        ),
        Some(WinningPart::Ours(part)) => (1, part),
        Some(WinningPart::Theirs(part)) => (2, part),
    };
    *list = number;
    *start = part.start;
    *length = part.length;
}

// The winner of a row of four bytes: its list, 1 for ours and 2 for theirs, and its start and length there. All three
// are 0 where there is none.
#[tactic(auto, unfolding(crate::specs::Merges::told_winner))]
#[unsafe(no_mangle)]
pub extern "C" fn pel_winner(
    ours: &[u8],
    theirs: &[u8],
    row: &[u8],
    list: &mut u32,
    start: &mut usize,
    length: &mut usize,
)
    ensures { (list.new, (start.new, length.new)) ≡ told_winner ours.now theirs.now row.now }
{
    let won = match <[u8; 4]>::try_from(row) {
        Ok(four) => winner::winning(ours, theirs, four),
        Err(_) => None,
    };
    enter_winner(won, list, start, length);
}
