// A merge that also leaves its fused tracks: what the project's own crates call, and no user does.
ghost use Rattle.std.specs.Prelude.{◌≡◌, length};
ghost use Rattle.merge.specs.Merge.{merging, after_merge};
ghost use Rattle.merge.specs.Private.{FusedStand};

use crate::Counts;
use crate::equality::Placed;
use crate::fusing::fuse_rows;
use crate::pairings::pair_all;
use crate::questions::read_three;
use crate::verdict::{Lists, Offsets};
use crate::writing::write_merge;
use compare::questions::is_floor_and_gate;
use kernel::question::Question;
use tracks::inside::fields;

// Merges as `merge` does. The slice `values` is room for those of the longest list: it takes base's, and a fused track stands in the place of its base track's.
pub fn merge_fused(
    base: &[u8],
    ours: &[u8],
    theirs: &[u8],
    floor: f64,
    gate: f64,
    rows: &mut [u8],
    values: &mut [f64],
) -> Result<Counts, Question>
    requires { length values.old ≡ 1728 }
    ensures rows_after { (result, rows.new) ≡ after_merge (merging base.now ours.now theirs.now floor gate (length rows.old)) rows.old }
    ensures fused_stand { FusedStand base.now ours.now theirs.now floor result rows.new values.new }
{
    let mut offsets = Offsets {
        base: [0usize; 33],
        ours: [0usize; 33],
        theirs: [0usize; 33],
    };
    let mut ours_values = [0.0f64; 1728];
    let mut theirs_values = [0.0f64; 1728];
    let sizes = read_three(
        base,
        ours,
        theirs,
        values,
        &mut ours_values,
        &mut theirs_values,
        &mut offsets,
    )?;
    if !is_floor_and_gate(floor, gate) {
        return Err(Question::FloorAndGate);
    }
    if rows.len() < 4 * (sizes.base + sizes.ours + sizes.theirs) {
        return Err(Question::RowBuffer);
    }
    let pairings = pair_all(values, &ours_values, &theirs_values, sizes, floor, gate);
    let lists = Lists {
        base: Placed {
            list: base,
            offsets: &offsets.base,
        },
        ours: Placed {
            list: ours,
            offsets: &offsets.ours,
        },
        theirs: Placed {
            list: theirs,
            offsets: &offsets.theirs,
        },
    };
    let counts = write_merge(lists, sizes, pairings, rows);
    let size = sizes.base * fields(sizes.dimension);
    fuse_rows(
        &mut values[..size],
        &ours_values,
        &theirs_values,
        sizes,
        floor,
        rows,
    );
    Ok(counts)
}
