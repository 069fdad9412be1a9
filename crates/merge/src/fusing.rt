// The pass over 01's verdicts: a conflict of three tracks that can be fused has 5, and its fused track stands in the place of its base track's fields.
ghost use Rattle.std.specs.Prelude.{◌≡◌, ◌≤◌};
ghost use Rattle.kernel.specs.Lists.{over};
ghost use Rattle.fusion.specs.Fusion.{fused};
ghost use Rattle.fusion.specs.Private.{ToFuse, left_by};
ghost use Rattle.merge.specs.Private.{RowToFuse, RowsToFuse, fusion_of, after_fusion, passed_rows, passed_values, rows_bytes};

use crate::NO_TRACK;
use crate::questions::Sizes;
use crate::verdict::Verdict;
use dense::shape::row;
use fusion::inside::fuse_tracks;
use tracks::inside::fields;

// Fuses ours and theirs over base, tracks of dimension d by their fields, in the place of base.
fn fuse_over(base: &mut [f64], ours: &[f64], theirs: &[f64], d: usize, floor: f64) -> bool
    requires { ToFuse d base.old ours.now theirs.now base.old × (d ≤ 9) }
    ensures { (result, base.new) ≡ left_by (fused d floor base.old ours.now theirs.now) base.old }
{
    let mut out = [0.0f64; 54];
    let f = fields(d);
    if !fuse_tracks(base, ours, theirs, d, floor, &mut out[..f]) {
        return false;
    }
    base.copy_from_slice(&out[..f]);
    true
}

// The verdict on a row of base's track that had the verdict v, with track j of ours and track k of theirs, after the
// pass. Numbers, as they stand in the row: v goes back as it is where nothing is fused.
fn verdict_after(
    v: u8,
    j: u8,
    k: u8,
    base: &mut [f64],
    ours_values: &[f64],
    theirs_values: &[f64],
    d: usize,
    floor: f64,
) -> u8
    requires { RowToFuse d j k base.old ours_values.now theirs_values.now }
    ensures { (result, base.new) ≡ after_fusion v j k (fusion_of d floor base.old ours_values.now j theirs_values.now k) base.old }
{
    if v != u8::from(Verdict::Conflict) || j == NO_TRACK || k == NO_TRACK {
        return v;
    }
    let f = fields(d);
    let o = row(ours_values, f, j as usize);
    let t = row(theirs_values, f, k as usize);
    if fuse_over(base, o, t, d, floor) {
        return u8::from(Verdict::Fuse);
    }
    v
}

// The pass over the rows of base's tracks; no other row has three tracks.
pub(crate) fn fuse_rows(
    base_values: &mut [f64],
    ours_values: &[f64],
    theirs_values: &[f64],
    sizes: Sizes,
    floor: f64,
    rows: &mut [u8],
)
    requires { RowsToFuse base_values.old ours_values.now theirs_values.now sizes rows.old }
    ensures rows_after { rows.new
        ≡ over rows.old 0 (rows_bytes (passed_rows sizes floor base_values.old ours_values.now theirs_values.now rows.old)) }
    ensures base_values_after { base_values.new
        ≡ passed_values sizes floor base_values.old ours_values.now theirs_values.now rows.old }
{
    let d = sizes.dimension;
    let f = fields(d);
    // A row and its base track's values change together. By `chunks_exact_mut` of both with `zip` the proof stays
    // open: of the two slices it then knows only the lengths.
    for i in 0..sizes.base {
        let start = i * f;
        let v = verdict_after(
            rows[4 * i + 3],
            rows[4 * i + 1],
            rows[4 * i + 2],
            &mut base_values[start..start + f],
            ours_values,
            theirs_values,
            d,
            floor,
        );
        rows[4 * i + 3] = v;
    }
}
