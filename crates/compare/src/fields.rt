// A track's covariance from its fields.
ghost use Rattle.std.specs.Prelude.{◌≡◌, ◌&&◌, ◌*◌, ◌<◌, ◌≤◌, leb, length};
ghost use Rattle.dense.specs.Answer.{Leaves};
ghost use Rattle.dense.specs.Matrix.{has_length};
ghost use Rattle.tracks.specs.Layout.{fields};
ghost use Rattle.compare.specs.Fields.{lower_field, covariance_entry, track_covariance, whole_covariance};
ghost use Rattle.compare.specs.Private.{FieldsFirst};

use crate::inside::track_covariance;
use dense::questions::ask_shape;
use dense::shape::{is_matrix, is_side};
use kernel::question::Question;

// The place of column j of row i of the lower triangle. A row d would start where the fields end.
#[tactic(auto, using(crate::proofs::Covariance::row_product))]
fn lower_field(d: usize, i: usize, j: usize) -> usize
    requires { (i ≤ d) × (j ≤ i) × (d ≤ 16) }
    ensures { result ≡ lower_field d i j }
{
    d + i * (i + 1) / 2 + j
}

// Entry (i, j) of the covariance of the track of dimension d whose fields are v.
#[tactic(auto, using(crate::proofs::Covariance::field_within))]
pub(crate) fn covariance_entry(v: &[f64], d: usize, i: usize, j: usize) -> f64
    requires { FieldsFirst d v.now × (i < d) × (j < d) }
    ensures { result ≡ covariance_entry d v.now i j }
{
    if j <= i {
        v[lower_field(d, i, j)]
    } else {
        v[lower_field(d, j, i)]
    }
}

// Whether v holds the fields of a track of dimension d, and out is a d by d matrix.
#[tactic(auto, unfolding(tracks::specs::Layout::fields))]
fn is_track(v: &[f64], d: usize, out: &[f64]) -> bool
    requires { d ≤ 16 }
    ensures { result ≡ (leb (fields d) (length v.now) && has_length out.now (d * d)) }
{
    lower_field(d, d, 0) <= v.len() && is_matrix(out, d, d)
}

// The covariance of the track of dimension d whose fields stand first in v, as a whole matrix, into out.
#[tactic(auto, using(dense::proofs::Tests::square_area, dense::proofs::Tests::side_high), unfolding(dense::specs::Matrix::has_length, crate::specs::Fields::whole_covariance))]
pub fn whole_covariance(v: &[f64], d: usize, out: &mut [f64]) -> Result<(), Question>
    ensures { Leaves (whole_covariance v.now d out.old) out.old result out.new }
{
    ask_shape(is_side(d), || is_track(v, d, out))?;
    track_covariance(v, d, out);
    Ok(())
}
