// The fusion of two tracks that both changed, over the track that they were: `fuse`.
// Parameters stand in the order of the call. Room is five slices, lent one by one, and what they hold has the name of
// a fact (`Rooms`, `HasFields`, `Sized`): a struct of them would have each contract tell which of the five it writes.
#![tactic(auto)]

ghost use Rattle.std.specs.Prelude.{◌≡◌};
ghost use Rattle.fusion.specs.Fusion.{fusing, after_fusing};
ghost use Rattle.fusion.specs.Private.{are_long};

mod information;
pub mod inside;
mod track;

use dense::questions::ask_shape;
use dense::shape::{is_side, is_vector};
use inside::fuse_tracks;
pub use kernel::question::Question;
use tracks::inside::fields;

// What a fusion answers: that the fused track is written, or that there is none. A bool would not say of what.
#[derive(Clone, Copy, Debug, PartialEq, Eq)]
pub enum Fusion {
    Fused,
    NotFused,
}

// Whether four slices have f entries each.
fn are_long(a: &[f64], b: &[f64], c: &[f64], e: &[f64], f: usize) -> bool
    ensures { result ≡ are_long a.now b.now c.now e.now f }
{
    is_vector(a, f) && is_vector(b, f) && is_vector(c, f) && is_vector(e, f)
}

// The fusion of ours and theirs over base, three tracks of dimension d by their fields, into out. Any floor is taken,
// as the repair takes it.
#[tactic(auto, using(dense::proofs::Tests::side_high), unfolding(dense::specs::Matrix::has_length, crate::specs::Fusion::fusing))]
pub fn fuse(
    base: &[f64],
    ours: &[f64],
    theirs: &[f64],
    d: usize,
    floor: f64,
    out: &mut [f64],
) -> Result<Fusion, Question>
    ensures { (result, out.new)
        ≡ after_fusing (fusing base.now ours.now theirs.now d floor out.old) out.old }
{
    ask_shape(is_side(d), || are_long(base, ours, theirs, out, fields(d)))?;
    if fuse_tracks(base, ours, theirs, d, floor, out) {
        return Ok(Fusion::Fused);
    }
    Ok(Fusion::NotFused)
}
