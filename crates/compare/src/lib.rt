// The comparison of two tracks: near, far or no distance.
// Parameters stand in the order of the call, and two tracks have the name of a fact (`TwoTracks`): a struct of the four
// slices would be taken apart at each step, which takes some of them.
#![tactic(auto)]

ghost use Rattle.std.specs.Prelude.{◌≡◌};
ghost use Rattle.compare.specs.Distance.{comparing};

pub mod fields;
mod gate;
pub mod inside;
pub mod questions;

use crate::inside::compare_tracks;
use crate::questions::{are_tracks, is_floor_and_gate};
use dense::questions::ask_shape;
use dense::shape::is_side;
pub use kernel::question::Question;
use repair::RegularizationReport;

// What a comparison answers: the squared distance, near or far by the gate, or that there is none. The three are kinds
// of the C interface.
#[derive(Clone, Copy, Debug)]
pub enum Comparison {
    Near(f64),
    Far(f64),
    NoDistance,
}

// A comparison with what its repair answered, for the merge.
#[derive(Clone, Copy, Debug)]
pub struct ComparisonReport {
    pub comparison: Comparison,
    pub repair: Result<RegularizationReport, Question>,
}

// Compares track i, with the state mu and the covariance p_i, with track j, with x and p_j; n is their dimension.
#[tactic(auto, using(dense::proofs::Tests::square_area, dense::proofs::Tests::side_high), unfolding(dense::specs::Matrix::has_length))]
pub fn compare(
    mu: &[f64],
    x: &[f64],
    p_i: &[f64],
    p_j: &[f64],
    n: usize,
    floor: f64,
    gate: f64,
) -> Result<Comparison, Question>
    ensures { result ≡ comparing mu.now x.now p_i.now p_j.now n floor gate }
{
    ask_shape(is_side(n), || are_tracks(mu, x, p_i, p_j, n))?;
    if !is_floor_and_gate(floor, gate) {
        return Err(Question::FloorAndGate);
    }
    let report = compare_tracks(mu, x, p_i, p_j, n, floor, gate);
    Ok(report.comparison)
}
