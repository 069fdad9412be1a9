// The eigenvalues that are below the floor.
ghost use Rattle.std.specs.Prelude.{◌≡◌, length};
ghost use Rattle.kernel.specs.Lists.{tabulate};
ghost use Rattle.dense.specs.Matrix.{nth};
ghost use Rattle.repair.specs.Repair.{clip_count, greater_clip, largest_clip, clip_mask, raised, report_of};

use crate::RegularizationReport;

// How many of the entries of e are below the floor.
#[tactic(auto, using(crate::proofs::Clips::counted))]
fn clip_count(e: &[f64], floor: f64) -> usize
    ensures { result ≡ clip_count e.now floor (length e.now) }
{
    e.iter().filter(|x| **x < floor).count()
}

// g, or the clip of the entry x where that is greater.
#[tactic(auto, unfolding(crate::specs::Repair::greater_clip))]
fn greater_clip(g: f64, x: f64, floor: f64) -> f64
    ensures { result ≡ greater_clip g x floor }
{
    let clip = floor - x;
    if x < floor && clip > g {
        return clip;
    }
    g
}

// The largest clip of the entries of e.
#[tactic(auto, using(crate::proofs::Clips::largest_folds))]
fn largest_clip(e: &[f64], floor: f64) -> f64
    ensures { result ≡ largest_clip e.now floor (length e.now) }
{
    e.iter()
        .copied()
        .fold(0.0, |g, x| greater_clip(g, x, floor))
}

// Which of the entries of e are below the floor.
fn clip_mask(e: &[f64], floor: f64) -> [bool; 16]
    ensures { result ≡ clip_mask e.now floor (length e.now) }
{
    std::array::from_fn(|i| i < e.len() && e[i] < floor)
}

// What is told of the eigenvalues e.
#[tactic(auto, unfolding(crate::specs::Repair::report_of))]
pub(crate) fn report(e: &[f64], floor: f64) -> RegularizationReport
    ensures { result ≡ report_of e.now floor (length e.now) }
{
    RegularizationReport {
        n_clipped: clip_count(e, floor),
        max_clip_magnitude: largest_clip(e, floor),
        clipped_indices: clip_mask(e, floor),
    }
}

// x, or the floor where x is below it.
#[tactic(auto, unfolding(crate::specs::Repair::raised))]
pub(crate) fn raised(x: f64, floor: f64) -> f64
    ensures { result ≡ raised floor x }
{
    if x < floor {
        return floor;
    }
    x
}

// Raises the entries of e to the floor.
#[tactic(auto, using(dense::proofs::Laws::by_entries))]
pub(crate) fn raise(e: &mut [f64], floor: f64)
    ensures { e.new ≡ tabulate (length e.old) (λ k. raised floor (nth e.old k)) }
{
    for x in e.iter_mut() {
        *x = raised(*x, floor);
    }
}
