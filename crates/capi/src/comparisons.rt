// Comparisons of two tracks.
ghost use Rattle.std.specs.Prelude.{◌≡◌};
ghost use Rattle.compare.specs.Distance.{comparing};
ghost use Rattle.capi.specs.Comparisons.{kind_and_distance, told_comparison};

use crate::told::refused;
use compare::Comparison;
use kernel::question::Question;

// The kind of a comparison, and its squared distance where it has one, into the two places.
fn enter_kind(c: Comparison, kind: &mut u32, d2: &mut f64)
    ensures { (kind.new, d2.new) ≡ kind_and_distance c d2.old }
{
    match c {
        Comparison::Near(x) => {
            *kind = 1;
            *d2 = x;
        }
        Comparison::Far(x) => {
            *kind = 2;
            *d2 = x;
        }
        Comparison::NoDistance => {
            *kind = 0;
        }
    }
}

// The code of an answer, and its comparison into the two places.
fn enter_comparison(answer: Result<Comparison, Question>, kind: &mut u32, d2: &mut f64) -> u32
    ensures { (result, (kind.new, d2.new)) ≡ told_comparison answer kind.old d2.old }
{
    match answer {
        Ok(c) => {
            enter_kind(c, kind, d2);
            0
        }
        Err(question) => refused(question),
    }
}

// The comparison of track i, with the state mu and the covariance p_i, with track j, with x and p_j, into kind and d2.
#[unsafe(no_mangle)]
pub extern "C" fn pel_compare(
    mu: &[f64],
    x: &[f64],
    p_i: &[f64],
    p_j: &[f64],
    n: usize,
    floor: f64,
    gate: f64,
    kind: &mut u32,
    d2: &mut f64,
) -> u32
    ensures { (result, (kind.new, d2.new))
        ≡ told_comparison (comparing mu.now x.now p_i.now p_j.now n floor gate) kind.old d2.old }
{
    enter_comparison(compare::compare(mu, x, p_i, p_j, n, floor, gate), kind, d2)
}
