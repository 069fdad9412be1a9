// The choice of a pivot row, and question 6.
ghost use Rattle.std.specs.Prelude.{◌≡◌, ◌*◌, ◌<◌, length, Ok};
ghost use Rattle.kernel.specs.Answer.{ask};
ghost use Rattle.kernel.specs.Number.{abs};
ghost use Rattle.kernel.specs.declared.question.Question.TheVariants as question;
ghost use Rattle.pivoting.specs.Pivot.{consider, pivot, taken};

use crate::Pivot;
use dense::shape::entry;
use kernel::constants::{MIN_SCALE, REL_TOL};
use kernel::question::Question;

// The best row so far, and then row i, whose norm is s and whose entry in the column is x.
#[tactic(auto, unfolding(crate::specs::Pivot::consider))]
pub(crate) fn consider(best: Pivot, s: f64, x: f64, i: usize) -> Pivot
    requires { abs best.ratio ≡ best.ratio }
    ensures { result ≡ consider best s x i }
{
    if s < MIN_SCALE {
        return best;
    }
    let ratio = x / s;
    if ratio > best.ratio {
        return Pivot { ratio, row: i };
    }
    if -ratio > best.ratio {
        return Pivot {
            ratio: -ratio,
            row: i,
        };
    }
    best
}

// The pivot of column k of m, a matrix of w columns whose rows have the norms s.
fn choose(m: &[f64], s: &[f64], w: usize, k: usize) -> Pivot
    requires { (k < length s.now) × (k < w) × (length m.now ≡ length s.now * w) }
    ensures { result ≡ pivot m.now s.now (length s.now) w k }
{
    let mut best = Pivot { ratio: 0.0, row: k };
    // A fold leaves two goals open, and each answer states this loop's invariant, of the items passed so far. By
    // `enumerate` and `skip` the step and the end stay open until the proof tells which items they yield.
    for i in k..s.len() {
        best = consider(best, s[i], entry(m, w, i, k), i);
    }
    best
}

// Question 6: whether the pivot p is taken.
#[tactic(auto, unfolding(crate::specs::Pivot::taken))]
pub(crate) fn is_taken(p: Pivot) -> bool
    ensures { result ≡ taken p }
{
    !(p.ratio < REL_TOL)
}

// Question 6 in column k of m, a matrix of w columns whose rows have the norms s, and then the row of its pivot.
pub(crate) fn pivot_row(m: &[f64], s: &[f64], w: usize, k: usize) -> Result<usize, Question>
    requires { (k < length s.now) × (k < w) × (length m.now ≡ length s.now * w) }
    ensures { let p = pivot m.now s.now (length s.now) w k in result ≡ ask question.PivotRatio (taken p) (Ok p.row) }
{
    let best = choose(m, s, w, k);
    if !is_taken(best) {
        return Err(Question::PivotRatio);
    }
    Ok(best.row)
}
