// Gauss–Jordan elimination in place.
ghost use Rattle.std.specs.Prelude.{◌≡◌, ◌<◌, ◌≤◌, length, Ok};
ghost use Rattle.dense.specs.Matrix.{nth, at, matrix};
ghost use Rattle.kernel.specs.Answer.{ask};
ghost use Rattle.kernel.specs.declared.question.Question.TheVariants as question;
ghost use Rattle.pivoting.specs.Pivot.{pivot, taken, pivoted, stage};
ghost use Rattle.pivoting.specs.Solve.{cleared_entry, step_entry, column, reduced};
ghost use Rattle.pivoting.specs.Private.{Clearing, PivotRow, Elimination, Column};

use crate::choice::pivot_row;
use crate::rows::{copy_row, divided_row, reduce_row};
use kernel::question::Question;

// Row k of m, of n rows, becomes x, and every other row loses its entry in column k times x.
fn reduce_rows(x: &[f64], m: &mut [f64], n: usize, k: usize)
    requires { Clearing n k x.now m.old }
    ensures { let w = length x.now in m.new ≡ matrix n w (λ i. cleared_entry (nth x.now) (at m.old w i) k i) }
{
    let w = x.len();
    // `m.chunks_exact_mut(w).enumerate()` leaves `returns` open: a proof knows nothing of rows lent so.
    for i in 0..n {
        let start = i * w;
        reduce_row(x, k, i, &mut m[start..start + w]);
    }
}

// The step in column k of m, of n rows, with its pivot in row p; x takes the divided pivot row.
#[tactic(auto, using(kernel::proofs::Lists::row_within))]
fn step(m: &mut [f64], x: &mut [f64], n: usize, k: usize, p: usize)
    requires { (k < n) × PivotRow n p k m.old x.old }
    ensures { let w = length x.old in m.new ≡ matrix n w (step_entry m.old w k p) }
{
    divided_row(m, p, k, x);
    copy_row(m, n, x.len(), k, p);
    reduce_rows(x, m, n, k);
}

// Question 6 in column k of m, whose rows have the norms s; where it is met the column is reduced. x is room for a
// row.
fn reduce_column(m: &mut [f64], s: &mut [f64], x: &mut [f64], k: usize) -> Result<(), Question>
    requires { Column k m.old s.old x.old }
    ensures answers { result ≡ ask question.PivotRatio (taken (pivot m.old s.old (length s.old) (length x.old) k)) (Ok tt) }
    ensures reduced { result ≡ Ok tt → stage m.new s.new ≡ column (length s.old) (length x.old) k (stage m.old s.old) }
{
    let n = s.len();
    let p = pivot_row(m, s, x.len(), k)?;
    s.swap(k, p);
    step(m, x, n, k, p);
    Ok(())
}

// Question 6 in the first n columns of m, whose n rows have the norms s; where it is met all are reduced. x is room
// for a row.
#[tactic(auto, using(crate::proofs::Stages::column_laws), unfolding(crate::specs::Solve::reduced, crate::specs::Pivot::pivoted))]
pub(crate) fn reduce(m: &mut [f64], s: &mut [f64], x: &mut [f64]) -> Result<(), Question>
    requires { (length s.old ≤ length x.old) × Elimination m.old s.old x.old }
    ensures answers { let n = length s.old in let w = length x.old in
        result ≡ ask question.PivotRatio (pivoted n w (reduced n w (stage m.old s.old)) n) (Ok tt) }
    ensures reduced { let n = length s.old in let w = length x.old in
        result ≡ Ok tt → stage m.new s.new ≡ reduced n w (stage m.old s.old) n }
{
    // `(0..n).try_for_each` leaves both clauses open: a proof knows nothing of m, s and x, which its closure changes.
    for k in 0..s.len() {
        reduce_column(m, s, x, k)?;
    }
    Ok(())
}
