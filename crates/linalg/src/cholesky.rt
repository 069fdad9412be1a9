// The Cholesky factor, made row by row in a slice that starts out as +0.0 throughout.
ghost use Rattle.std.specs.Prelude.{◌≡◌, ◌+◌, ◌*◌, ◌≤◌, length, replicate, Ok};
ghost use Rattle.kernel.specs.Constants.{nought};
ghost use Rattle.kernel.specs.Answer.{ask};
ghost use Rattle.kernel.specs.declared.question.Question.TheVariants as question;
ghost use Rattle.dense.specs.Answer.{Leaves};
ghost use Rattle.linalg.specs.Cholesky.{is_pivot, inner, with_left, factor, row_pivot, definite};
ghost use Rattle.linalg.specs.Private.{Padded, Factoring};

use dense::shape::{entry, part};
use dense::vector::dot;
use kernel::number::sqrt;
use kernel::question::Question;

// Question 7, of one pivot: whether d is above 0 and finite.
fn is_pivot(d: f64) -> bool
    ensures { result ≡ is_pivot d }
{
    d > 0.0 && d < f64::INFINITY
}

// The product of the parts of rows i and j of l, of n columns, before column j.
#[tactic(auto, using(crate::proofs::Factor::inner_parts))]
fn inner(l: &[f64], n: usize, i: usize, j: usize) -> f64
    requires { (i * n + j ≤ length l.now) × (j * n + j ≤ length l.now) }
    ensures { result ≡ inner l.now n i j }
{
    dot(part(l, i * n, j), part(l, j * n, j))
}

// Makes the entries of row i left of the diagonal.
#[tactic(auto, using(kernel::proofs::Lists::row_within, crate::proofs::Factor::none_left, crate::proofs::Factor::left_more))]
fn left_entries(a: &[f64], n: usize, i: usize, l: &mut [f64])
    requires { Factoring a.now n i l.old }
    ensures { Padded (with_left a.now n (factor a.now n i) i i) l.new }
{
    // It reads the row that it writes, so `fill` cannot be lent it. By for_each, what its closure asks and what l becomes
    // stayed open.
    for j in 0..i {
        l[i * n + j] = (entry(a, n, i, j) - inner(l, n, i, j)) / entry(l, n, j, j);
    }
}

// Makes row i where its pivot is met.
#[tactic(auto, using(kernel::proofs::Lists::row_within, crate::proofs::Factor::pivot_in, crate::proofs::Factor::row_more))]
fn factor_row(a: &[f64], n: usize, i: usize, l: &mut [f64]) -> Result<(), Question>
    requires { Factoring a.now n i l.old }
    ensures answer { result ≡ ask question.CholeskyPivot (is_pivot (row_pivot a.now n i)) (Ok tt) }
    ensures made { result ≡ Ok tt → Padded (factor a.now n (i + 1)) l.new }
{
    left_entries(a, n, i, l);
    let d = entry(a, n, i, i) - inner(l, n, i, i);
    if !is_pivot(d) {
        return Err(Question::CholeskyPivot);
    }
    l[i * n + i] = sqrt(d);
    Ok(())
}

// Makes the factor of a, n by n, where all pivots are met.
#[tactic(auto, using(crate::proofs::Factor::no_rows, crate::proofs::Factor::all_rows, crate::proofs::Factor::definite_none, crate::proofs::Factor::definite_next))]
fn factor_rows(a: &[f64], n: usize, l: &mut [f64]) -> Result<(), Question>
    requires { (length a.now ≡ n * n) × (l.old ≡ replicate (n * n) nought) }
    ensures answer { result ≡ ask question.CholeskyPivot (definite a.now n n) (Ok tt) }
    ensures made { result ≡ Ok tt → l.new ≡ factor a.now n n }
{
    // `(0..n).try_for_each` leaves both clauses open: a proof knows nothing of what its closure changes.
    for i in 0..n {
        factor_row(a, n, i, l)?;
    }
    Ok(())
}

// Writes the factor of a, n by n, to out where all pivots are met.
pub(crate) fn cholesky(a: &[f64], n: usize, out: &mut [f64]) -> Result<(), Question>
    requires { (n * n ≤ 256) × (length a.now ≡ n * n) × (length out.old ≡ n * n) }
    ensures { Leaves (ask question.CholeskyPivot (definite a.now n n) (Ok (factor a.now n n))) out.old result out.new }
{
    let mut l = [0.0f64; 256];
    let size = n * n;
    factor_rows(a, n, &mut l[..size])?;
    out.copy_from_slice(&l[..size]);
    Ok(())
}
