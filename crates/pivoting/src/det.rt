// The determinant, by reduction below the diagonal.
ghost use Rattle.std.specs.Prelude.{◌≡◌, cond, ◌*◌, ◌<◌, ◌≤◌, ltb, length};
ghost use Rattle.dense.specs.Matrix.{nth, at, matrix};
ghost use Rattle.kernel.specs.Lists.{tabulate};
ghost use Rattle.pivoting.specs.Pivot.{stage};
ghost use Rattle.pivoting.specs.Det.{forward_entry, flipped, triangulated, determinant, signed_product};
ghost use Rattle.pivoting.specs.Private.{TwoRows, Clearing, PivotRow, Elimination, below_pivot, pivot_or_below};

use crate::choice::pivot_row;
use crate::norms::{row_norms, some_scale};
use crate::rows::copy_row;
use dense::shape::{entry, row};
use dense::vector::subtract_scaled;

// Takes from y, right of column k, its entry in column k over that of x, times x.
fn below_pivot(x: &[f64], k: usize, y: &mut [f64])
    requires { TwoRows k x.now y.old }
    ensures { y.new ≡ tabulate (length x.now) (below_pivot (nth x.now) (nth y.old) k) }
{
    let factor = y[k] / x[k];
    subtract_scaled(factor, &x[k + 1..], &mut y[k + 1..]);
}

// Row i, from row k on, of a step in column k, from y: the pivot row x where i is k, else y less its part of x.
#[tactic(auto, using(dense::proofs::Laws::by_entries))]
fn pivot_or_below(x: &[f64], k: usize, i: usize, y: &mut [f64])
    requires { TwoRows k x.now y.old }
    ensures { y.new ≡ tabulate (length x.now) (pivot_or_below (nth x.now) (nth y.old) k i) }
{
    if i == k {
        y.copy_from_slice(x);
        return;
    }
    below_pivot(x, k, y);
}

// Row k of m, a square matrix, becomes x, and every row below it loses its part of x.
fn reduce_below(x: &[f64], m: &mut [f64], k: usize)
    requires { Clearing (length x.now) k x.now m.old }
    ensures { let n = length x.now in m.new ≡ matrix n n (λ i j. cond (ltb i k) (at m.old n i j) (pivot_or_below (nth x.now) (at m.old n i) k i j)) }
{
    let n = x.len();
    // `m.chunks_exact_mut(n).enumerate().skip(k)` leaves `returns` open: a proof knows nothing of rows lent so.
    for i in k..n {
        let start = i * n;
        pivot_or_below(x, k, i, &mut m[start..start + n]);
    }
}

// The step in column k of m, a square matrix, with its pivot in row p; x takes the pivot row.
fn forward_step(m: &mut [f64], x: &mut [f64], k: usize, p: usize)
    requires { PivotRow (length x.old) p k m.old x.old }
    ensures { let n = length x.old in m.new ≡ matrix n n (forward_entry m.old n k p) }
{
    let n = x.len();
    x.copy_from_slice(row(m, n, p));
    copy_row(m, n, n, k, p);
    reduce_below(x, m, k);
}

// The sign s, flipped where p is not k.
#[tactic(auto, unfolding(crate::specs::Det::flipped))]
fn flipped(s: f64, k: usize, p: usize) -> f64
    ensures { result ≡ flipped s k p }
{
    if p == k {
        return s;
    }
    -s
}

// Question 6 in each column of m, whose rows have the norms s, and then the product of the pivots with its sign; 0.0
// where it is not met. x is room for a row.
fn signed_product(m: &mut [f64], s: &mut [f64], x: &mut [f64]) -> f64
    requires { (length x.old ≡ length s.old) × Elimination m.old s.old x.old }
    ensures { let n = length s.old in result ≡ signed_product n (triangulated n (stage m.old s.old)) }
{
    let n = s.len();
    let mut sign = 1.0;
    let mut det = 1.0;
    // A `try_fold` leaves three goals open: a proof knows nothing of m, s and x, which its closure changes.
    for k in 0..n {
        let Ok(p) = pivot_row(m, s, n, k) else {
            return 0.0;
        };
        sign = flipped(sign, k, p);
        det = det * entry(m, n, p, k);
        s.swap(k, p);
        forward_step(m, x, k, p);
    }
    sign * det
}

// The determinant of a, n by n.
#[tactic(auto, unfolding(crate::specs::Det::determinant))]
pub(crate) fn determinant(a: &[f64], n: usize) -> f64
    requires { (n ≤ 16) × (length a.now ≡ n * n) }
    ensures { result ≡ determinant a.now n }
{
    let mut m = [0.0f64; 256];
    let mut s = [0.0f64; 16];
    let mut x = [0.0f64; 16];
    let m = &mut m[..n * n];
    let s = &mut s[..n];
    row_norms(a, s);
    if !some_scale(s) {
        return 0.0;
    }
    m.copy_from_slice(a);
    signed_product(m, s, &mut x[..n])
}
