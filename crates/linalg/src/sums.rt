// Sums that run through a whole matrix, row by row.
ghost use Rattle.std.specs.Prelude.{◌≡◌, ◌*◌, ◌≤◌, length};
ghost use Rattle.kernel.specs.Number.{mul};
ghost use Rattle.kernel.specs.Constants.{nought};
ghost use Rattle.dense.specs.Matrix.{at, total, sum_rows_from};
ghost use Rattle.linalg.specs.Products.{product};
ghost use Rattle.linalg.specs.Sums.{trace_cube, quadratic_form};

use crate::product::product;
use dense::shape::entry;
use dense::sum::{sum_from, sum_rows_from};

// The sum of the diagonal of a, n by n.
#[tactic(auto, using(dense::proofs::Laws::cell))]
pub(crate) fn trace(a: &[f64], n: usize) -> f64
    requires { length a.now ≡ n * n }
    ensures { result ≡ total n (λ i. at a.now n i i) }
{
    sum_from(0.0, n, |i| entry(a, n, i, i))
}

// The trace of a b, both n by n.
#[tactic(auto, using(dense::proofs::Laws::cell))]
pub(crate) fn trace_product(a: &[f64], b: &[f64], n: usize) -> f64
    requires { (length a.now ≡ n * n) × (length b.now ≡ n * n) }
    ensures { result ≡ sum_rows_from nought n n (λ i j. mul (at a.now n i j) (at b.now n j i)) }
{
    sum_rows_from(0.0, n, n, |i, j| entry(a, n, i, j) * entry(b, n, j, i))
}

// The quadratic form of x under a.
#[tactic(auto, using(dense::proofs::Laws::cell), unfolding(crate::specs::Sums::quadratic_form))]
pub(crate) fn quadratic_form(x: &[f64], a: &[f64]) -> f64
    requires { length a.now ≡ length x.now * length x.now }
    ensures { result ≡ quadratic_form x.now a.now (length x.now) }
{
    let n = x.len();
    sum_rows_from(0.0, n, n, |i, j| x[i] * entry(a, n, i, j) * x[j])
}

// The trace of the cube of m, n by n.
#[tactic(auto, using(dense::proofs::Laws::cell), unfolding(crate::specs::Sums::trace_cube, dense::specs::Matrix::sum_planes_from))]
fn trace_cube(m: &[f64], n: usize) -> f64
    requires { length m.now ≡ n * n }
    ensures { result ≡ trace_cube m.now n }
{
    let mut s = 0.0;
    // One sum runs through all planes. A fold leaves two goals open, where this loop's invariant is a line.
    for i in 0..n {
        s = sum_rows_from(
            s,
            n,
            n,
            |j, k| entry(m, n, i, j) * entry(m, n, j, k) * entry(m, n, k, i),
        );
    }
    s
}

// The trace of the cube of the product of a and b, n by n.
pub(crate) fn trace_cube_product(a: &[f64], b: &[f64], n: usize) -> f64
    requires { (n * n ≤ 256) × (length a.now ≡ n * n) × (length b.now ≡ n * n) }
    ensures { result ≡ trace_cube (product a.now b.now n n n) n }
{
    let mut m = [0.0f64; 256];
    let size = n * n;
    product(a, b, n, n, n, &mut m[..size]);
    trace_cube(&m[..size], n)
}
