// Matrices and vectors that are written by a rule for each entry. Each sum goes up by its index.
ghost use Rattle.std.specs.Prelude.{ℕ, ◌≡◌, ◌*◌, ◌<◌, ◌≤◌, List, length, Float};
ghost use Rattle.std.specs.Borrow.{MutBor};
ghost use Rattle.kernel.specs.Number.{mul};
ghost use Rattle.dense.specs.Matrix.{at, matrix, total};
ghost use Rattle.linalg.specs.Products.{product, transposed, gram, symmetric_part, times};

use dense::fill::{fill, fill_matrix};
use dense::shape::{entry, row};
use dense::vector::{add_scaled, dot};

// Writes the m by n product of the m by k matrix whose entry (i, l) is f(i, l), and b, k by n. The loops run along the
// rows of b.
fn product_by_rule<F: Fn(usize, usize) -> f64>(
    f: F,
    b: &[f64],
    m: usize,
    k: usize,
    n: usize,
    out: &mut [f64],
)
    requires sides { (n ≤ 16) × (length b.now ≡ k * n) × (length out.old ≡ m * n) }
    requires callable { (i l : ℕ) → i < m → l < k → F.pre f i l }
    ensures { (g : ℕ → ℕ → Float) → ((i l : ℕ) (x : _) → i < m → l < k → F.post f i l x → x ≡ g i l)
        → out.new ≡ matrix m n (λ i j. total k (λ l. mul (g i l) (at b.now n l j))) }
{
    // The sums of a row go up together: a sum an entry, by `fill_matrix`, took 2.1 to 3 times the instructions at 6, 9
    // and 16. Of rows lent by `out.chunks_exact_mut(n)` a proof knows nothing once they are back, and a for_each over l
    // is a closure with a slice in it that the borrow checker does not cover yet.
    for i in 0..m {
        let mut sums = [0.0; 16];
        for l in 0..k {
            add_scaled(f(i, l), row(b, n, l), &mut sums[..n]);
        }
        let start = i * n;
        out[start..start + n].copy_from_slice(&sums[..n]);
    }
}

// Writes the m by n product of a, m by k, and b, k by n.
#[tactic(auto, using(dense::proofs::Laws::cell), unfolding(crate::specs::Products::product))]
pub(crate) fn product(a: &[f64], b: &[f64], m: usize, k: usize, n: usize, out: &mut [f64])
    requires { (n ≤ 16) × (length a.now ≡ m * k) × (length b.now ≡ k * n) × (length out.old ≡ m * n) }
    ensures { out.new ≡ product a.now b.now m k n }
{
    product_by_rule(|i, l| entry(a, k, i, l), b, m, k, n, out);
}

// Writes the n by n product of the transpose of a, m by n, and a.
#[tactic(auto, using(dense::proofs::Laws::cell), unfolding(crate::specs::Products::gram))]
pub(crate) fn ata(a: &[f64], m: usize, n: usize, out: &mut [f64])
    requires { (n ≤ 16) × (length a.now ≡ m * n) × (length out.old ≡ n * n) }
    ensures { out.new ≡ gram a.now m n }
{
    product_by_rule(|i, l| entry(a, n, l, i), a, n, m, n, out);
}

// Writes the n by m transpose of a, m by n.
#[tactic(auto, using(dense::proofs::Laws::cell), unfolding(crate::specs::Products::transposed))]
pub(crate) fn transpose(a: &[f64], m: usize, n: usize, out: &mut [f64])
    requires { (length a.now ≡ m * n) × (length out.old ≡ n * m) }
    ensures { out.new ≡ transposed a.now m n }
{
    fill_matrix(|i, j| entry(a, n, j, i), n, m, out);
}

// Writes half the sum of a, n by n, and its transpose.
#[tactic(auto, using(dense::proofs::Laws::cell, crate::proofs::Symmetry::mean), unfolding(crate::specs::Products::symmetric_part))]
pub(crate) fn symmetrize(a: &[f64], n: usize, out: &mut [f64])
    requires { (length a.now ≡ n * n) × (length out.old ≡ n * n) }
    ensures { out.new ≡ symmetric_part a.now n }
{
    fill_matrix(
        |i, j| (entry(a, n, i, j) + entry(a, n, j, i)) * 0.5,
        n,
        n,
        out,
    );
}

// Writes the product of a, n by n, and the vector x. n is a number in the calls of `by_width`.
#[tactic(auto, using(kernel::proofs::Lists::row_within, crate::proofs::Rows::row_times), unfolding(crate::specs::Products::times))]
pub(crate) fn times_vector(a: &[f64], x: &[f64], n: usize, y: &mut [f64])
    requires { (length a.now ≡ n * n) × (length x.now ≡ n) × (length y.old ≡ n) }
    ensures { y.new ≡ times a.now x.now n n }
{
    fill(|i| dot(row(a, n, i), x), y);
}

// Has work write to out at width n. The compiler knows the widths of the usual states, and then unrolls the loops along
// a row: without this match products took up to three times as long.
pub(crate) fn by_width<F: FnOnce(usize, &mut [f64])>(n: usize, out: &mut [f64], work: F)
    requires { (p : MutBor (List Float)) → p.now ≡ out.old → F.pre work n p }
    ensures { (p q : MutBor (List Float)) × (p.now ≡ out.old) × (q.now ≡ out.new) × F.post work n p result q }
{
    match n {
        6 => work(6, out),
        9 => work(9, out),
        16 => work(16, out),
        _ => work(n, out),
    }
}
