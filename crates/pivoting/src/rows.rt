// The rows of an elimination.
ghost use Rattle.std.specs.Prelude.{◌≡◌, cond, ◌+◌, ◌*◌, ◌<◌, ◌≤◌, eqb, length};
ghost use Rattle.dense.specs.Matrix.{nth, at, matrix};
ghost use Rattle.kernel.specs.Lists.{tabulate};
ghost use Rattle.pivoting.specs.Solve.{divided_entry, cleared_entry};
ghost use Rattle.pivoting.specs.Private.{TwoRows};

use dense::fill::fill;
use dense::shape::entry;
use dense::vector::subtract_scaled;

// Row i of a Gauss–Jordan step in column k, from y: the divided pivot row x where i is k, else y less its entry in column
// k times x.
#[tactic(auto, using(dense::proofs::Laws::by_entries))]
pub(crate) fn reduce_row(x: &[f64], k: usize, i: usize, y: &mut [f64])
    requires { TwoRows k x.now y.old }
    ensures { y.new ≡ tabulate (length x.now) (cleared_entry (nth x.now) (nth y.old) k i) }
{
    if i == k {
        fill(|j| x[j], y); // by `copy_from_slice` of two lent slices the archive for C needs memmove
        return;
    }
    let factor = y[k];
    subtract_scaled(factor, x, y);
}

// Writes row p of m, whose rows are as long as y, divided by its entry in column k.
pub(crate) fn divided_row(m: &[f64], p: usize, k: usize, y: &mut [f64])
    requires { let w = length y.old in (k < w) × (p * w + w ≤ length m.now) }
    ensures { let w = length y.old in y.new ≡ tabulate w (divided_entry m.now w p k) }
{
    let w = y.len();
    let d = entry(m, w, p, k);
    fill(|j| entry(m, w, p, j) / d, y);
}

// Copies row k of m, n by w, to row p. n is for the contract: it says how many rows m has.
pub(crate) fn copy_row(m: &mut [f64], n: usize, w: usize, k: usize, p: usize)
    requires { (k < n) × (p < n) × (length m.old ≡ n * w) }
    ensures { m.new ≡ matrix n w (λ i j. at m.old w (cond (eqb i p) k i) j) }
{
    // A loop: by `copy_within` the archive for C needs memmove, and small orders took up to a fifth longer.
    for j in 0..w {
        m[p * w + j] = entry(m, w, k, j);
    }
}
