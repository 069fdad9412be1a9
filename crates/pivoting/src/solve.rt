// The solution of a x = b for several right sides at once, and the inverse: the solution against the identity.
ghost use Rattle.std.specs.Prelude.{ℕ, ◌≡◌, ◌+◌, ◌*◌, ◌<◌, ◌≤◌, length, List, Float};
ghost use Rattle.dense.specs.Answer.{Leaves};
ghost use Rattle.dense.specs.Matrix.{identity};
ghost use Rattle.pivoting.specs.Pivot.{stage};
ghost use Rattle.pivoting.specs.Solve.{augmented_entry, solved_from, solved, inverse};
ghost use Rattle.pivoting.specs.Private.{Elimination, System};

use crate::norms::{row_norms, some_scale};
use crate::reduce::reduce;
use dense::fill::fill_matrix;
use dense::shape::entry;
use dense::unit::unit;
use kernel::question::Question;

// Entry (i, j) of [a | b], for a n by n and b n by r.
fn augmented_entry(a: &[f64], b: &[f64], n: usize, r: usize, i: usize, j: usize) -> f64
    requires { (i < n) × (j < n + r) × (length a.now ≡ n * n) × (length b.now ≡ n * r) }
    ensures { result ≡ augmented_entry a.now b.now n r i j }
{
    if j < n {
        return entry(a, n, i, j);
    }
    entry(b, r, i, j - n)
}

// Entry (i, j) of [a | I], for a n by n.
fn joined_entry(a: &[f64], n: usize, i: usize, j: usize) -> f64
    requires { (i < n) × (j < n + n) × (length a.now ≡ n * n) }
    ensures { result ≡ augmented_entry a.now (identity n) n n i j }
{
    if j < n {
        return entry(a, n, i, j);
    }
    unit(i, j - n)
}

// Questions 5 and 6 of m with r right sides, and s, the norms of its rows, and then what the right sides become into
// out. x is room for a row.
fn eliminate(
    m: &mut [f64],
    s: &mut [f64],
    x: &mut [f64],
    r: usize,
    out: &mut [f64],
) -> Result<(), Question>
    requires { let n = length s.old in (length x.old ≡ n + r) × Elimination m.old s.old x.old × (length out.old ≡ n * r) }
    ensures { Leaves (solved_from (length s.old) r (stage m.old s.old)) out.old result out.new }
{
    let n = s.len();
    if !some_scale(s) {
        return Err(Question::RowNorm);
    }
    reduce(m, s, x)?;
    let w = x.len();
    fill_matrix(|i, j| entry(m, w, i, n + j), n, r, out);
    Ok(())
}

// Questions 5 and 6, and then the x with a x = b, for a n by n and b n by r, into out, where f i j is entry (i, j) of
// [a | b]. There is room for N rows, W columns and SIZE entries.
#[tactic(auto, unfolding(crate::specs::Solve::augmented, crate::specs::Solve::solved))]
fn solve_within<F: Fn(usize, usize) -> f64, const N: usize, const W: usize, const SIZE: usize>(
    a: &[f64],
    f: F,
    n: usize,
    r: usize,
    out: &mut [f64],
) -> Result<(), Question>
    requires sizes { (N ≤ 16) × (W ≤ 32) × (SIZE ≤ 512) }
    requires room { (n ≤ N) × (n + r ≤ W) × (n * (n + r) ≤ SIZE) }
    requires lengths { (length a.now ≡ n * n) × (length out.old ≡ n * r) }
    requires callable { (i j : ℕ) → i < n → j < n + r → F.pre f i j }
    ensures { (b : List Float) → ((i j : ℕ) (x : _) → i < n → j < n + r → F.post f i j x → x ≡ augmented_entry a.now b n r i j)
        → Leaves (solved a.now b n r) out.old result out.new }
{
    let mut m = [0.0f64; SIZE];
    let mut s = [0.0f64; N];
    let mut x = [0.0f64; W];
    let w = n + r;
    let m = &mut m[..n * w];
    let s = &mut s[..n];
    row_norms(a, s);
    fill_matrix(f, n, w, m);
    eliminate(m, s, &mut x[..w], r, out)
}

// The same with the room that the order needs. It is chosen by tests: arrays have fixed sizes.
fn solve_by<F: Fn(usize, usize) -> f64>(
    a: &[f64],
    f: F,
    n: usize,
    r: usize,
    out: &mut [f64],
) -> Result<(), Question>
    requires order { (n ≤ 16) × (r ≤ n) }
    requires lengths { (length a.now ≡ n * n) × (length out.old ≡ n * r) }
    requires callable { (i j : ℕ) → i < n → j < n + r → F.pre f i j }
    ensures { (b : List Float) → ((i j : ℕ) (x : _) → i < n → j < n + r → F.post f i j x → x ≡ augmented_entry a.now b n r i j)
        → Leaves (solved a.now b n r) out.old result out.new }
{
    if n <= 4 {
        return solve_within::<F, 4, 8, 32>(a, f, n, r, out);
    }
    solve_within::<F, 16, 32, 512>(a, f, n, r, out)
}

// Questions 5 and 6, and then the x with a x = b, for a n by n and b n by r, into out.
pub(crate) fn solve(
    a: &[f64],
    b: &[f64],
    n: usize,
    r: usize,
    out: &mut [f64],
) -> Result<(), Question>
    requires { (n ≤ 16) × (r ≤ n) × System n r a.now b.now out.old }
    ensures { Leaves (solved a.now b.now n r) out.old result out.new }
{
    solve_by(a, |i, j| augmented_entry(a, b, n, r, i, j), n, r, out)
}

// Questions 5 and 6, and then the inverse of a, n by n, into out.
#[tactic(auto, unfolding(crate::specs::Solve::inverse))]
pub(crate) fn inverse(a: &[f64], n: usize, out: &mut [f64]) -> Result<(), Question>
    requires { (n ≤ 16) × (length a.now ≡ n * n) × (length out.old ≡ n * n) }
    ensures { Leaves (inverse a.now n) out.old result out.new }
{
    solve_by(a, |i, j| joined_entry(a, n, i, j), n, n, out)
}
