// Sums by rising index, in the order in which the source adds them.
ghost use Rattle.std.specs.Prelude.{ℕ, ◌≡◌, ◌<◌, Float};
ghost use Rattle.dense.specs.Matrix.{sum_from, sum_rows_from};

// start + f 0 + f 1 + .. + f (n - 1)
#[tactic(auto, using(crate::proofs::Laws::sum_more, kernel::proofs::Loops::turns_more), unfolding(crate::specs::Matrix::sum_from))]
pub fn sum_from<F: Fn(usize) -> f64>(start: f64, n: usize, f: F) -> f64
    requires { (j : ℕ) → j < n → F.pre f j }
    ensures { (g : ℕ → Float) → ((j : ℕ) (x : _) → j < n → F.post f j x → x ≡ g j) → result ≡ sum_from start n g }
{
    let mut s = start;
    // A loop: of a fold over 0..n the check proves neither that f may be called at each turn, nor what the sum is.
    for j in 0..n {
        s = s + f(j);
    }
    s
}

// start + f 0 0 + f 0 1 + .. + f (m - 1) (n - 1), one sum that runs through the rows
#[tactic(auto, using(crate::proofs::Laws::sum_more, kernel::proofs::Loops::turns_more), unfolding(crate::specs::Matrix::sum_from, crate::specs::Matrix::sum_rows_from))]
pub fn sum_rows_from<F: Fn(usize, usize) -> f64>(start: f64, m: usize, n: usize, f: F) -> f64
    requires { (i j : ℕ) → i < m → j < n → F.pre f i j }
    ensures { (g : ℕ → ℕ → Float) → ((i j : ℕ) (x : _) → i < m → j < n → F.post f i j x → x ≡ g i j) → result ≡ sum_rows_from start m n g }
{
    let mut s = start;
    // Likewise; by `sum_from` for each row it is not proved that its closure may call f, without clauses of its own.
    for i in 0..m {
        for j in 0..n {
            s = s + f(i, j);
        }
    }
    s
}
