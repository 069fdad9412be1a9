// A vector, or a matrix, that is written entry by entry.
ghost use Rattle.std.specs.Prelude.{ℕ, ◌≡◌, ◌*◌, ◌<◌, length, Float};
ghost use Rattle.kernel.specs.Lists.{tabulate};
ghost use Rattle.dense.specs.Matrix.{nth, matrix};

// Writes f j to each entry j of y. The closure of std's `fill_with` gets no index.
#[tactic(auto, using(crate::proofs::Entries::entries_there, crate::proofs::Entries::every_entry))]
pub fn fill<F: Fn(usize) -> f64>(f: F, y: &mut [f64])
    requires { (j : ℕ) → j < length y.old → F.pre f j }
    ensures { (g : ℕ → Float) → ((j : ℕ) (x : _) → j < length y.old → F.post f j x → x ≡ g j) → y.new ≡ tabulate (length y.old) g }
{
    for (j, z) in y.iter_mut().enumerate() {
        *z = f(j);
    }
}

// Each entry of y becomes f of it and of the entry of x.
#[tactic(auto, using(crate::proofs::Laws::by_entries))]
pub fn combine<F: Fn(f64, f64) -> f64>(f: F, x: &[f64], y: &mut [f64])
    requires size { length x.now ≡ length y.old }
    requires callable { (j : ℕ) → j < length y.old → F.pre f (nth y.old j) (nth x.now j) }
    ensures { (g : ℕ → Float) → ((j : ℕ) (z : _) → j < length y.old → F.post f (nth y.old j) (nth x.now j) z → z ≡ g j)
        → y.new ≡ tabulate (length y.old) g }
{
    // A zip with x hides the index, by which the invariant says what is written.
    for (j, u) in y.iter_mut().enumerate() {
        *u = f(*u, x[j]);
    }
}

// Writes f i j to each entry (i, j) of out, an m by n matrix.
#[tactic(auto, using(crate::proofs::Laws::matrix_by_entries))]
pub fn fill_matrix<F: Fn(usize, usize) -> f64>(f: F, m: usize, n: usize, out: &mut [f64])
    requires size { length out.old ≡ m * n }
    requires callable { (i j : ℕ) → i < m → j < n → F.pre f i j }
    ensures { (g : ℕ → ℕ → Float) → ((i j : ℕ) (x : _) → i < m → j < n → F.post f i j x → x ≡ g i j) → out.new ≡ matrix m n g }
{
    // By `chunks_exact_mut`, which takes no n of 0, a proof knows nothing of the rows; by `fill` of a row a closure
    // that calls f would need clauses of its own.
    for i in 0..m {
        for j in 0..n {
            out[i * n + j] = f(i, j);
        }
    }
}
