// The eigenvalues in descending order, with their vectors.
ghost use Rattle.std.specs.Prelude.{◌≡◌, suc, ◌*◌, ◌<◌, ◌≤◌, length, take};
ghost use Rattle.kernel.specs.Lists.{tabulate};
ghost use Rattle.dense.specs.Matrix.{nth, at, matrix};
ghost use Rattle.eigen.specs.Eigen.{diagonal, index_at, spot, inserted_at, order};
ghost use Rattle.eigen.specs.Private.{Ordering, Below};

use dense::fill::{fill, fill_matrix};
use dense::shape::entry;
use std::mem::swap;

// Writes the diagonal of m, a square matrix.
#[tactic(auto, using(dense::proofs::Laws::cell))]
pub(crate) fn diagonal(m: &[f64], e: &mut [f64])
    requires { length m.now ≡ length e.old * length e.old }
    ensures { e.new ≡ diagonal m.now (length e.old) }
{
    let n = e.len();
    fill(|i| entry(m, n, i, i), e);
}

// The entry of e whose index is element k of l.
fn value_at(e: &[f64], l: &[usize], k: usize) -> f64
    requires { (k < length l.now) × (index_at l.now k < length e.now) }
    ensures { result ≡ nth e.now (index_at l.now k) }
{
    e[l[k]]
}

// Where k goes among the first k of l, which descend.
#[tactic(auto, unfolding(crate::specs::Private::Below))]
fn spot(e: &[f64], l: &[usize], k: usize) -> usize
    requires { (k < length l.now) × (k < length e.now) × Below (length e.now) k l.now }
    ensures { result ≡ spot e.now l.now k }
{
    (0..k).find(|j| value_at(e, l, *j) < e[k]).unwrap_or(k)
}

// Puts k into place j of the first k of l.
fn insert(l: &mut [usize], k: usize, j: usize)
    requires { (j ≤ k) × (k < length l.old) }
    ensures { take (suc k) l.new ≡ inserted_at k j l.old }
{
    // Each place takes what stood before it. A loop, since by rotate_right the C archive needs memmove from the C library.
    let mut next = k;
    for i in j..k + 1 {
        swap(&mut next, &mut l[i]);
    }
}

// Writes the indices of e, its entries in descending order.
pub(crate) fn sort(e: &[f64], l: &mut [usize])
    requires { length l.old ≡ length e.now }
    ensures { l.new ≡ order e.now (length e.now) }
{
    // Each index goes among those before it. By for_each, what insert needs and what l becomes stayed open.
    for k in 0..e.len() {
        let j = spot(e, l, k);
        insert(l, k, j);
    }
}

// Writes the entries of e in the order l.
#[tactic(auto, unfolding(crate::specs::Private::Below))]
pub(crate) fn arrange_values(e: &[f64], l: &[usize], y: &mut [f64])
    requires { Ordering (length e.now) l.now × (length y.old ≡ length e.now) }
    ensures { y.new ≡ tabulate (length e.now) (λ k. nth e.now (index_at l.now k)) }
{
    fill(|k| value_at(e, l, k), y);
}

// Entry i of the row of v, n by n, whose index is element k of l.
#[tactic(auto, using(dense::proofs::Laws::cell))]
fn vector_entry(v: &[f64], l: &[usize], n: usize, k: usize, i: usize) -> f64
    requires { (length v.now ≡ n * n) × (k < length l.now) × (index_at l.now k < n) × (i < n) }
    ensures { result ≡ at v.now n (index_at l.now k) i }
{
    entry(v, n, l[k], i)
}

// Writes the rows of v, n by n, as columns, in the order l.
// n is l.len(): with `let n = length l.now in` for it the two clauses are 48 characters longer.
#[tactic(auto, unfolding(crate::specs::Private::Below))]
pub(crate) fn arrange_vectors(v: &[f64], l: &[usize], n: usize, out: &mut [f64])
    requires { (length v.now ≡ n * n) × Ordering n l.now × (length out.old ≡ n * n) }
    ensures { out.new ≡ matrix n n (λ i k. at v.now n (index_at l.now k) i) }
{
    fill_matrix(|i, k| vector_entry(v, l, n, k, i), n, n, out);
}
