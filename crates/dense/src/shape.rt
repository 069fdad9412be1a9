// Matrices as flat slices: the questions on sides and lengths, 1 and 2 of document 01, and what stands where.
ghost use Rattle.std.specs.Prelude.{◌≡◌, ◌&&◌, ◌+◌, ◌*◌, ◌<◌, ◌≤◌, length, take, drop};
ghost use Rattle.dense.specs.Matrix.{is_side, has_length, at, row_of};

// Whether n is a side that a matrix may have.
#[tactic(auto, unfolding(crate::specs::Matrix::is_side))]
pub fn is_side(n: usize) -> bool
    ensures { result ≡ is_side n }
{
    1 <= n && n <= 16
}

// Whether m and n are such sides.
pub fn are_sides(m: usize, n: usize) -> bool
    ensures { result ≡ (is_side m && is_side n) }
{
    is_side(m) && is_side(n)
}

// Whether m, k and n are such sides.
pub fn are_three_sides(m: usize, k: usize, n: usize) -> bool
    ensures { result ≡ (is_side m && (is_side k && is_side n)) }
{
    is_side(m) && are_sides(k, n)
}

// Whether a is a vector of n entries.
#[tactic(auto, unfolding(crate::specs::Matrix::has_length))]
pub fn is_vector(a: &[f64], n: usize) -> bool
    ensures { result ≡ has_length a.now n }
{
    a.len() == n
}

// Whether a is an m by n matrix.
#[tactic(auto, unfolding(crate::specs::Matrix::has_length))]
pub fn is_matrix(a: &[f64], m: usize, n: usize) -> bool
    requires { m * n ≤ 256 }
    ensures { result ≡ has_length a.now (m * n) }
{
    a.len() == m * n
}

// Whether a is an m by n matrix, and b a p by q one.
pub fn are_matrices(a: &[f64], m: usize, n: usize, b: &[f64], p: usize, q: usize) -> bool
    requires { (m * n ≤ 256) × (p * q ≤ 256) }
    ensures { result ≡ (has_length a.now (m * n) && has_length b.now (p * q)) }
{
    is_matrix(a, m, n) && is_matrix(b, p, q)
}

// Whether a, b and out are m by k, k by n and m by n.
pub fn are_factors(a: &[f64], b: &[f64], m: usize, k: usize, n: usize, out: &[f64]) -> bool
    requires { (m * k ≤ 256) × (k * n ≤ 256) × (m * n ≤ 256) }
    ensures { result ≡ (has_length a.now (m * k) && (has_length b.now (k * n) && has_length out.now (m * n))) }
{
    is_matrix(a, m, k) && are_matrices(b, k, n, out, m, n)
}

// Whether x is a vector of n entries, and a an n by n matrix. One line of tests, and those of `is_distance` are of
// another shape.
pub fn is_form(x: &[f64], a: &[f64], n: usize) -> bool
    requires { n * n ≤ 256 }
    ensures { result ≡ (has_length x.now n && has_length a.now (n * n)) }
{
    is_vector(x, n) && is_matrix(a, n, n)
}

// Whether x and y are vectors of n entries, and a is an n by n matrix: the line of `is_form` and one test more.
pub fn is_distance(x: &[f64], y: &[f64], a: &[f64], n: usize) -> bool
    requires { n * n ≤ 256 }
    ensures { result ≡ (has_length x.now n && (has_length y.now n && has_length a.now (n * n))) }
{
    is_vector(x, n) && is_form(y, a, n)
}

// Whether a is an n by n matrix, and x and y are vectors of n entries: the tests of `is_distance`, in the order that a
// system's definition has.
pub fn is_system(a: &[f64], x: &[f64], y: &[f64], n: usize) -> bool
    requires { n * n ≤ 256 }
    ensures { result ≡ (has_length a.now (n * n) && (has_length x.now n && has_length y.now n)) }
{
    is_matrix(a, n, n) && is_vector(x, n) && is_vector(y, n)
}

// Entry (i, j) of a, a matrix of n columns.
pub fn entry(a: &[f64], n: usize, i: usize, j: usize) -> f64
    requires { i * n + j < length a.now }
    ensures { result ≡ at a.now n i j }
{
    a[i * n + j]
}

// The n entries of a from start on; n is no length that is known, it chooses the part.
pub fn part(a: &[f64], start: usize, n: usize) -> &[f64]
    requires { start + n ≤ length a.now }
    ensures { (length result.now ≡ n) × (result.now ≡ take n (drop start a.now)) }
{
    &a[start..start + n]
}

// Row i of a, a matrix of n columns, which choose the part.
#[tactic(auto, unfolding(crate::specs::Matrix::row_of))]
pub fn row(a: &[f64], n: usize, i: usize) -> &[f64]
    requires { i * n + n ≤ length a.now }
    ensures { (length result.now ≡ n) × (result.now ≡ row_of a.now n i) }
{
    let start = i * n;
    &a[start..start + n]
}
