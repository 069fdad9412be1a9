// One rotation of a symmetric matrix and of the vectors, which are kept as rows.
ghost use Rattle.std.specs.Prelude.{◌≡◌, ◌+◌, ◌*◌, ◌<◌, length, set};
ghost use Rattle.eigen.specs.Rotation.{rotated};
ghost use Rattle.eigen.specs.Private.{Crossing, Slices, turned_rows, with_corners, mirrored, state_of};

use crate::Rotation;
use crate::angle::{is_negligible, rotation};
use dense::shape::entry;

// Stores x in cell (i, j) of m, n by n.
fn put(m: &mut [f64], n: usize, i: usize, j: usize, x: f64)
    requires { (i < n) × (j < n) × (length m.old ≡ n * n) }
    ensures { m.new ≡ set m.old (i * n + j) x }
{
    m[i * n + j] = x;
}

// Turns rows p and q of m, n by n.
fn turn_rows(m: &mut [f64], n: usize, p: usize, q: usize, g: Rotation)
    requires { Crossing n p q × (length m.old ≡ n * n) }
    ensures { m.new ≡ turned_rows g n p q m.old }
{
    // By split_at_mut and a zip of iter_mut no invariant can name what the two rows hold: the result stayed open.
    for j in 0..n {
        let x = entry(m, n, p, j);
        let y = entry(m, n, q, j);
        put(m, n, p, j, g.cosine * x - g.sine * y);
        put(m, n, q, j, g.sine * x + g.cosine * y);
    }
}

// Puts app and aqq on the diagonal of m, n by n, and 0.0 where their rows and columns cross.
fn set_corners(m: &mut [f64], n: usize, p: usize, q: usize, app: f64, aqq: f64)
    requires { Crossing n p q × (length m.old ≡ n * n) }
    ensures { m.new ≡ with_corners n p q app aqq m.old }
{
    put(m, n, p, p, app);
    put(m, n, q, q, aqq);
    put(m, n, p, q, 0.0);
    put(m, n, q, p, 0.0);
}

// Copies row p of m, n by n, to column p.
fn mirror(m: &mut [f64], n: usize, p: usize)
    requires { (p < n) × (length m.old ≡ n * n) }
    ensures { m.new ≡ mirrored n p m.old }
{
    // By chunks_exact_mut row p is lent as one of the rows, and would first have to be copied out.
    for i in 0..n {
        let x = entry(m, n, p, i);
        put(m, n, i, p, x);
    }
}

// Rotates the pair (p, q) of m, n by n, and of the vectors v, or skips it.
pub(crate) fn rotate(m: &mut [f64], v: &mut [f64], n: usize, p: usize, q: usize)
    requires { Crossing n p q × Slices n m.old v.old }
    ensures { state_of n m.new v.new ≡ rotated n p q (state_of n m.old v.old) }
{
    let app = entry(m, n, p, p);
    let apq = entry(m, n, p, q);
    let aqq = entry(m, n, q, q);
    if is_negligible(app, apq, aqq) {
        return;
    }
    let g = rotation(app, apq, aqq);
    let t = g.tangent;
    turn_rows(m, n, p, q, g);
    set_corners(m, n, p, q, app - t * apq, aqq + t * apq);
    mirror(m, n, p);
    mirror(m, n, q);
    turn_rows(v, n, p, q, g);
}
