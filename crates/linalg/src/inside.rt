// The quadratic form of a difference for a caller that knows the lengths: the project's own crates call it, and no user
// does.
ghost use Rattle.std.specs.Prelude.{◌≡◌, ◌*◌, ◌≤◌, length};
ghost use Rattle.linalg.specs.Sums.{quadratic_form, difference};

use crate::sums::quadratic_form;
use dense::fill::fill;

// The quadratic form of x - mu under inv, n by n for the n entries of x.
pub fn distance_with_inv(x: &[f64], mu: &[f64], inv: &[f64]) -> f64
    requires { let n = length x.now in (n ≤ 16) × (length mu.now ≡ n) × (length inv.now ≡ n * n) }
    ensures { let n = length x.now in result ≡ quadratic_form (difference x.now mu.now n) inv.now n }
{
    let n = x.len();
    let mut delta = [0.0f64; 16];
    fill(|j| x[j] - mu[j], &mut delta[..n]);
    quadratic_form(&delta[..n], inv)
}
