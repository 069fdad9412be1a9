// The calls of regularize.rs.
ghost use Rattle.std.specs.Prelude.{◌≡◌, ◌*◌, length};
ghost use Rattle.dense.specs.Answer.{Leaves};
ghost use Rattle.linalg.specs.Regularize.{damped, tikhonov};

use dense::fill::fill;
use dense::questions::ask_shape;
use dense::shape::{are_matrices, is_side};
use kernel::question::Question;

// Writes a, n by n, with alpha added on the diagonal.
#[tactic(auto, using(dense::proofs::Laws::inside, crate::proofs::Damping::damped_next, crate::proofs::Damping::damped_all))]
fn damped(a: &[f64], alpha: f64, n: usize, out: &mut [f64])
    requires { (length a.now ≡ n * n) × (length out.old ≡ n * n) }
    ensures { out.new ≡ damped a.now alpha n }
{
    // By `copy_from_slice` of two lent slices the archive for C needs memmove.
    fill(|k| a[k], out);
    // `iter_mut().step_by` leaves `returns` open; by `fill_matrix` tikhonov took up to 3.7 times the instructions.
    for i in 0..n {
        out[i * n + i] = out[i * n + i] + alpha;
    }
}

// cov, n by n, plus alpha times the identity, into out.
#[tactic(auto, using(dense::proofs::Tests::area), unfolding(dense::specs::Matrix::has_length, crate::specs::Regularize::tikhonov))]
pub fn tikhonov(cov: &[f64], alpha: f64, n: usize, out: &mut [f64]) -> Result<(), Question>
    ensures { Leaves (tikhonov cov.now alpha n out.old) out.old result out.new }
{
    ask_shape(is_side(n), || are_matrices(cov, n, n, out, n, n))?;
    damped(cov, alpha, n, out);
    Ok(())
}
