// The calls of mat3.rs, for 3 by 3 matrices: flat slices of nine entries, row by row. A call refuses with the
// first of document 01's questions that is not met, and then no lent memory has changed.
#![tactic(auto)]

ghost use Rattle.std.specs.Prelude.{◌≡◌, length, Ok};
ghost use Rattle.kernel.specs.Answer.{ask};
ghost use Rattle.kernel.specs.declared.question.Question.TheVariants as question;
ghost use Rattle.dense.specs.Answer.{Leaves};
ghost use Rattle.mat3.specs.Mat3.{det3, regular, inverse3, solution3, mat3_det, mat3_inv, mat3_solve};

use dense::vector::max_abs;
use kernel::constants::{MIN_POSITIVE, REL_TOL};
use kernel::number::{abs, max};
// So that a user names only the crate that is called.
pub use kernel::question::Question;

// The determinant of m.
#[tactic(auto, unfolding(crate::specs::Mat3::det3))]
fn det(m: &[f64; 9]) -> f64
    ensures { result ≡ det3 m.now }
{
    m[0] * (m[4] * m[8] - m[5] * m[7]) - m[1] * (m[3] * m[8] - m[5] * m[6])
        + m[2] * (m[3] * m[7] - m[4] * m[6])
}

// The determinant of m where it is not below what counts as zero, question 8. By a call, and not inlined, the two that
// ask it took a tenth longer.
#[inline(always)]
#[tactic(auto, unfolding(crate::specs::Mat3::regular, crate::specs::Mat3::scale))]
fn regular_det(m: &[f64; 9]) -> Result<f64, Question>
    ensures { result ≡ ask question.Determinant (regular m.now) (Ok (det3 m.now)) }
{
    let d = det(m);
    let g = max_abs(m);
    if abs(d) < REL_TOL * max(g * g * g, MIN_POSITIVE) {
        return Err(Question::Determinant);
    }
    Ok(d)
}

// The inverse of m, whose determinant is d.
#[tactic(auto, unfolding(crate::specs::Mat3::inverse3))]
fn inverse(m: &[f64; 9], d: f64) -> [f64; 9]
    requires { d ≡ det3 m.now }
    ensures { result ≡ inverse3 m.now }
{
    let t = 1.0 / d;
    [
        (m[4] * m[8] - m[5] * m[7]) * t,
        (m[2] * m[7] - m[1] * m[8]) * t,
        (m[1] * m[5] - m[2] * m[4]) * t,
        (m[5] * m[6] - m[3] * m[8]) * t,
        (m[0] * m[8] - m[2] * m[6]) * t,
        (m[2] * m[3] - m[0] * m[5]) * t,
        (m[3] * m[7] - m[4] * m[6]) * t,
        (m[1] * m[6] - m[0] * m[7]) * t,
        (m[0] * m[4] - m[1] * m[3]) * t,
    ]
}

// The solution of a x = b, where d is the determinant of a.
#[tactic(auto, unfolding(crate::specs::Mat3::solution3, crate::specs::Mat3::replaced, crate::specs::Mat3::det3, dense::specs::Matrix::matrix, kernel::specs::Lists::tabulate))]
fn solution(a: &[f64; 9], b: &[f64; 3], d: f64) -> [f64; 3]
    requires { d ≡ det3 a.now }
    ensures { result ≡ solution3 a.now b.now }
{
    let t = 1.0 / d;
    let x = det(&[b[0], a[1], a[2], b[1], a[4], a[5], b[2], a[7], a[8]]);
    let y = det(&[a[0], b[0], a[2], a[3], b[1], a[5], a[6], b[2], a[8]]);
    let z = det(&[a[0], a[1], b[0], a[3], a[4], b[1], a[6], a[7], b[2]]);
    [x * t, y * t, z * t]
}

// The determinant of m, 3 by 3.
#[tactic(auto, unfolding(dense::specs::Matrix::has_length, crate::specs::Mat3::mat3_det))]
pub fn mat3_det(m: &[f64]) -> Result<f64, Question>
    ensures { result ≡ mat3_det m.now }
{
    Ok(det(m.as_array().ok_or(Question::Length)?))
}

// The inverse of m, 3 by 3, into out.
#[tactic(auto, unfolding(dense::specs::Matrix::has_length, crate::specs::Mat3::mat3_inv))]
pub fn mat3_inv(m: &[f64], out: &mut [f64]) -> Result<(), Question>
    ensures { Leaves (mat3_inv m.now out.old) out.old result out.new }
{
    let m = m.as_array().ok_or(Question::Length)?;
    let out = out.as_mut_array().ok_or(Question::Length)?;
    let d = regular_det(m)?;
    *out = inverse(m, d);
    Ok(())
}

// The solution of a x = b, a 3 by 3, into out.
#[tactic(auto, unfolding(dense::specs::Matrix::has_length, crate::specs::Mat3::mat3_solve))]
pub fn mat3_solve(a: &[f64], b: &[f64], out: &mut [f64]) -> Result<(), Question>
    ensures { Leaves (mat3_solve a.now b.now out.old) out.old result out.new }
{
    let a = a.as_array().ok_or(Question::Length)?;
    let b = b.as_array().ok_or(Question::Length)?;
    let out = out.as_mut_array().ok_or(Question::Length)?;
    let d = regular_det(a)?;
    *out = solution(a, b, d);
    Ok(())
}
