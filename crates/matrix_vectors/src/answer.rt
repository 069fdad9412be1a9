// The answers of the calls.
use crate::call::Call;
use compare::{Comparison, compare};
use eigen::generic::mat_symmetric_eigen;
use kernel::question::Question;
use linalg::generic::{
    mahalanobis_distance_squared_with_inv, mat_ata, mat_cholesky, mat_frobenius, mat_mul,
    mat_quadratic_form, mat_symmetrize, mat_trace, mat_trace_cube, mat_trace_product,
    mat_transpose, mat_vec_mul, vec_norm,
};
use linalg::regularize::tikhonov;
use mat3::{mat3_det, mat3_inv, mat3_solve};
use pivoting::generic::{mahalanobis_distance_squared, mat_det, mat_inv, mat_solve, row_inf_norms};
use power::TikhonovReport;
use power::generic::{condition_number, mat_eigenvector_max, mat_largest_singular_value};
use power::regularize::tikhonov_with_report;
use repair::RegularizationReport;
use repair::regularize::{eigenvalue_floor, nearest_psd};
use std::num::nearest_usize_to_f64;

// The most dimensions of two states that are compared.
const MOST_STATES: usize = 128;

// What a record hands to its call.
#[derive(Clone, Copy)]
pub(crate) struct Arguments<'a> {
    // The three sides. To the calls that iterate, k is the most rounds; to the eigensolver, the room for its values.
    pub(crate) m: usize,
    pub(crate) k: usize,
    pub(crate) n: usize,
    // The double: a floor, alpha or a tolerance.
    pub(crate) x: f64,
    // The slices that are read.
    pub(crate) a: &'a [f64],
    pub(crate) b: &'a [f64],
    pub(crate) c: &'a [f64],
}

// A single number goes into the first entry of out.
fn enter(answer: Result<f64, Question>, out: &mut [f64]) -> Result<(), Question> {
    let x = answer?;
    if let Some(first) = out.first_mut() {
        *first = x;
    }
    Ok(())
}

// A mask as a number, that of entry k at bit k.
fn bits(mask: [bool; 16]) -> f64 {
    mask.iter()
        .rev()
        .fold(0.0, |x, is_set| 2.0 * x + if *is_set { 1.0 } else { 0.0 })
}

// Writes the report of a repair where there is room for one.
fn enter_repair(
    answer: Result<RegularizationReport, Question>,
    out: &mut [f64],
) -> Result<(), Question> {
    let report = answer?;
    if out.len() == 3 {
        out[0] = nearest_usize_to_f64(report.n_clipped);
        out[1] = report.max_clip_magnitude;
        out[2] = bits(report.clipped_indices);
    }
    Ok(())
}

// Writes the condition numbers before and after a damping where there is room for them.
fn enter_damping(
    answer: Result<TikhonovReport, Question>,
    out: &mut [f64],
) -> Result<(), Question> {
    let report = answer?;
    if out.len() == 2 {
        out[0] = report.condition_number_before;
        out[1] = report.condition_number_after;
    }
    Ok(())
}

// The kind, 0 for no distance, 1 for near and 2 for far, and the squared distance, where there is room for them.
fn enter_comparison(answer: Result<Comparison, Question>, out: &mut [f64]) -> Result<(), Question> {
    let comparison = answer?;
    if 2 <= out.len() {
        match comparison {
            Comparison::Near(d2) => {
                out[0] = 1.0;
                out[1] = d2;
            }
            Comparison::Far(d2) => {
                out[0] = 2.0;
                out[1] = d2;
            }
            Comparison::NoDistance => out[0] = 0.0,
        }
    }
    Ok(())
}

// A comparison: the first slice is the two states and the gate, the others are the covariances, and the double is the
// floor. There is no answer where n is above 128, or where the first slice is too short.
fn compared(with: Arguments, out: &mut [f64]) -> Option<Result<(), Question>> {
    if MOST_STATES < with.n {
        return None;
    }
    let (mu, rest) = with.a.split_at_checked(with.n)?;
    let (x, last) = rest.split_at_checked(with.n)?;
    let gate = *last.first()?;
    let answer = compare(mu, x, with.b, with.c, with.n, with.x, gate);
    Some(enter_comparison(answer, out))
}

// What the call answers; nothing where the record lacks what it takes. A match on an enum: which call it is stands in
// the input.
pub(crate) fn answer(call: Call, with: Arguments, out: &mut [f64]) -> Option<Result<(), Question>> {
    let Arguments {
        m,
        k,
        n,
        x,
        a,
        b,
        c,
    } = with;
    let rounds = (k % 0x1_0000_0000) as u32;
    let answer = match call {
        Call::Compare => return compared(with, out),
        Call::MatMul => mat_mul(a, b, m, k, n, out),
        Call::MatTranspose => mat_transpose(a, m, n, out),
        Call::MatAta => mat_ata(a, m, n, out),
        Call::MatFrobenius => enter(mat_frobenius(a, m, n), out),
        Call::MatSymmetrize => mat_symmetrize(a, n, out),
        Call::MatTrace => enter(mat_trace(a, n), out),
        Call::MatTraceProduct => enter(mat_trace_product(a, b, n), out),
        Call::MatTraceCube => enter(mat_trace_cube(a, b, n), out),
        Call::MatVecMul => mat_vec_mul(a, b, n, out),
        Call::MatQuadraticForm => enter(mat_quadratic_form(a, b, n), out),
        Call::VecNorm => enter(vec_norm(a, n), out),
        Call::MahalanobisDistanceSquaredWithInv => {
            enter(mahalanobis_distance_squared_with_inv(a, b, c, n), out)
        }
        Call::MatCholesky => mat_cholesky(a, n, out),
        Call::Tikhonov => tikhonov(a, x, n, out),
        Call::Mat3Det => enter(mat3_det(a), out),
        Call::Mat3Inv => mat3_inv(a, out),
        Call::Mat3Solve => mat3_solve(a, b, out),
        Call::RowInfNorms => row_inf_norms(a, n, out),
        Call::MatSolve => mat_solve(a, b, n, out),
        Call::MatInv => mat_inv(a, n, out),
        Call::MatDet => enter(mat_det(a, n), out),
        Call::MahalanobisDistanceSquared => enter(mahalanobis_distance_squared(a, b, c, n), out),
        Call::MatSymmetricEigen => {
            let (values, vectors) = out.split_at_mut(k.min(out.len()));
            mat_symmetric_eigen(a, n, values, vectors)
        }
        Call::NearestPsd => {
            let (matrix, report) = out.split_at_mut(out.len().saturating_sub(3));
            enter_repair(nearest_psd(a, x, n, matrix), report)
        }
        Call::EigenvalueFloor => {
            let (matrix, report) = out.split_at_mut(out.len().saturating_sub(3));
            enter_repair(eigenvalue_floor(a, x, n, matrix), report)
        }
        Call::MatEigenvectorMax => {
            let (vector, value) = out.split_at_mut(out.len().saturating_sub(1));
            enter(mat_eigenvector_max(a, n, rounds, x, vector), value)
        }
        Call::MatLargestSingularValue => { enter(mat_largest_singular_value(a, n, rounds, x), out) }
        Call::ConditionNumber => enter(condition_number(a, n), out),
        Call::TikhonovWithReport => {
            let (matrix, report) = out.split_at_mut(out.len().saturating_sub(2));
            enter_damping(tikhonov_with_report(a, x, n, matrix), report)
        }
    };
    Some(answer)
}
