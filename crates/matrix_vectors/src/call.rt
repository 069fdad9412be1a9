// The calls that are replayed.
use std::fmt;
use std::fmt::{Display, Formatter};

#[derive(Clone, Copy, Debug, PartialEq, Eq)]
pub(crate) enum Call {
    MatMul,
    MatTranspose,
    MatAta,
    MatFrobenius,
    MatSymmetrize,
    MatTrace,
    MatTraceProduct,
    MatTraceCube,
    MatVecMul,
    MatQuadraticForm,
    VecNorm,
    MahalanobisDistanceSquaredWithInv,
    MatCholesky,
    Tikhonov,
    Mat3Det,
    Mat3Inv,
    Mat3Solve,
    RowInfNorms,
    MatSolve,
    MatInv,
    MatDet,
    MahalanobisDistanceSquared,
    MatSymmetricEigen,
    NearestPsd,
    EigenvalueFloor,
    Compare,
    MatEigenvectorMax,
    MatLargestSingularValue,
    ConditionNumber,
    TikhonovWithReport,
}

impl Call {
    // In the order of their numbers in a record.
    pub(crate) const ALL: [Call; 30] = [
        Call::MatMul,
        Call::MatTranspose,
        Call::MatAta,
        Call::MatFrobenius,
        Call::MatSymmetrize,
        Call::MatTrace,
        Call::MatTraceProduct,
        Call::MatTraceCube,
        Call::MatVecMul,
        Call::MatQuadraticForm,
        Call::VecNorm,
        Call::MahalanobisDistanceSquaredWithInv,
        Call::MatCholesky,
        Call::Tikhonov,
        Call::Mat3Det,
        Call::Mat3Inv,
        Call::Mat3Solve,
        Call::RowInfNorms,
        Call::MatSolve,
        Call::MatInv,
        Call::MatDet,
        Call::MahalanobisDistanceSquared,
        Call::MatSymmetricEigen,
        Call::NearestPsd,
        Call::EigenvalueFloor,
        Call::Compare,
        Call::MatEigenvectorMax,
        Call::MatLargestSingularValue,
        Call::ConditionNumber,
        Call::TikhonovWithReport,
    ];

    // The call with a number of a record. Numbers past the last begin again with the first, so it is no `From`, which
    // keeps a value.
    pub(crate) fn of(number: u64) -> Call {
        Call::ALL[number as usize % Call::ALL.len()]
    }
}

impl Display for Call {
    fn fmt<W: fmt::Write>(&self, f: &mut Formatter<W>) -> fmt::Result {
        f.write_str(match self {
            Call::MatMul => "mat_mul",
            Call::MatTranspose => "mat_transpose",
            Call::MatAta => "mat_ata",
            Call::MatFrobenius => "mat_frobenius",
            Call::MatSymmetrize => "mat_symmetrize",
            Call::MatTrace => "mat_trace",
            Call::MatTraceProduct => "mat_trace_product",
            Call::MatTraceCube => "mat_trace_cube",
            Call::MatVecMul => "mat_vec_mul",
            Call::MatQuadraticForm => "mat_quadratic_form",
            Call::VecNorm => "vec_norm",
            Call::MahalanobisDistanceSquaredWithInv => "mahalanobis_distance_squared_with_inv",
            Call::MatCholesky => "mat_cholesky",
            Call::Tikhonov => "tikhonov",
            Call::Mat3Det => "mat3_det",
            Call::Mat3Inv => "mat3_inv",
            Call::Mat3Solve => "mat3_solve",
            Call::RowInfNorms => "row_inf_norms",
            Call::MatSolve => "mat_solve",
            Call::MatInv => "mat_inv",
            Call::MatDet => "mat_det",
            Call::MahalanobisDistanceSquared => "mahalanobis_distance_squared",
            Call::MatSymmetricEigen => "mat_symmetric_eigen",
            Call::NearestPsd => "nearest_psd",
            Call::EigenvalueFloor => "eigenvalue_floor",
            Call::Compare => "compare",
            Call::MatEigenvectorMax => "mat_eigenvector_max",
            Call::MatLargestSingularValue => "mat_largest_singular_value",
            Call::ConditionNumber => "condition_number",
            Call::TikhonovWithReport => "tikhonov_with_report",
        })
    }
}
