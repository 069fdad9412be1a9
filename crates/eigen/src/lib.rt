// Eigenvalues and eigenvectors of symmetric f64 matrices of sides 1 to 16, by the cyclic Jacobi method.
// A matrix stands beside its side, and what several functions are lent under the name of a fact (`Lent`, `Slices`,
// `Crossing`): a struct of a matrix and its side was tried in linalg, and would make the clauses of the rotations
// nearly three times as long. Parameters stand in the order of the call, and that a list is shorter than another is a
// clause each.
#![tactic(auto)]

mod angle;
pub mod generic;
pub mod inside;
mod order;
mod planes;
mod rotate;
mod start;
mod sweep;

// So that a user names only the crate that is called.
pub use kernel::question::Question;

// The angle of a rotation, by its tangent, cosine and sine.
#[derive(Clone, Copy)]
pub struct Rotation {
    pub tangent: f64,
    pub cosine: f64,
    pub sine: f64,
}

// A symmetric matrix of order 2, app and aqq on its diagonal, with the vectors in its columns.
#[derive(Clone, Copy)]
pub struct Plane {
    pub app: f64,
    pub apq: f64,
    pub aqq: f64,
    pub vpp: f64,
    pub vpq: f64,
    pub vqp: f64,
    pub vqq: f64,
}
