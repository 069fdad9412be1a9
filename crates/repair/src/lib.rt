// The repair of a covariance: eigenvalues below a floor are raised to it, and the matrix is built again from its eigenvectors.
// Parameters stand in the order of the call for C.
#![tactic(auto)]

mod clip;
mod direct;
pub mod inside;
mod rebuild;
pub mod regularize;

// So that a user names only the crate that is called.
pub use kernel::question::Question;

// What a repair did: how many eigenvalues were clipped, by how much at most, and which, in descending order of the eigenvalues.
#[derive(Clone, Copy, Debug, PartialEq)]
pub struct RegularizationReport {
    pub n_clipped: usize,
    pub max_clip_magnitude: f64,
    pub clipped_indices: [bool; 16],
}
