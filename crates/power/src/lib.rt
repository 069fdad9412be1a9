// Power iteration on f64 matrices of sides 1 to 16: the dominant eigenvector, the largest singular value and the condition number.
// Parameters stand in the order of the call, and that two slices have one length is a clause each: a struct of the
// two would say it no shorter.
#![tactic(auto)]

pub mod generic;
mod inverse;
pub mod regularize;
mod rounds;
mod vector;

// So that a user names only the crate that is called.
pub use kernel::question::Question;

// What a damping did to the condition number.
#[derive(Clone, Copy, Debug, PartialEq)]
pub struct TikhonovReport {
    pub alpha: f64,
    pub condition_number_before: f64,
    pub condition_number_after: f64,
}
