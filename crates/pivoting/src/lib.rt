// Scaled pivoting on f64: row norms, solutions, inverses and determinants of matrices of sides 1 to 16.
// A matrix stands beside its rows and columns, under the name of a fact (`Elimination`, `TwoRows`): a struct of a
// matrix and its side was tried in linalg and was longer, and here the rows are longer than the side.
#![tactic(auto)]

mod choice;
mod det;
mod distance;
pub mod generic;
pub mod inside;
mod norms;
mod reduce;
mod rows;
mod solve;

// So that a user names only the crate that is called.
pub use kernel::question::Question;

// The best pivot row of a column so far, and its ratio.
#[derive(Clone, Copy, Debug)]
pub struct Pivot {
    pub ratio: f64,
    pub row: usize,
}
