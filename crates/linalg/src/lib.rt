// Dense linear algebra on f64: flat slices, row by row, with their sides. A call refuses with the first of document
// 01's questions that is not met, and then no lent memory has changed.
// A matrix stands beside its sides, in the order of the call: a struct of a matrix and its side was tried, in two
// forms, and the clauses grew from 358 to 413 characters; products are of rectangles, which it does not fit.
#![tactic(auto)]

mod cholesky;
pub mod generic;
pub mod inside;
mod product;
pub mod regularize;
mod sums;

// So that a user names only the crate that is called.
pub use kernel::question::Question;
