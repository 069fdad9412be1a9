// What the kernel's crates on dense matrices share: the answers of their calls, the questions on sides and lengths, and
// loops over one vector. No call for users is here: a helper may have a `requires` beside a full `ensures`.
// That two slices have one length is a clause each: a struct of the two would say it no shorter.
#![tactic(auto)]

pub mod fill;
pub mod questions;
pub mod shape;
pub mod sum;
pub mod unit;
pub mod vector;
