// The calls for C and Rust, under names that begin with pel_ and declared in include/pelosumba.h: thin, each with its call's own contract.
#![tactic(auto)]

pub mod comparisons;
pub mod eigenpairs;
pub mod fusions;
pub mod lists;
pub mod matrices;
pub mod merges;
pub mod numbers;
pub mod powers;
pub mod repairs;
pub mod solvers;
mod told;
