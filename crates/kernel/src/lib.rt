// The number layer of the dense f64 kernel: numbers, the source's constants, and the numbers of document 01's questions.
#![tactic(auto)]

pub mod bytes;
pub mod constants;
pub mod number;
pub mod question;
