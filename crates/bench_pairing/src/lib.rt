// The pairing under a C name, for the program in bench/ that times it: no part of a library for users.
#![tactic(auto)]

pub mod inside;
