// The list record: reading and writing track lists, and handing out a track's own bytes.
// A list stands beside a place in it, `at ≤ length list`, and a track's values beside where they are written: a
// struct of a list and a place, as `Reader` is, would be taken apart at each step that moves the place.
#![tactic(auto)]

pub mod inside;
pub mod layout;
pub mod read;
pub mod reader;
pub mod record;
pub mod write;

// So that a user names only the crate that is called.
pub use kernel::question::Question;
