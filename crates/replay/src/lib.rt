// What the programs that replay frozen answers share: doubles by their bit patterns, bytes, a count, and the records of
// a block. A record is numbers of eight bytes, low byte first, and starts with how many it has; bytes in it are filled
// up with zeros to a whole number.
#![tactic(auto)]

mod blocks;
mod doubles;
mod records;
mod tally;

pub use blocks::{Block, Blocks};
pub use doubles::{are_same, double, first_doubles, is_same};
pub use records::{Records, after, number, part, size, split, up_to};
pub use tally::Tally;
