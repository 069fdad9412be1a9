// The questions that a reader puts, in words.
use kernel::question::Question;
use std::fmt;
use std::fmt::{Display, Formatter};

#[derive(Clone, Copy, Debug, PartialEq, Eq)]
pub(crate) struct InWords(pub(crate) Question);

impl Display for InWords {
    fn fmt<W: fmt::Write>(&self, f: &mut Formatter<W>) -> fmt::Result {
        f.write_str(match self.0 {
            Question::Header => "are there two bytes?",
            Question::Count => "is the count at most 32?",
            Question::Dimension => "is the dimension 1 to 9?",
            Question::Present => "is the map, or the next stored field, all there?",
            Question::SpareBits => "are the map's spare bits 0?",
            Question::FiniteField => "is the field finite?",
            Question::NonzeroField => "is a stored field not all zero bits?",
            Question::NothingAfter => "does nothing follow the last track?",
            _ => "has each slice its length?",
        })
    }
}
