// The questions before an answer, numbered as in document 01. A refusal carries the first one that is not met.
ghost use Rattle.std.specs.Prelude.{◌≡◌};
ghost use Rattle.kernel.specs.Question.{question_number};

#[derive(Clone, Copy, Debug, PartialEq, Eq)]
pub enum Question {
    Side = 1,
    Length = 2,
    FiniteEntries = 3,
    FiniteEigenvalues = 4,
    RowNorm = 5,
    PivotRatio = 6,
    CholeskyPivot = 7,
    Determinant = 8,
    Header = 9,
    Count = 10,
    Dimension = 11,
    Present = 12,
    SpareBits = 13,
    FiniteField = 14,
    NonzeroField = 15,
    NothingAfter = 16,
    OneDimension = 17,
    FloorAndGate = 18,
    RowBuffer = 19,
    ListBuffer = 20,
    NoConflict = 21,
    MergedCount = 22,
}

// The number of a question in document 01; no question has the number 0.
impl From<Question> for u8 {
    ghost from_gives = { λ question n. n ≡ question_number question };

    fn from(question: Question) -> u8 {
        question as u8
    }
}
