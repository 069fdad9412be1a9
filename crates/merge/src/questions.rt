// What is told of three lists that are read: questions 9 to 16 of base, of ours and of theirs, then 17.
ghost use Rattle.std.specs.Prelude.{◌≡◌};
ghost use Rattle.merge.specs.Private.{three_of, ValuesRoom, ThreeAnswered};

use crate::verdict::Offsets;
use kernel::question::Question;
use tracks::read::{ListSize, read_with_offsets};

// How many tracks base, ours and theirs have, and their one dimension.
#[derive(Clone, Copy)]
pub(crate) struct Sizes {
    pub(crate) base: usize,
    pub(crate) ours: usize,
    pub(crate) theirs: usize,
    pub(crate) dimension: usize,
}

// Three answers in one: the sizes of lists of one dimension, or the first question that is not met.
fn three_of(
    base: Result<ListSize, Question>,
    ours: Result<ListSize, Question>,
    theirs: Result<ListSize, Question>,
) -> Result<Sizes, Question>
    ensures { result ≡ three_of base ours theirs }
{
    let base = base?;
    let ours = ours?;
    let theirs = theirs?;
    if base.dimension != ours.dimension || base.dimension != theirs.dimension {
        return Err(Question::OneDimension);
    }
    Ok(Sizes {
        base: base.count,
        ours: ours.count,
        theirs: theirs.count,
        dimension: base.dimension,
    })
}

// Reads the three lists: the fields of their tracks go to the values, and where they stand to the offsets.
pub(crate) fn read_three(
    base: &[u8],
    ours: &[u8],
    theirs: &[u8],
    base_values: &mut [f64],
    ours_values: &mut [f64],
    theirs_values: &mut [f64],
    offsets: &mut Offsets,
) -> Result<Sizes, Question>
    requires { ValuesRoom base_values.old ours_values.old theirs_values.old }
    ensures { ThreeAnswered base.now ours.now theirs.now offsets.new base_values.new ours_values.new theirs_values.new result }
{
    let base = read_with_offsets(base, base_values, &mut offsets.base);
    let ours = read_with_offsets(ours, ours_values, &mut offsets.ours);
    let theirs = read_with_offsets(theirs, theirs_values, &mut offsets.theirs);
    three_of(base, ours, theirs)
}
