// A call's answer as C is told it: 0 for answered, or the number of the question that is not met.
ghost use Rattle.std.specs.Prelude.{◌≡◌};
ghost use Rattle.kernel.specs.Question.{question_number};
ghost use Rattle.capi.specs.Told.{told, told_read};
ghost use Rattle.capi.specs.Private.{code};

use kernel::question::Question;
use tracks::read::ListSize;

// The code of a question.
pub(crate) fn refused(question: Question) -> u32
    ensures { result ≡ question_number question }
{
    u32::from(u8::from(question))
}

// The code of an answer whose result has been written.
pub(crate) fn code(answer: Result<(), Question>) -> u32
    ensures { result ≡ code answer }
{
    match answer {
        Ok(()) => 0,
        Err(question) => refused(question),
    }
}

// The code of an answer, and what it gives into its place.
pub(crate) fn enter<T: Copy>(answer: Result<T, Question>, place: &mut T) -> u32
    ensures { (result, place.new) ≡ told answer place.old }
{
    match answer {
        Ok(given) => {
            *place = given;
            0
        }
        Err(question) => refused(question),
    }
}

// The code of an answer, and its count and dimension into their places. Other answers of several fields are entered
// alike: by one function over a closure that writes them, the result stays open, since of a refusal nothing is said.
pub(crate) fn enter_read(
    answer: Result<ListSize, Question>,
    count: &mut usize,
    dimension: &mut usize,
) -> u32
    ensures { (result, (count.new, dimension.new)) ≡ told_read answer count.old dimension.old }
{
    match answer {
        Ok(size) => {
            *count = size.count;
            *dimension = size.dimension;
            0
        }
        Err(question) => refused(question),
    }
}
