// Questions 1 and 2 of document 01, as every call of the kernel asks them.
ghost use Rattle.std.specs.Prelude.{◌≡◌, Bool, true};
ghost use Rattle.dense.specs.Answer.{asked};

use kernel::question::Question;

// Question 1, whether the sides are sides, and then question 2, whether the lengths are theirs. Lengths are products of
// sides, so that they are asked only where the sides are small.
pub fn ask_shape<F: FnOnce() -> bool>(sides: bool, lengths: F) -> Result<(), Question>
    requires { sides ≡ true → F.pre lengths }
    ensures { (b : Bool) × (sides ≡ true → F.post lengths b) × (result ≡ asked sides b) }
{
    if !sides {
        return Err(Question::Side);
    }
    if !lengths() {
        return Err(Question::Length);
    }
    Ok(())
}
