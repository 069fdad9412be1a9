// A squared distance by the gate.
ghost use Rattle.std.specs.Prelude.{◌≡◌, cond};
ghost use Rattle.std.specs.Float.Ieee.{le};
ghost use Rattle.compare.specs.declared.Comparison.TheVariants.{Near, Far};
ghost use Rattle.compare.specs.Distance.{by_gate, comparison_of};

use crate::Comparison;
use dense::vector::is_finite;
use kernel::question::Question;

// What d2, a squared distance, is by the gate.
fn near_or_far(d2: f64, gate: f64) -> Comparison
    ensures { result ≡ cond (le d2 gate) (Near d2) (Far d2) }
{
    if !(d2 <= gate) {
        return Comparison::Far(d2);
    }
    Comparison::Near(d2)
}

// The same of any d2: one that is not finite, or below 0, is no distance.
#[tactic(auto, unfolding(crate::specs::Distance::by_gate))]
fn by_gate(d2: f64, gate: f64) -> Comparison
    ensures { result ≡ by_gate d2 gate }
{
    if is_finite(d2) {
        if !(d2 < 0.0) {
            return near_or_far(d2, gate);
        }
    }
    Comparison::NoDistance
}

// The same of a call's answer: what is refused has no distance.
pub(crate) fn comparison_of(answer: Result<f64, Question>, gate: f64) -> Comparison
    ensures { result ≡ comparison_of answer gate }
{
    match answer {
        Ok(d2) => by_gate(d2, gate),
        Err(_) => Comparison::NoDistance,
    }
}
