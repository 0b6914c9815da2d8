// Verdicts on a value of which bounds are known.
ghost use Rattle.std.specs.Prelude.{◌≡◌, ◌≤◌};
ghost use Rattle.ieee519_limits.specs.Verdicts.{AreOrdered, IsVerdict, IsTrueVerdict, verdict_of};
ghost use Rattle.ieee519_limits.specs.ExactVerdicts.{VerdictsAreExact};

use crate::bounds::{PercentBounds, Verdict};

/// The verdict on a value between two bounds by a limit, all in ten-thousandths of a percent. A value at its limit passes. Condition: the
/// low bound is at most the high one.
#[tactic(auto, unfolding(crate::specs::Verdicts::verdict_of))]
pub fn verdict(bounds: Option<PercentBounds>, limit: u64) -> Verdict
    requires { AreOrdered bounds }
    ensures answer { IsVerdict bounds limit result }
    ensures value { result ≡ verdict_of bounds limit }
    ensures truth { IsTrueVerdict bounds limit result }
{
    match bounds {
        Some(bounds) => {
            if bounds.hi <= limit {
                Verdict::Pass
            } else if bounds.lo > limit {
                Verdict::Fail
            } else {
                Verdict::Undecided
            }
        }
        None => Verdict::Undecided,
    }
}

/// Of a distortion between the bounds, the verdict is the exact one where it is `Pass` or `Fail`.
pub fn verdicts_are_exact()
    ensures law { VerdictsAreExact }
{}
