// Where loads, banks and filters count.
ghost use Rattle.std.specs.Prelude.{◌≡◌};
ghost use Rattle.load_filter_model.specs.Presence.{is_present};

use study_model::{Phase, Sequence};

/// Whether a load, a bank or a filter is in a network: in the positive one, and in the zero one where it is grounded or has a phase.
pub fn is_present(sequence: Sequence, grounded: bool, phase: Option<Phase>) -> bool
    ensures { result ≡ is_present sequence grounded phase }
{
    match sequence {
        Sequence::Positive => true,
        Sequence::Zero => grounded || phase.is_some(),
    }
}
