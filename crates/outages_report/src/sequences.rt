// The sequence networks of a study, in either model: whether an outage floats is asked of them.
ghost use Rattle.std.specs.Prelude.{IsFalse, IfOk};
ghost use Rattle.study_model.specs.Lawful.{IsLawful};
ghost use Rattle.study_model.specs.declared.words.Sequence.TheVariants.{Positive, Zero};
ghost use Rattle.element_parts.specs.Expansion.{passes_limits};
ghost use Rattle.sequence_network.specs.Built.{IsNetworkOf};
ghost use Rattle.sequence_network.specs.Networks.{network_of};
ghost use Rattle.sequence_network.specs.Refusals.{HaveRoom};

use net_branch::{AddFault, Network};
use sequence_network::{Networks, build_sequence};
use std::alloc::{AllocError, Global};
use study_model::{Sequence, Study};

/// The network of a sequence, which is within the limits.
fn sequence_of(alloc: Global, study: &Study, sequence: Sequence) -> Result<Network, AllocError>
    requires study { IsLawful study.now }
    requires room { IsFalse (passes_limits (network_of study.now sequence)) }
    ensures { IfOk result (IsNetworkOf study.now sequence) }
{
    match build_sequence(alloc, study, sequence) {
        Ok(network) => Ok(network),
        Err(AddFault::NoMemory) => Err(AllocError),
        Err(AddFault::TooMany) => unreachable!(),
    }
}

/// The positive and the zero network of a study, which are within the limits.
pub(crate) fn sequences_of(alloc: Global, study: &Study) -> Result<Networks, AllocError>
    requires study { IsLawful study.now }
    requires room { HaveRoom study.now }
    ensures positive { IfOk result (λ networks. IsNetworkOf study.now Positive networks.positive) }
    ensures zero { IfOk result (λ networks. IsNetworkOf study.now Zero networks.zero) }
{
    let positive = sequence_of(alloc, study, Sequence::Positive)?;
    let zero = sequence_of(alloc, study, Sequence::Zero)?;
    Ok(Networks { positive, zero })
}
