// The network of a study: a node for each bus, then the elements in the order of their numbers.
ghost use Rattle.std.specs.Prelude.{◌≢◌, IsTrue, IfOk, IfErr};
ghost use Rattle.study_model.specs.Lawful.{IsLawful};
ghost use Rattle.net_branch.specs.declared.fault.AddFault.TheVariants.{NoMemory};
ghost use Rattle.element_parts.specs.Expansion.{passes_limits};
ghost use Rattle.sequence_network.specs.Networks.{network_of};
ghost use Rattle.sequence_network.specs.Built.{IsNetworkOf};

use crate::elements::{add_element, element_count};
use net_branch::{AddFault, Network, new_network};
use std::alloc::Global;
use study_model::{Sequence, Study};

/// The positive or the zero network of a study, in per unit: a node for each bus, and the elements in the order of their numbers, which
/// count from 1 over sources, lines, transformers, loads, banks and filters. `TooMany` exactly where it has more than `MAX_NODES` nodes or
/// more than `MAX_BRANCHES` branches. (Arrillaga and Watson, Power System Harmonics.)
pub fn build_sequence(alloc: Global, study: &Study, sequence: Sequence) -> Result<Network, AddFault>
    requires { IsLawful study.now }
    ensures network { IfOk result (IsNetworkOf study.now sequence) }
    ensures too_many { IfErr result (λ fault. fault ≢ NoMemory → IsTrue (passes_limits (network_of study.now sequence))) }
{
    let buses = study.buses.len() as u32;
    let Ok(mut network) = new_network(alloc, buses) else {
        return Err(AddFault::NoMemory);
    };
    for place in 0..element_count(study) {
        add_element(alloc, &mut network, study, place, sequence)?;
    }
    Ok(network)
}
