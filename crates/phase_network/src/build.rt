// The network of a study in three phases: three nodes for each bus, then the elements in the order of their numbers.
ghost use Rattle.std.specs.Prelude.{◌≢◌, IsTrue, IfOk, IfErr};
ghost use Rattle.study_model.specs.Lawful.{IsLawful};
ghost use Rattle.net_branch.specs.declared.fault.AddFault.TheVariants.{NoMemory};
ghost use Rattle.element_parts.specs.Expansion.{passes_limits};
ghost use Rattle.phase_network.specs.Phases.{phase_network_of};
ghost use Rattle.phase_network.specs.Built.{IsPhaseNetworkOf};

use crate::elements::add_element;
use net_branch::{AddFault, MAX_NODES, Network, new_network};
use sequence_network::element_count;
use std::alloc::Global;
use study_model::Study;

/// The network of a study in three phases, in per unit: the bus of a number i, from 0, has the nodes 3i, 3i + 1 and 3i + 2, for its phases a, b and
/// c; then come the elements in the order of their numbers, which count from 1 over sources, lines, transformers, loads, banks and filters.
/// Groups of three coupled branches are numbered from 1 in the order in which they come. `TooMany` exactly where it has more than `MAX_NODES`
/// nodes, those of its buses among them, or more than `MAX_BRANCHES` branches. (Arrillaga and Watson, Power System Harmonics.)
#[tactic(auto, using(crate::proofs::Branches::too_many_buses))]
pub fn build_phases(alloc: Global, study: &Study) -> Result<Network, AddFault>
    requires { IsLawful study.now }
    ensures network { IfOk result (IsPhaseNetworkOf study.now) }
    ensures too_many { IfErr result (λ fault. fault ≢ NoMemory → IsTrue (passes_limits (phase_network_of study.now))) }
{
    let buses = study.buses.len() as u32;
    if 3 * buses > MAX_NODES {
        return Err(AddFault::TooMany);
    }
    let Ok(mut network) = new_network(alloc, 3 * buses) else {
        return Err(AddFault::NoMemory);
    };
    for place in 0..element_count(study) {
        add_element(alloc, &mut network, study, place)?;
    }
    Ok(network)
}
