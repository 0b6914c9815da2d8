// The networks of a study, or its refusal for them, by its model.
ghost use Rattle.std.specs.Prelude.{◌≢◌, IfOk, IfErr, OnOk};
ghost use Rattle.study_model.specs.Lawful.{IsLawful};
ghost use Rattle.study_model.specs.declared.fault.StudyFault.TheVariants.{NoMemory};
ghost use Rattle.study_networks.specs.Networks.{AreNetworksOf, HasLive, IsNetworksRefusal};

use net_branch::Network;
use phase_network::phase_network_of;
use sequence_network::{Networks, networks_of};
use std::alloc::Global;
use study_model::{Study, StudyFault, StudyModel};

/// The networks of a study, in per unit.
#[derive(Drop)]
pub enum StudyNetworks {
    /// Those of its positive and of its zero sequence.
    Sequences(Networks),
    /// That of its three phases.
    Phases(Network),
}

/// The networks of a study, where they are within the limits and live where they have to be: in the sequence model those of `networks_of` of
/// `sequence_network`, in the model of three phases that of `phase_network_of` of `phase_network`, or their first refusal. (This project's own.)
#[tactic(auto, using(crate::proofs::Models::sequences_are, crate::proofs::Models::phases_are, crate::proofs::Models::live_sequences, crate::proofs::Models::live_phases, crate::proofs::Models::sequences_refused, crate::proofs::Models::phases_refused))]
pub fn study_networks(alloc: Global, study: &Study) -> Result<StudyNetworks, StudyFault>
    requires { IsLawful study.now }
    ensures networks { IfOk result (AreNetworksOf study.now) }
    ensures live { OnOk result (HasLive study.now) }
    ensures refused { IfErr result (λ fault. fault ≢ NoMemory → IsNetworksRefusal study.now fault) }
{
    match study.model {
        StudyModel::Sequence => match networks_of(alloc, study) {
            Ok(networks) => Ok(StudyNetworks::Sequences(networks)),
            Err(fault) => Err(fault),
        },
        StudyModel::Phases => match phase_network_of(alloc, study) {
            Ok(network) => Ok(StudyNetworks::Phases(network)),
            Err(fault) => Err(fault),
        },
    }
}
