// Whether the networks of a study of three phases are within the limits, and its buses live in the sequence networks.
ghost use Rattle.std.specs.Prelude.{◌≡◌, ◌≢◌, ℕ, ◌≤◌, ◌<◌, ◌^◌, length, IsTrue, IsFalse, IfOk, IfErr, OnOk};
ghost use Rattle.network_theory.specs.Live.{Live};
ghost use Rattle.study_model.specs.Lawful.{IsLawful};
ghost use Rattle.study_model.specs.declared.words.Sequence.TheVariants.{Positive, Zero};
ghost use Rattle.study_model.specs.declared.fault.StudyFault.{StudyFault};
ghost use Rattle.study_model.specs.declared.fault.StudyFault.TheVariants.{TooMany, NoMemory};
ghost use Rattle.net_branch.specs.Exact.{exact_network};
ghost use Rattle.net_branch.specs.LiveNodes.{AreLive};
ghost use Rattle.element_parts.specs.Expansion.{passes_limits};
ghost use Rattle.sequence_network.specs.Networks.{network_of};
ghost use Rattle.sequence_network.specs.Built.{IsNetworkOf};
ghost use Rattle.sequence_network.specs.Refusals.{network_place, IsFloatingBus, AreLiveBuses};
ghost use Rattle.phase_network.specs.Phases.{phase_network_of};
ghost use Rattle.phase_network.specs.Built.{IsPhaseNetworkOf};
ghost use Rattle.phase_network.specs.Refusals.{IsPhaseFloatingBus, IsPhaseRefusal, AreLiveInZero, HasLivePhases};

use crate::build::build_phases;
use net_branch::{AddFault, Network, live};
use sequence_network::{check_positive, checked_network, first_dead};
use std::alloc::Global;
use study_model::{Key, Place, Section, Sequence, Study, StudyFault};

/// The network of three phases, or why the study is refused for it: `TooMany` where it has more than `MAX_NODES` nodes or more than
/// `MAX_BRANCHES` branches.
fn checked_phases(alloc: Global, study: &Study) -> Result<Network, StudyFault>
    requires { IsLawful study.now }
    ensures network { IfOk result (IsPhaseNetworkOf study.now) }
    ensures place { IfErr result (λ fault. fault ≢ NoMemory → fault ≡ TooMany network_place) }
    ensures too_many { IfErr result (λ fault. fault ≢ NoMemory → IsTrue (passes_limits (phase_network_of study.now))) }
{
    match build_phases(alloc, study) {
        Ok(network) => Ok(network),
        Err(AddFault::NoMemory) => Err(StudyFault::NoMemory),
        Err(AddFault::TooMany) => Err(StudyFault::TooMany(Place {
            section: Section::Network,
            entry: 0,
            key: Key::Nothing,
        })),
    }
}

/// The first bus that isn't live in the zero network is refused.
fn check_zero(alloc: Global, study: &Study, zero: &Network) -> Result<(), StudyFault>
    requires study { IsLawful study.now }
    requires zero { IsNetworkOf study.now Zero zero.now }
    ensures live { OnOk result (AreLiveInZero study.now) }
    ensures floating { IfErr result (λ fault. fault ≢ NoMemory → IsPhaseFloatingBus (network_of study.now Zero) (length study.now.buses) fault) }
{
    let Ok(in_zero) = live(alloc, zero) else {
        return Err(StudyFault::NoMemory);
    };
    match first_dead(zero, &in_zero, study.buses.len() as u32) {
        None => Ok(()),
        Some(number) => Err(StudyFault::PhaseFloating(Place {
            section: Section::Bus,
            entry: number + 1,
            key: Key::Nothing,
        })),
    }
}

/// Whether the buses of a study are live in its sequence networks.
fn check_buses(
    alloc: Global,
    study: &Study,
    positive: &Network,
    zero: &Network,
) -> Result<(), StudyFault>
    requires study { IsLawful study.now }
    requires positive { IsNetworkOf study.now Positive positive.now }
    requires zero { IsNetworkOf study.now Zero zero.now }
    requires phases { IsFalse (passes_limits (phase_network_of study.now)) }
    ensures live { OnOk result (HasLivePhases study.now) }
    ensures refused { IfErr result (λ fault. fault ≢ NoMemory → IsPhaseRefusal study.now fault) }
{
    check_positive(alloc, study, positive)?;
    check_zero(alloc, study, zero)
}

/// The network of a study in three phases, where its three networks are within the limits and its buses live in the two sequence networks. The
/// first refusal in this order: `TooMany` of the positive, of the zero and then of the network of three phases; `Floating` of the first bus that
/// isn't live in the positive network; `PhaseFloating` of the first bus that isn't live in the zero network. A single phase's node may still have
/// no path to ground. (This project's own.)
pub fn phase_network_of(alloc: Global, study: &Study) -> Result<Network, StudyFault>
    requires study { IsLawful study.now }
    ensures network { IfOk result (IsPhaseNetworkOf study.now) }
    ensures live { OnOk result (HasLivePhases study.now) }
    ensures refused { IfErr result (λ fault. fault ≢ NoMemory → IsPhaseRefusal study.now fault) }
{
    let positive = checked_network(alloc, study, Sequence::Positive)?;
    let zero = checked_network(alloc, study, Sequence::Zero)?;
    let phases = checked_phases(alloc, study)?;
    match check_buses(alloc, study, &positive, &zero) {
        Ok(()) => Ok(phases),
        Err(fault) => Err(fault),
    }
}

/// Whether `phase_network_of` answers a network for a study, else its refusal.
#[tactic(auto, using(crate::proofs::Refused::no_refusal))]
pub fn check_phases(alloc: Global, study: &Study) -> Result<(), StudyFault>
    requires study { IsLawful study.now }
    ensures ok { OnOk result (HasLivePhases study.now) }
    ensures refused { IfErr result (λ fault. fault ≢ NoMemory → IsPhaseRefusal study.now fault) }
    ensures none { OnOk result ((fault : StudyFault) → ¬ (IsPhaseRefusal study.now fault)) }
{
    match phase_network_of(alloc, study) {
        Ok(_) => Ok(()),
        Err(fault) => Err(fault),
    }
}
