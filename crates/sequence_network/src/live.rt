// Whether the networks of a study are within the limits, and its buses live in them.
ghost use Rattle.std.specs.Prelude.{◌≡◌, ◌≢◌, ℕ, ◌≤◌, ◌<◌, ◌^◌, length, All, IsTrue, IsFalse, IfOk, IfErr, OnOk, MatchOption};
ghost use Rattle.network_theory.specs.Live.{Live};
ghost use Rattle.study_model.specs.Lawful.{IsLawful};
ghost use Rattle.study_model.specs.declared.words.Sequence.TheVariants.{Positive, Zero};
ghost use Rattle.study_model.specs.declared.fault.StudyFault.{StudyFault};
ghost use Rattle.study_model.specs.declared.fault.StudyFault.TheVariants.{TooMany, NoMemory};
ghost use Rattle.net_branch.specs.Exact.{exact_network};
ghost use Rattle.net_branch.specs.LiveNodes.{AreLive};
ghost use Rattle.element_parts.specs.Expansion.{passes_limits};
ghost use Rattle.sequence_network.specs.Networks.{network_of};
ghost use Rattle.sequence_network.specs.Built.{IsNetworkOf};
ghost use Rattle.sequence_network.specs.Refusals.{network_place, bus_place, scan_place, IsLiveScan, IsFirstDead, IsFloatingBus, IsFloatingScan, AreLiveBuses, IsLiveRefusal, HasLiveNetworks};

use crate::build::build_sequence;
use net_branch::{AddFault, Network, live};
use std::alloc::Global;
use study_model::{Key, Place, ScanItem, Section, Sequence, Study, StudyFault};

/// The two sequence networks of a study, in per unit.
#[derive(Drop)]
pub struct Networks {
    pub positive: Network,
    pub zero: Network,
}

/// The network of a sequence, or why the study is refused for it: `TooMany` where it has more than `MAX_NODES` nodes or more than
/// `MAX_BRANCHES` branches.
pub fn checked_network(
    alloc: Global,
    study: &Study,
    sequence: Sequence,
) -> Result<Network, StudyFault>
    requires { IsLawful study.now }
    ensures network { IfOk result (IsNetworkOf study.now sequence) }
    ensures place { IfErr result (λ fault. fault ≢ NoMemory → fault ≡ TooMany network_place) }
    ensures too_many { IfErr result (λ fault. fault ≢ NoMemory → IsTrue (passes_limits (network_of study.now sequence))) }
{
    match build_sequence(alloc, study, sequence) {
        Ok(network) => Ok(network),
        Err(AddFault::NoMemory) => Err(StudyFault::NoMemory),
        Err(AddFault::TooMany) => Err(StudyFault::TooMany(Place {
            section: Section::Network,
            entry: 0,
            key: Key::Nothing,
        })),
    }
}

/// The first of so many bus nodes that isn't live, where there is one.
pub fn first_dead(network: &Network, live: &[bool], buses: u32) -> Option<u32>
    requires live { AreLive network.now live.now }
    requires within { buses ≤ network.now.nodes }
    ensures { MatchOption result ((n : ℕ) → n < buses → Live (exact_network network.now) n) (IsFirstDead (exact_network network.now) buses) }
{
    for number in 0..buses {
        if !live[number as usize] {
            return Some(number);
        }
    }
    None
}

/// The first of so many buses that isn't live is refused.
fn check_buses(network: &Network, live: &[bool], buses: u32) -> Result<(), StudyFault>
    requires live { AreLive network.now live.now }
    requires within { buses ≤ network.now.nodes }
    requires few { buses < 2 ^ 31 }
    ensures ok { OnOk result ((n : ℕ) → n < buses → Live (exact_network network.now) n) }
    ensures floating { IfErr result (IsFloatingBus (exact_network network.now) buses) }
{
    match first_dead(network, live, buses) {
        None => Ok(()),
        Some(number) => Err(StudyFault::Floating(Place {
            section: Section::Bus,
            entry: number + 1,
            key: Key::Nothing,
        })),
    }
}

/// Whether a scan is one of the zero network, at a bus that isn't live there.
fn is_floating(network: &Network, live: &[bool], scan: &ScanItem) -> bool
    requires live { AreLive network.now live.now }
    requires within { scan.now.bus < network.now.nodes }
    ensures live { IsFalse result → IsLiveScan (exact_network network.now) scan.now }
    ensures dead { IsTrue result → ¬ (IsLiveScan (exact_network network.now) scan.now) }
{
    match scan.network {
        Sequence::Positive => false,
        Sequence::Zero => !live[scan.bus as usize],
    }
}

/// The first scan of the zero network whose bus isn't live there is refused.
fn check_scans(network: &Network, live: &[bool], scans: &[ScanItem]) -> Result<(), StudyFault>
    requires live { AreLive network.now live.now }
    requires within { All (λ scan. scan.bus < network.now.nodes) scans.now }
    requires few { length scans.now < 2 ^ 31 }
    ensures ok { OnOk result (All (IsLiveScan (exact_network network.now)) scans.now) }
    ensures floating { IfErr result (IsFloatingScan (exact_network network.now) scans.now) }
{
    let mut number = 1;
    for scan in scans {
        if is_floating(network, live, scan) {
            return Err(StudyFault::Floating(Place {
                section: Section::Scan,
                entry: number,
                key: Key::Bus,
            }));
        }
        number += 1;
    }
    Ok(())
}

/// The first bus of a study that isn't live in its positive network is refused.
pub fn check_positive(alloc: Global, study: &Study, positive: &Network) -> Result<(), StudyFault>
    requires study { IsLawful study.now }
    requires positive { IsNetworkOf study.now Positive positive.now }
    ensures live { OnOk result (AreLiveBuses study.now) }
    ensures floating { IfErr result (λ fault. fault ≢ NoMemory → IsFloatingBus (network_of study.now Positive) (length study.now.buses) fault) }
{
    let Ok(in_positive) = live(alloc, positive) else {
        return Err(StudyFault::NoMemory);
    };
    check_buses(positive, &in_positive, study.buses.len() as u32)
}

/// The first scan of a study's zero network whose bus isn't live there is refused.
fn check_zero(alloc: Global, study: &Study, zero: &Network) -> Result<(), StudyFault>
    requires study { IsLawful study.now }
    requires zero { IsNetworkOf study.now Zero zero.now }
    ensures live { OnOk result (All (IsLiveScan (network_of study.now Zero)) study.now.scans) }
    ensures floating { IfErr result (λ fault. fault ≢ NoMemory → IsFloatingScan (network_of study.now Zero) study.now.scans fault) }
{
    let Ok(in_zero) = live(alloc, zero) else {
        return Err(StudyFault::NoMemory);
    };
    check_scans(zero, &in_zero, study.scans.as_slice())
}

/// Whether the buses of a study are live in its networks.
fn check_networks(
    alloc: Global,
    study: &Study,
    positive: &Network,
    zero: &Network,
) -> Result<(), StudyFault>
    requires study { IsLawful study.now }
    requires positive { IsNetworkOf study.now Positive positive.now }
    requires zero { IsNetworkOf study.now Zero zero.now }
    ensures live { OnOk result (HasLiveNetworks study.now) }
    ensures refused { IfErr result (λ fault. fault ≢ NoMemory → IsLiveRefusal study.now fault) }
{
    check_positive(alloc, study, positive)?;
    check_zero(alloc, study, zero)
}

/// The positive and the zero network of a study, where both are within the limits and its buses live in them. The first refusal in this
/// order: `TooMany` of the positive and then of the zero network; `Floating` of the first bus that isn't live in the positive network;
/// `Floating` of the first scan of the zero network whose bus isn't live there. (This project's own.)
pub fn networks_of(alloc: Global, study: &Study) -> Result<Networks, StudyFault>
    requires { IsLawful study.now }
    ensures positive { IfOk result (λ networks. IsNetworkOf study.now Positive networks.positive) }
    ensures zero { IfOk result (λ networks. IsNetworkOf study.now Zero networks.zero) }
    ensures live { OnOk result (HasLiveNetworks study.now) }
    ensures refused { IfErr result (λ fault. fault ≢ NoMemory → IsLiveRefusal study.now fault) }
{
    let positive = checked_network(alloc, study, Sequence::Positive)?;
    let zero = checked_network(alloc, study, Sequence::Zero)?;
    match check_networks(alloc, study, &positive, &zero) {
        Ok(()) => Ok(Networks { positive, zero }),
        Err(fault) => Err(fault),
    }
}

/// Whether `networks_of` answers networks for a study, else its refusal.
#[tactic(auto, using(crate::proofs::Liveness::no_refusal))]
pub fn check_live(alloc: Global, study: &Study) -> Result<(), StudyFault>
    requires { IsLawful study.now }
    ensures ok { OnOk result (HasLiveNetworks study.now) }
    ensures refused { IfErr result (λ fault. fault ≢ NoMemory → IsLiveRefusal study.now fault) }
    ensures none { OnOk result ((fault : StudyFault) → ¬ (IsLiveRefusal study.now fault)) }
{
    match networks_of(alloc, study) {
        Ok(_) => Ok(()),
        Err(fault) => Err(fault),
    }
}
