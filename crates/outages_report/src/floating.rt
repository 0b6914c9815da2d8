// Whether an outage floats: without the element some bus has no path to ground.
ghost use Rattle.std.specs.Prelude.{◌≡◌, ◌+◌, ◌<◌, ◌≤◌, not, length, IfOk};
ghost use Rattle.std.specs.List.{AllByRecursion};
ghost use Rattle.network_theory.specs.Reach.{is_live};
ghost use Rattle.net_branch.specs.Exact.{exact_network};
ghost use Rattle.net_branch.specs.LiveNodes.{AreLive};
ghost use Rattle.net_branch.specs.Whole.{IsWholeNetwork};
ghost use Rattle.sequence_network.specs.Built.{IsNetworkOf};
ghost use Rattle.sequence_network.specs.Networks.{network_of};
ghost use Rattle.study_model.specs.Lawful.{IsLawful};
ghost use Rattle.study_model.specs.declared.words.Sequence.TheVariants.{Positive, Zero};
ghost use Rattle.study_variants.specs.Outages.{without};
ghost use Rattle.outages_report.specs.Floating.{some_node_is_dead, some_bus_is_dead, is_dead_in, some_scan_is_dead, zero_is_dead_in, floats};

use net_branch::{Network, live};
use sequence_network::Networks;
use std::alloc::{AllocError, Global};
use study_model::{ScanItem, Sequence, Study, StudyModel};
use study_variants::outage;

/// Whether a node isn't live, by one value for each node.
fn is_dead(network: &Network, marks: &[bool], node: u32) -> bool
    requires whole { IsWholeNetwork network.now }
    requires marks { AreLive network.now marks.now }
    requires inside { node < network.now.nodes }
    ensures { result ≡ not (is_live (exact_network network.now) node) }
{
    !marks[node as usize]
}

/// Whether one of so many nodes from a number on isn't live.
fn some_node_is_dead(network: &Network, marks: &[bool], node: u32, count: u32) -> bool
    requires whole { IsWholeNetwork network.now }
    requires marks { AreLive network.now marks.now }
    requires inside { node + count ≤ network.now.nodes }
    ensures { result ≡ some_node_is_dead (exact_network network.now) node count }
{
    if count == 0 {
        return false;
    }
    is_dead(network, marks, node) || some_node_is_dead(network, marks, node + 1, count - 1)
}

/// Whether a scan is one of the zero network, at a bus that isn't live there.
fn is_dead_scan(zero: &Network, marks: &[bool], scan: &ScanItem) -> bool
    requires whole { IsWholeNetwork zero.now }
    requires marks { AreLive zero.now marks.now }
    requires inside { scan.now.bus < zero.now.nodes }
    ensures { result ≡ is_dead_in scan.now.network (exact_network zero.now) scan.now.bus }
{
    match scan.network {
        Sequence::Positive => false,
        Sequence::Zero => is_dead(zero, marks, scan.bus),
    }
}

/// Whether one of the scans is so.
fn some_scan_is_dead(zero: &Network, marks: &[bool], scans: &[ScanItem]) -> bool
    requires whole { IsWholeNetwork zero.now }
    requires marks { AreLive zero.now marks.now }
    requires inside { AllByRecursion (λ scan. scan.bus < zero.now.nodes) scans.now }
    ensures { result ≡ some_scan_is_dead (exact_network zero.now) scans.now }
{
    match scans {
        [] => false,
        [scan, rest @ ..] => {
            is_dead_scan(zero, marks, scan) || some_scan_is_dead(zero, marks, rest)
        }
    }
}

/// Whether some bus isn't live in the positive network of a study without an element.
fn positive_is_dead(
    alloc: Global,
    study: &Study,
    positive: &Network,
    element: u32,
) -> Result<bool, AllocError>
    requires study { IsLawful study.now }
    requires positive { IsNetworkOf study.now Positive positive.now }
    ensures { IfOk result (λ dead. dead ≡ some_bus_is_dead study.now (without element (network_of study.now Positive))) }
{
    let rest = outage(alloc, positive, element)?;
    let marks = live(alloc, &rest)?;
    let buses = study.buses.len() as u32;
    Ok(some_node_is_dead(&rest, &marks, 0, buses))
}

/// Whether what has to be live in the zero network of a study isn't, without an element.
fn zero_is_dead(
    alloc: Global,
    study: &Study,
    zero: &Network,
    element: u32,
) -> Result<bool, AllocError>
    requires study { IsLawful study.now }
    requires zero { IsNetworkOf study.now Zero zero.now }
    ensures { IfOk result (λ dead. dead ≡ zero_is_dead_in study.now.model study.now (without element (network_of study.now Zero))) }
{
    let rest = outage(alloc, zero, element)?;
    let marks = live(alloc, &rest)?;
    match study.model {
        StudyModel::Sequence => Ok(some_scan_is_dead(&rest, &marks, study.scans.as_slice())),
        StudyModel::Phases => {
            let buses = study.buses.len() as u32;
            Ok(some_node_is_dead(&rest, &marks, 0, buses))
        }
    }
}

/// Whether the outage of an element floats, by the sequence networks of the study.
#[tactic(auto, unfolding(crate::specs::Floating::floats))]
pub(crate) fn floats(
    alloc: Global,
    study: &Study,
    networks: &Networks,
    element: u32,
) -> Result<bool, AllocError>
    requires study { IsLawful study.now }
    requires positive { IsNetworkOf study.now Positive networks.now.positive }
    requires zero { IsNetworkOf study.now Zero networks.now.zero }
    ensures { IfOk result (λ floating. floating ≡ floats study.now element) }
{
    let in_positive = positive_is_dead(alloc, study, &networks.positive, element)?;
    let in_zero = zero_is_dead(alloc, study, &networks.zero, element)?;
    Ok(in_positive || in_zero)
}
