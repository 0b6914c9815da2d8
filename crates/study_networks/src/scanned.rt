// What a scan of a study looks at: a node of one of its networks.
ghost use Rattle.std.specs.Prelude.{◌≡◌, ◌<◌};
ghost use Rattle.study_model.specs.declared.limits.TheConstants.{MAX_BUSES};
ghost use Rattle.net_branch.specs.Exact.{exact_network};
ghost use Rattle.net_branch.specs.Whole.{IsWholeNetwork};
ghost use Rattle.study_model.specs.Lawful.{IsLawfulScan};
ghost use Rattle.study_networks.specs.Networks.{AreNetworksOf};
ghost use Rattle.study_networks.specs.Scanned.{scanned_network, scanned_node};

use crate::networks::StudyNetworks;
use element_parts::{phase_node, place_of};
use net_branch::Network;
use study_model::{ScanItem, Sequence, Study};

/// The network that a scan of a study looks at: that of its sequence, or that of the three phases.
pub fn scanned_network<'a>(
    study: &Study,
    networks: &'a StudyNetworks,
    scan: &ScanItem,
) -> &'a Network
    requires networks { AreNetworksOf study.now networks.now }
    requires scan { IsLawfulScan study.now.version study.now.model study.now.buses scan.now }
    ensures exact { exact_network result.now ≡ scanned_network study.now scan.now }
    ensures whole { IsWholeNetwork result.now }
    ensures inside { scanned_node scan.now < result.now.nodes }
{
    match networks {
        StudyNetworks::Phases(network) => network,
        StudyNetworks::Sequences(networks) => match scan.network {
            Sequence::Positive => &networks.positive,
            Sequence::Zero => &networks.zero,
        },
    }
}

/// The node that a scan looks at: its bus, or of the three nodes of its bus that of its phase.
pub fn scanned_node(scan: &ScanItem) -> u32
    requires { scan.now.bus < MAX_BUSES }
    ensures { result ≡ scanned_node scan.now }
{
    match scan.phase {
        None => scan.bus,
        Some(phase) => phase_node(scan.bus, place_of(phase)),
    }
}
