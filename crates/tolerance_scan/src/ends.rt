// The networks of a study with every tolerance one way.
ghost use Rattle.std.specs.Prelude.{◌≡◌, IfOk};
ghost use Rattle.net_branch.specs.Exact.{exact_network};
ghost use Rattle.net_branch.specs.Whole.{IsWholeNetwork};
ghost use Rattle.study_model.specs.Lawful.{IsLawful};
ghost use Rattle.study_networks.specs.Networks.{AreNetworksOf};
ghost use Rattle.tolerance_scan.specs.Ends.{network_in, IsWide, AreWide};
ghost use Rattle.tolerance_scan.specs.Small.{AreWidenable};

use crate::tolerances::widen_by;
use net_branch::Network;
use sequence_network::Networks;
use std::alloc::{AllocError, Global};
use study_model::{ScanItem, Sequence, Study, Tolerance};
use study_networks::StudyNetworks;

/// Both sequence networks with every tolerance one way.
fn wide_sequences(
    alloc: Global,
    networks: &Networks,
    tolerances: &[Tolerance],
    upward: bool,
) -> Result<Networks, AllocError>
    requires whole_positive { IsWholeNetwork networks.now.positive }
    requires positive { AreWidenable tolerances.now (exact_network networks.now.positive) }
    requires whole_zero { IsWholeNetwork networks.now.zero }
    requires zero { AreWidenable tolerances.now (exact_network networks.now.zero) }
    ensures positive { IfOk result (λ wide. IsWide upward tolerances.now networks.now.positive wide.positive) }
    ensures zero { IfOk result (λ wide. IsWide upward tolerances.now networks.now.zero wide.zero) }
{
    let positive = widen_by(alloc, &networks.positive, tolerances, upward)?;
    let zero = widen_by(alloc, &networks.zero, tolerances, upward)?;
    Ok(Networks { positive, zero })
}

/// The networks of a study with every tolerance one way.
pub fn wide_networks(
    alloc: Global,
    study: &Study,
    networks: &StudyNetworks,
    upward: bool,
) -> Result<StudyNetworks, AllocError>
    requires study { IsLawful study.now }
    requires networks { AreNetworksOf study.now networks.now }
    ensures { IfOk result (AreWide upward study.now.tolerances networks.now) }
{
    let tolerances = study.tolerances.as_slice();
    match networks {
        StudyNetworks::Phases(network) => {
            let wide = widen_by(alloc, network, tolerances, upward)?;
            Ok(StudyNetworks::Phases(wide))
        }
        StudyNetworks::Sequences(networks) => {
            let wide = wide_sequences(alloc, networks, tolerances, upward)?;
            Ok(StudyNetworks::Sequences(wide))
        }
    }
}

/// The network that a scan looks at: that of its sequence, or that of the three phases.
pub fn network_in<'a>(networks: &'a StudyNetworks, scan: &ScanItem) -> &'a Network
    ensures { result.now ≡ network_in networks.now scan.now }
{
    match networks {
        StudyNetworks::Phases(network) => network,
        StudyNetworks::Sequences(networks) => match scan.network {
            Sequence::Positive => &networks.positive,
            Sequence::Zero => &networks.zero,
        },
    }
}
