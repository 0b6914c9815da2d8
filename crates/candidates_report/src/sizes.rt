// The sizes of a bank at the bus of a scan, each with how many boxes of each kind the scan has with it.
ghost use Rattle.std.specs.Prelude.{◌≡◌, map, All, IfOk};
ghost use Rattle.study_model.specs.Lawful.{IsLawful, IsLawfulScan, IsOfPositive};
ghost use Rattle.study_model.specs.Range.{IsIn};
ghost use Rattle.study_model.specs.declared.range.TheConstants.Range.{ABOVE_ZERO};
ghost use Rattle.study_networks.specs.Networks.{AreNetworksOf, HasLive};
ghost use Rattle.study_variants.specs.Sizes.{size_row};
ghost use Rattle.candidates_report.specs.Sizes.{sizes_of};

use crate::keep::keep;
use complex_interval::Enclosure;
use fixed_decimal::Decimal;
use net_branch::NodeId;
use sqlite_items::Items;
use std::alloc::{AllocError, Global};
use study_model::{ScanItem, Study};
use study_networks::{StudyNetworks, scanned_network};
use study_scans::spec_of;
use study_variants::{Candidates, SizeRow};

/// All sizes of a bank of which none has been given yet.
fn all_sizes<E: Enclosure>(
    alloc: Global,
    candidates: &mut Candidates<E>,
) -> Result<Items<SizeRow>, AllocError>
    requires { candidates.old.given ≡ 0 }
    ensures { IfOk result (λ rows. rows ≡ map (size_row E.SCALE candidates.old) candidates.old.sizes) }
{
    let mut rows = Items::new(alloc);
    'sizes: while let Some(row) = candidates.next_size() {
        keep::<SizeRow>(&mut rows, row)?;
    }
    Ok(rows)
}

/// The sizes of a bank at the bus of a scan of the positive network, by one assembly of the network.
#[tactic(auto, using(crate::proofs::Scanned::kept_is, crate::proofs::Scanned::bus_is_live, crate::proofs::Listed::all_above))]
pub(crate) fn sizes_of<E: Enclosure>(
    alloc: Global,
    study: &Study,
    networks: &StudyNetworks,
    scan: &ScanItem,
    sizes: &[Decimal],
) -> Result<Items<SizeRow>, AllocError>
    requires study { IsLawful study.now }
    requires networks { AreNetworksOf study.now networks.now }
    requires live { HasLive study.now }
    requires scale { E.SCALE ≡ study.now.scale }
    requires scan { IsLawfulScan study.now.version study.now.model study.now.buses scan.now }
    requires positive { IsOfPositive scan.now }
    requires sizes { All (IsIn ABOVE_ZERO) sizes.now }
    ensures { IfOk result (λ rows. rows ≡ sizes_of study.now scan.now sizes.now) }
{
    let network = scanned_network(study, networks, scan);
    let node = NodeId { number: scan.bus };
    let mut candidates = Candidates::<E>::new(alloc, network, node, spec_of(study, scan), sizes)?;
    all_sizes(alloc, &mut candidates)
}
