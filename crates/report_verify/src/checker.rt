// What the lines of a scan are checked by: what the scan is asked, and the test of its boxes.
ghost use Rattle.std.specs.Prelude.{◌≡◌, IfOk};
ghost use Rattle.study_model.specs.Lawful.{IsLawful, IsLawfulScan};
ghost use Rattle.study_networks.specs.Networks.{AreNetworksOf};
ghost use Rattle.report_verify.specs.Checks.{checking_of, checking_in, IsChecker};

use band_subdivision::{Scan, ScanSpec};
use complex_interval::Enclosure;
use fixed_decimal::Decimal;
use std::alloc::{AllocError, Global};
use study_model::{ScanItem, Study};
use study_networks::StudyNetworks;
use study_scans::{spec_of, walk_of};

/// What the lines of a scan are checked by: the frequency of order 1, the scan, what it is asked, and the walk whose test its boxes get.
#[derive(Drop)]
pub struct Checker<E: Enclosure> {
    pub hz: Decimal,
    pub scan: ScanItem,
    pub spec: ScanSpec,
    pub walk: Scan<E>,
}

/// What the lines of a scan are checked by. All memory that the tests take is taken here.
pub fn checker_of<E: Enclosure>(
    alloc: Global,
    study: &Study,
    networks: &StudyNetworks,
    scan: &ScanItem,
) -> Result<Checker<E>, AllocError>
    requires study { IsLawful study.now }
    requires networks { AreNetworksOf study.now networks.now }
    requires scan { IsLawfulScan study.now.version study.now.model study.now.buses scan.now }
    requires scale { E.SCALE ≡ study.now.scale }
    ensures checks { IfOk result (λ checker. checking_in E.SCALE checker ≡ checking_of study.now scan.now) }
    ensures is { IfOk result IsChecker }
{
    let walk = walk_of(alloc, study, networks, scan)?;
    Ok(Checker {
        hz: study.hz,
        scan: *scan,
        spec: spec_of(study, scan),
        walk,
    })
}
