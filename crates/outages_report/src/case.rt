// Cases: a scan in the network without one element, and its boxes.
ghost use Rattle.std.specs.Prelude.{◌≡◌, ◌<◌, length, None, IfOk};
ghost use Rattle.std.specs.List.{AllByRecursion};
ghost use Rattle.band_subdivision.specs.BoxText.{HasText};
ghost use Rattle.study_model.specs.Lawful.{IsLawful, IsLawfulScan};
ghost use Rattle.study_networks.specs.Networks.{AreNetworksOf};
ghost use Rattle.study_scans.specs.Fold.{most_boxes, tallied, no_tally};
ghost use Rattle.study_scans.specs.Scan.{spec_of};
ghost use Rattle.study_scans.specs.Walk.{IsWalkBy};
ghost use Rattle.outages_report.specs.Cases.{case_test, case_over, case_of};
ghost use Rattle.outages_report.specs.Counting.{higher, highest};

use band_subdivision::Scan;
use complex_interval::Enclosure;
use scan_report::Kind;
use std::alloc::{AllocError, Global};
use study_model::{Name, ScanItem, Study};
use study_networks::{StudyNetworks, scanned_network, scanned_node};
use study_scans::{Counts, Summit, Tally, spec_of, tally_more, walk_between};
use study_variants::outage;

/// What is found in a scan without one element: how many boxes it has, of each kind too, and the first of its peaks with the greatest bound.
#[derive(Clone, Copy)]
pub struct Case {
    pub name: Name,
    pub counts: Counts,
    pub summit: Option<Summit>,
}

/// The summit of the boxes so far and one of this kind more: the first of the peaks with the greatest bound.
fn higher(summit: Option<Summit>, kind: Kind) -> Option<Summit>
    ensures { result ≡ higher summit kind }
{
    match kind {
        Kind::Peak { at, micro_ohms } => match summit {
            Some(first) if first.micro_ohms >= micro_ohms => Some(first),
            _ => Some(Summit { at, micro_ohms }),
        },
        _ => summit,
    }
}

/// What is known after the boxes of a walk: their tally, and the first of their peaks with the greatest bound.
#[derive(Clone, Copy)]
struct Seen {
    tally: Tally,
    summit: Option<Summit>,
}

/// Takes all boxes of a walk.
fn seen_in<E: Enclosure>(walk: &mut Scan<E>) -> Seen
    requires text { AllByRecursion HasText walk.old.left }
    requires few { length walk.old.left < most_boxes }
    ensures tally { result.tally ≡ tallied no_tally walk.old.left }
    ensures summit { result.summit ≡ highest None walk.old.left }
{
    let mut tally = Tally::NONE;
    let mut summit = None;
    'boxes: while let Some(found) = walk.next_box() {
        tally = tally_more(tally, &found);
        summit = higher(summit, found.kind);
    }
    Seen { tally, summit }
}

/// Counts all boxes of the walk of a case of a scan.
fn counted<E: Enclosure>(walk: &mut Scan<E>, scan: &ScanItem) -> Case
    requires text { AllByRecursion HasText walk.old.left }
    requires few { length walk.old.left < most_boxes }
    ensures { result ≡ case_over scan.now.name walk.old.left }
{
    let seen = seen_in(walk);
    Case {
        name: scan.name,
        counts: seen.tally.counts,
        summit: seen.summit,
    }
}

/// The walk of a scan of a study over its band, in its network without an element.
fn walk_without<E: Enclosure>(
    alloc: Global,
    study: &Study,
    networks: &StudyNetworks,
    element: u32,
    scan: &ScanItem,
) -> Result<Scan<E>, AllocError>
    requires study { IsLawful study.now }
    requires networks { AreNetworksOf study.now networks.now }
    requires scan { IsLawfulScan study.now.version study.now.model study.now.buses scan.now }
    requires scale { E.SCALE ≡ study.now.scale }
    ensures { IfOk result (IsWalkBy study.now.scale (spec_of study.now scan.now) (case_test study.now element scan.now)) }
{
    let network = outage(alloc, scanned_network(study, networks, scan), element)?;
    walk_between(
        alloc,
        &network,
        &network,
        scanned_node(scan),
        spec_of(study, scan),
    )
}

/// The case of a scan of a study without an element.
pub(crate) fn case_of<E: Enclosure>(
    alloc: Global,
    study: &Study,
    networks: &StudyNetworks,
    element: u32,
    scan: &ScanItem,
) -> Result<Case, AllocError>
    requires study { IsLawful study.now }
    requires networks { AreNetworksOf study.now networks.now }
    requires scan { IsLawfulScan study.now.version study.now.model study.now.buses scan.now }
    requires scale { E.SCALE ≡ study.now.scale }
    ensures { IfOk result (λ case. case ≡ case_of study.now element scan.now) }
{
    let mut walk = walk_without::<E>(alloc, study, networks, element, scan)?;
    Ok(counted(&mut walk, scan))
}
