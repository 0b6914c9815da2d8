// The candidates of a study, each with its scan and with what its sizes come to.
ghost use Rattle.std.specs.Prelude.{◌≡◌, ◌-◌, ◌++◌, Some, slice_get, OnOk, IfOk};
ghost use Rattle.std.specs.List.{AllByRecursion};
ghost use Rattle.study_model.specs.Lawful.{IsLawful, IsLawfulCandidate};
ghost use Rattle.study_networks.specs.Networks.{AreNetworksOf, HasLive};
ghost use Rattle.candidates_report.specs.Entries.{entries_from};

use crate::sizes::sizes_of;
use complex_interval::Enclosure;
use sqlite_items::Items;
use std::alloc::{AllocError, Global};
use study_model::{Candidate, ScanItem, Study};
use study_networks::StudyNetworks;
use study_variants::SizeRow;

/// A candidate: its scan, and its sizes in their order, each with how many boxes of each kind the scan has with it.
#[derive(Drop)]
pub struct Entry {
    pub scan: ScanItem,
    pub sizes: Items<SizeRow>,
}

/// The scan of a candidate.
#[tactic(auto, using(crate::proofs::Listed::scan_within))]
fn scan_of<'a>(study: &'a Study, candidate: &Candidate) -> &'a ScanItem
    requires { IsLawfulCandidate study.now candidate.now }
    ensures { slice_get study.now.scans (candidate.now.scan - 1) ≡ Some result.now }
{
    &study.scans.as_slice()[candidate.scan as usize - 1]
}

/// Puts the entries of candidates.
#[tactic(auto, using(crate::proofs::Listed::lawful_scan, crate::proofs::Listed::of_positive, crate::proofs::Listed::entry_first))]
pub(crate) fn push_entries<E: Enclosure>(
    alloc: Global,
    study: &Study,
    networks: &StudyNetworks,
    candidates: &[Candidate],
    entries: &mut Items<Entry>,
) -> Result<(), AllocError>
    requires study { IsLawful study.now }
    requires networks { AreNetworksOf study.now networks.now }
    requires live { HasLive study.now }
    requires scale { E.SCALE ≡ study.now.scale }
    requires candidates { AllByRecursion (IsLawfulCandidate study.now) candidates.now }
    ensures { OnOk result (entries.new ≡ entries.old ++ entries_from study.now candidates.now) }
{
    match candidates {
        [] => Ok(()),
        [candidate, rest @ ..] => {
            let scan = scan_of(study, candidate);
            let sizes = sizes_of::<E>(alloc, study, networks, scan, candidate.sizes.as_slice())?;
            entries.push(Entry { scan: *scan, sizes })?;
            push_entries::<E>(alloc, study, networks, rest, entries)
        }
    }
}
