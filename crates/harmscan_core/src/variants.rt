// The reports of `candidates` and `outages`: all their rows are formed before the first of them is put.
ghost use Rattle.study_model.specs.Lawful.{IsLawful};
ghost use Rattle.study_networks.specs.Networks.{AreNetworksOf, HasLive};
ghost use Rattle.harmscan_core.specs.Outcome.{Reports};
ghost use Rattle.harmscan_core.specs.Subject.{with_banks, without_elements};

use crate::formed::put_rows;
use crate::outcome::{Outcome, after_put};
use candidates_report::candidates_rows;
use harm_io::Sink;
use outages_report::outages_rows;
use std::alloc::Global;
use study_model::Study;
use study_networks::StudyNetworks;

/// The report on the candidate banks of a study.
#[tactic(auto, using(crate::proofs::VariantReports::candidates_written, crate::proofs::VariantReports::candidates_not_taken))]
pub fn report_candidates<O: Sink>(
    alloc: Global,
    study: &Study,
    networks: &StudyNetworks,
    out: &mut O,
) -> Outcome
    requires study { IsLawful study.now }
    requires networks { AreNetworksOf study.now networks.now }
    requires live { HasLive study.now }
    ensures { Reports (with_banks study.now) (O.state out.old) (O.state out.new) result }
{
    match candidates_rows(alloc, study, networks) {
        Err(_) => Outcome::NoMemory,
        Ok(report) => match put_rows(report.rows.as_slice(), out) {
            Ok(()) => Outcome::Written(report.status),
            Err(fault) => after_put(fault),
        },
    }
}

/// The report on the outages of a study.
#[tactic(auto, using(crate::proofs::VariantReports::outages_written, crate::proofs::VariantReports::outages_not_taken))]
pub fn report_outages<O: Sink>(
    alloc: Global,
    study: &Study,
    networks: &StudyNetworks,
    out: &mut O,
) -> Outcome
    requires study { IsLawful study.now }
    requires networks { AreNetworksOf study.now networks.now }
    requires live { HasLive study.now }
    ensures { Reports (without_elements study.now) (O.state out.old) (O.state out.new) result }
{
    match outages_rows(alloc, study, networks) {
        Err(_) => Outcome::NoMemory,
        Ok(report) => match put_rows(report.rows.as_slice(), out) {
            Ok(()) => Outcome::Written(report.status),
            Err(fault) => after_put(fault),
        },
    }
}
