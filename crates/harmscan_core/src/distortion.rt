// The report of `limits`: all its rows are formed before the first of them is put.
ghost use Rattle.study_model.specs.Lawful.{IsLawful};
ghost use Rattle.spectrum_reader.specs.Lawful.{IsLawfulSpectrum};
ghost use Rattle.harmscan_core.specs.Inputs.{subject_in};
ghost use Rattle.harmscan_core.specs.Outcome.{Reports};
ghost use Rattle.study_networks.specs.Networks.{AreNetworksOf};

use crate::formed::put_rows;
use crate::inputs::Inputs;
use crate::outcome::{Outcome, after_put};
use harm_io::Sink;
use limits_report::limits_rows;
use std::alloc::Global;

/// The report on the distortion of a spectrum in its study.
#[tactic(auto, using(crate::proofs::Distorted::distortion_written, crate::proofs::Distorted::distortion_not_taken))]
pub fn report_limits<O: Sink>(alloc: Global, inputs: &Inputs, out: &mut O) -> Outcome
    requires study { IsLawful inputs.now.accepted.study }
    requires networks { AreNetworksOf inputs.now.accepted.study inputs.now.accepted.networks }
    requires lawful { IsLawfulSpectrum inputs.now.accepted.study inputs.now.spectrum.rows }
    ensures { Reports (subject_in inputs.now) (O.state out.old) (O.state out.new) result }
{
    let accepted = &inputs.accepted;
    match limits_rows(
        alloc,
        &accepted.study,
        &accepted.networks,
        &inputs.spectrum,
        &inputs.levels,
    ) {
        Err(_) => Outcome::NoMemory,
        Ok(report) => match put_rows(report.rows.as_slice(), out) {
            Ok(()) => Outcome::Written(report.status),
            Err(fault) => after_put(fault),
        },
    }
}
