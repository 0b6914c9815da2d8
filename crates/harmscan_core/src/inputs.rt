// The files that the words name, each read where those before it are accepted.
ghost use Rattle.std.specs.Prelude.{IfOk, IfErr, OnOk, List, option_map};
ghost use Rattle.study_model.specs.Lawful.{IsLawful};
ghost use Rattle.study_networks.specs.Networks.{AreNetworksOf, HasLive};
ghost use Rattle.spectrum_reader.specs.Lawful.{IsLawfulSpectrum};
ghost use Rattle.spectrum_reader.specs.declared.level.Level.{Level};
ghost use Rattle.harmscan_core.specs.Accepted.{AreLevels, RefusesLevels};
ghost use Rattle.harmscan_core.specs.Files.{Reads};
ghost use Rattle.harmscan_core.specs.Inputs.{study_alone, injections_in, levels_in, rows_in, subject_of, checked_of, IsVerified};
ghost use Rattle.harmscan_core.specs.Outcome.{RefusesNetworks};
ghost use Rattle.harmscan_core.specs.Subject.{StudyBy, SpectrumBy, LevelsBy, ReportBy, ReadsFor};
ghost use Rattle.harmscan_core.specs.Words.{limits, verify};
ghost use Rattle.harmscan_core.specs.declared.files.File.TheVariants as file;

use crate::files::File;
use crate::limits::LONGEST_FILE;
use crate::outcome::{
    Outcome, after_fault, after_fetch, after_levels_fault, after_report_fault,
    after_spectrum_fault, after_verify_fault,
};
use harm_io::Shelf;
use harmonic_injection::check_paths;
use report_verify::{Verified, verify};
use scan_report::{Report, read_report};
use spectrum_reader::{Levels, Spectrum, read_levels, read_spectrum};
use sqlite_items::Items;
use std::alloc::Global;
use study_model::Study;
use study_networks::{StudyNetworks, study_networks};
use study_reader::read_study;

/// A study that is accepted, with its networks.
#[derive(Drop)]
pub struct AcceptedStudy {
    pub study: Study,
    pub networks: StudyNetworks,
}

/// What `limits` reads: a study that is accepted, a spectrum each of whose currents has a path where the study's model asks for it, and
/// planning levels, none where the words name no file of them.
#[derive(Drop)]
pub struct Inputs {
    pub accepted: AcceptedStudy,
    pub spectrum: Spectrum,
    pub levels: Levels,
}

/// A report that is right of a study, with the numbers of its scans and boxes.
#[derive(Drop)]
pub struct RightReport {
    pub report: Report,
    pub verified: Verified,
}

/// What `verify` reads: a study that is accepted, and a report that is right of it.
#[derive(Drop)]
pub struct Checked {
    pub accepted: AcceptedStudy,
    pub right: RightReport,
}

/// The networks of a study, where they are accepted.
#[tactic(auto, using(crate::proofs::Accepted::networks_end))]
pub fn accepted_networks(alloc: Global, study: &Study) -> Result<StudyNetworks, Outcome>
    requires { IsLawful study.now }
    ensures networks { IfOk result (AreNetworksOf study.now) }
    ensures live { OnOk result (HasLive study.now) }
    ensures refused { IfErr result (RefusesNetworks study.now) }
{
    match study_networks(alloc, study) {
        Ok(networks) => Ok(networks),
        Err(fault) => Err(after_fault(fault)),
    }
}

/// The study of a file, where it is accepted.
#[tactic(auto, using(crate::proofs::Accepted::networks_refused, crate::proofs::Accepted::study_unfetched, crate::proofs::Accepted::unread_refused))]
pub fn study_from<F: Shelf>(
    alloc: Global,
    name: &str,
    shelf: &mut F,
) -> Result<AcceptedStudy, Outcome>
    ensures read { StudyBy Reads name.now (F.state shelf.old) (F.state shelf.new) (study_alone result) }
    ensures study { IfOk result (λ accepted. IsLawful accepted.study) }
    ensures networks { IfOk result (λ accepted. AreNetworksOf accepted.study accepted.networks) }
    ensures live { IfOk result (λ accepted. HasLive accepted.study) }
{
    let bytes = match shelf.fetch(alloc, name, LONGEST_FILE) {
        Ok(bytes) => bytes,
        Err(fault) => return Err(after_fetch(File::Study, fault)),
    };
    match read_study(alloc, &bytes) {
        Ok(study) => match accepted_networks(alloc, &study) {
            Ok(networks) => Ok(AcceptedStudy { study, networks }),
            Err(outcome) => Err(outcome),
        },
        Err(fault) => Err(after_fault(fault)),
    }
}

/// The spectrum of a file beside a study, where each of its currents has a path that needs one.
#[tactic(auto, using(crate::proofs::Spectra::spectrum_unfetched, crate::proofs::Spectra::unread_refused, crate::proofs::Spectra::pathless_refused, harmonic_injection::proofs::Nodes::in_study))]
fn spectrum_from<F: Shelf>(
    alloc: Global,
    study: &Study,
    name: &str,
    shelf: &mut F,
) -> Result<Spectrum, Outcome>
    requires study { IsLawful study.now }
    requires live { HasLive study.now }
    ensures read { SpectrumBy Reads study.now name.now (F.state shelf.old) (F.state shelf.new) (injections_in result) }
    ensures lawful { IfOk result (λ spectrum. IsLawfulSpectrum study.now spectrum.rows) }
{
    let bytes = match shelf.fetch(alloc, name, LONGEST_FILE) {
        Ok(bytes) => bytes,
        Err(fault) => return Err(after_fetch(File::Spectrum, fault)),
    };
    match read_spectrum(alloc, &bytes, study) {
        Ok(spectrum) => match check_paths(alloc, study, &spectrum) {
            Ok(()) => Ok(spectrum),
            Err(fault) => Err(after_spectrum_fault(fault)),
        },
        Err(fault) => Err(after_spectrum_fault(fault)),
    }
}

/// The planning levels of a file beside a study.
#[tactic(auto, using(crate::proofs::Spectra::levels_unfetched, crate::proofs::Spectra::levels_refused))]
fn levels_of_file<F: Shelf>(
    alloc: Global,
    study: &Study,
    name: &str,
    shelf: &mut F,
) -> Result<Levels, Outcome>
    requires study { IsLawful study.now }
    ensures { Reads (List Level) file.Levels (AreLevels study.now) (RefusesLevels study.now) name.now (F.state shelf.old) (F.state shelf.new) (levels_in result) }
{
    let bytes = match shelf.fetch(alloc, name, LONGEST_FILE) {
        Ok(bytes) => bytes,
        Err(fault) => return Err(after_fetch(File::Levels, fault)),
    };
    match read_levels(alloc, &bytes, study) {
        Ok(levels) => Ok(levels),
        Err(fault) => Err(after_levels_fault(fault)),
    }
}

/// The planning levels of the file that the words name, or none.
fn levels_from<F: Shelf>(
    alloc: Global,
    study: &Study,
    name: Option<&str>,
    shelf: &mut F,
) -> Result<Levels, Outcome>
    requires study { IsLawful study.now }
    ensures { LevelsBy Reads study.now (option_map (λ name. name.now) name.entry) (F.state shelf.old) (F.state shelf.new) (levels_in result) }
{
    match name {
        None => Ok(Levels {
            rows: Items::new(alloc),
        }),
        Some(name) => levels_of_file(alloc, study, name, shelf),
    }
}

/// All that `limits` reads, in the order of the words.
pub fn inputs_from<F: Shelf>(
    alloc: Global,
    study: &str,
    spectrum: &str,
    levels: Option<&str>,
    shelf: &mut F,
) -> Result<Inputs, Outcome>
    ensures read { ReadsFor (limits study.now spectrum.now (option_map (λ name. name.now) levels.entry)) (F.state shelf.old) (F.state shelf.new) (subject_of result) }
    ensures study { IfOk result (λ inputs. IsLawful inputs.accepted.study) }
    ensures networks { IfOk result (λ inputs. AreNetworksOf inputs.accepted.study inputs.accepted.networks) }
    ensures live { IfOk result (λ inputs. HasLive inputs.accepted.study) }
    ensures lawful { IfOk result (λ inputs. IsLawfulSpectrum inputs.accepted.study inputs.spectrum.rows) }
{
    let accepted = match study_from(alloc, study, shelf) {
        Ok(accepted) => accepted,
        Err(outcome) => return Err(outcome),
    };
    let spectrum = match spectrum_from(alloc, &accepted.study, spectrum, shelf) {
        Ok(spectrum) => spectrum,
        Err(outcome) => return Err(outcome),
    };
    match levels_from(alloc, &accepted.study, levels, shelf) {
        Ok(levels) => Ok(Inputs {
            accepted,
            spectrum,
            levels,
        }),
        Err(outcome) => Err(outcome),
    }
}

/// The report of a file, where it is right of a study.
#[tactic(auto, using(crate::proofs::Rights::report_unfetched, crate::proofs::Rights::report_unread, crate::proofs::Rights::report_wrong))]
fn right_report_from<F: Shelf>(
    alloc: Global,
    accepted: &AcceptedStudy,
    name: &str,
    shelf: &mut F,
) -> Result<RightReport, Outcome>
    requires study { IsLawful accepted.now.study }
    requires networks { AreNetworksOf accepted.now.study accepted.now.networks }
    ensures read { ReportBy Reads accepted.now.study name.now (F.state shelf.old) (F.state shelf.new) (rows_in result) }
    ensures verified { IfOk result (IsVerified accepted.now.study) }
{
    let bytes = match shelf.fetch(alloc, name, LONGEST_FILE) {
        Ok(bytes) => bytes,
        Err(fault) => return Err(after_fetch(File::Report, fault)),
    };
    let report = match read_report(alloc, &bytes) {
        Ok(report) => report,
        Err(fault) => return Err(after_report_fault(fault)),
    };
    match verify(alloc, &accepted.study, &accepted.networks, &report) {
        Ok(verified) => Ok(RightReport { report, verified }),
        Err(fault) => Err(after_verify_fault(fault)),
    }
}

/// All that `verify` reads, in the order of the words.
pub fn checked_from<F: Shelf>(
    alloc: Global,
    study: &str,
    report: &str,
    shelf: &mut F,
) -> Result<Checked, Outcome>
    ensures read { ReadsFor (verify study.now report.now) (F.state shelf.old) (F.state shelf.new) (checked_of result) }
    ensures verified { IfOk result (λ checked. IsVerified checked.accepted.study checked.right) }
{
    let accepted = match study_from(alloc, study, shelf) {
        Ok(accepted) => accepted,
        Err(outcome) => return Err(outcome),
    };
    match right_report_from(alloc, &accepted, report, shelf) {
        Ok(right) => Ok(Checked { accepted, right }),
        Err(outcome) => Err(outcome),
    }
}
