// How a run ends: one outcome, from which its status and its line follow.
ghost use Rattle.std.specs.Prelude.{◌≡◌, ◌≢◌};
ghost use Rattle.std.specs.IoError.{error_kind};
ghost use Rattle.harmscan_core.specs.Outcome.{status_at, outcome_of_fetch, outcome_of_put, EndsAt};

use crate::files::{File, Refusal};
use harm_io::{FetchFault, PutFault};
use report_verify::VerifyFault;
use scan_report::ReportFault;
use spectrum_reader::{LevelsFault, SpectrumFault};
use std::io;
use std::io::ErrorKind;
use study_model::StudyFault;

/// How a run ends.
#[derive(Clone, Copy)]
pub enum Outcome {
    /// The words have no reading.
    WordsRefused,
    /// The file can't be read.
    ReadFailed(File),
    /// The file is larger than a file may be.
    TooLarge(File),
    /// A file is refused.
    Refused(Refusal),
    /// The report can't be written.
    WriteFailed,
    /// Memory is wanting.
    NoMemory,
    /// The whole report was written, with this status.
    Written(u8),
}

/// The status that an outcome gives the program.
pub fn status(outcome: &Outcome) -> u8
    ensures { result ≡ status_at outcome.now }
{
    match outcome {
        Outcome::WordsRefused => 1,
        Outcome::ReadFailed(_) => 5,
        Outcome::TooLarge(_) => 2,
        Outcome::Refused(_) => 2,
        Outcome::WriteFailed => 6,
        Outcome::NoMemory => 7,
        Outcome::Written(status) => *status,
    }
}

/// How a run ends at a fetch that didn't give this file.
pub fn after_fetch(file: File, fault: FetchFault) -> Outcome
    ensures { result ≡ outcome_of_fetch file fault }
{
    match fault {
        FetchFault::Failed => Outcome::ReadFailed(file),
        FetchFault::TooLarge(_) => Outcome::TooLarge(file),
        FetchFault::NoMemory => Outcome::NoMemory,
    }
}

/// How a run ends at the fault of a study or of its networks.
pub fn after_fault(fault: StudyFault) -> Outcome
    ensures { EndsAt StudyFault.NoMemory Refusal.Study fault result }
{
    match fault {
        StudyFault::NoMemory => Outcome::NoMemory,
        refusal => Outcome::Refused(Refusal::Study(refusal)),
    }
}

/// How a run ends at the fault of a spectrum.
pub fn after_spectrum_fault(fault: SpectrumFault) -> Outcome
    ensures { EndsAt SpectrumFault.NoMemory Refusal.Spectrum fault result }
{
    match fault {
        SpectrumFault::NoMemory => Outcome::NoMemory,
        refusal => Outcome::Refused(Refusal::Spectrum(refusal)),
    }
}

/// How a run ends at the fault of planning levels.
pub fn after_levels_fault(fault: LevelsFault) -> Outcome
    ensures { EndsAt LevelsFault.NoMemory Refusal.Levels fault result }
{
    match fault {
        LevelsFault::NoMemory => Outcome::NoMemory,
        refusal => Outcome::Refused(Refusal::Levels(refusal)),
    }
}

/// How a run ends at the fault of a report's bytes.
pub fn after_report_fault(fault: ReportFault) -> Outcome
    ensures { EndsAt ReportFault.NoMemory Refusal.Report fault result }
{
    match fault {
        ReportFault::NoMemory => Outcome::NoMemory,
        refusal => Outcome::Refused(Refusal::Report(refusal)),
    }
}

/// How a run ends at the fault of a report beside a study.
pub fn after_verify_fault(fault: VerifyFault) -> Outcome
    ensures { EndsAt VerifyFault.NoMemory Refusal.Verify fault result }
{
    match fault {
        VerifyFault::NoMemory => Outcome::NoMemory,
        refusal => Outcome::Refused(Refusal::Verify(refusal)),
    }
}

/// How a run ends at a put that didn't take its line.
pub fn after_put(fault: PutFault) -> Outcome
    ensures { result ≡ outcome_of_put fault }
{
    match fault {
        PutFault::Failed => Outcome::WriteFailed,
        PutFault::NoMemory => Outcome::NoMemory,
    }
}

/// How a run ends whose words could not be collected: one that is no text has no reading, and else memory was wanting.
pub fn after_words(error: &io::Error) -> Outcome
    ensures text { error_kind error.now ≡ ErrorKind.InvalidData → result ≡ Outcome.WordsRefused }
    ensures memory { error_kind error.now ≢ ErrorKind.InvalidData → result ≡ Outcome.NoMemory }
{
    match error.kind() {
        ErrorKind::InvalidData => Outcome::WordsRefused,
        _ => Outcome::NoMemory,
    }
}
