// The files that the words name, and why they are refused.
ghost use Rattle.std.specs.Prelude.{◌≡◌, ◌≤◌, length};
ghost use Rattle.harmscan_core.specs.Lines.{file_text};

use report_verify::VerifyFault;
use scan_report::ReportFault;
use spectrum_reader::{LevelsFault, SpectrumFault};
use study_model::StudyFault;

/// A file that the words name, by what it has to be.
#[derive(Clone, Copy)]
pub enum File {
    Study,
    Spectrum,
    Levels,
    Report,
}

impl File {
    /// The word of a file, as lines on standard error have it.
    pub fn text(self) -> &'static str
        ensures text { result.now ≡ file_text self }
        ensures len { length result.now ≤ 8 }
    {
        match self {
            File::Study => "study",
            File::Spectrum => "spectrum",
            File::Levels => "levels",
            File::Report => "report",
        }
    }
}

/// Why a file is refused.
#[derive(Clone, Copy)]
pub enum Refusal {
    Study(StudyFault),
    Spectrum(SpectrumFault),
    Levels(LevelsFault),
    /// Its bytes are no report.
    Report(ReportFault),
    /// It is a report that isn't right of the study.
    Verify(VerifyFault),
}
