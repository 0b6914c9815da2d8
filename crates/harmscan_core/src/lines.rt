// The lines on standard error. Each is put once, and a failure there changes no status, since the status is the answer.
ghost use Rattle.std.specs.Prelude.{◌≡◌, ◌+◌, ◌≤◌, ◌++◌, length, Some, None, if◌then◌else◌};
ghost use Rattle.std.specs.Fmt.{decimal};
ghost use Rattle.spectrum_reader.specs.Faults.{spectrum_printed, levels_printed};
ghost use Rattle.harmscan_core.specs.Lines.{line_at, place_text, number_text, refusal_text, row_number_text, printed_text, report_text, verify_text, refused_text};
ghost use Rattle.harmscan_core.specs.Outcome.{Says};

use crate::files::Refusal;
use crate::outcome::Outcome;
use harm_io::Sink;
use report_verify::VerifyFault;
use scan_report::{LineBuf, ReportFault, push_number};
use spectrum_reader::{LevelsFault, SpectrumFault};
use study_model::{Place, StudyFault};

fn push_place(line: &mut LineBuf, place: Option<Place>)
    requires { length line.old + 35 ≤ 256 }
    ensures text { line.new ≡ line.old ++ place_text place }
    ensures len { length line.new ≤ length line.old + 35 }
{
    if let Some(place) = place {
        line.push(b' ');
        line.push_text(place.section.text().as_bytes());
        line.push(b' ');
        push_number(line, place.entry);
        line.push(b' ');
        line.push_text(place.key.text().as_bytes());
    }
}

fn push_fault_number(line: &mut LineBuf, number: Option<u32>)
    requires { length line.old + 10 ≤ 256 }
    ensures text { line.new ≡ line.old ++ number_text number }
    ensures len { length line.new ≤ length line.old + 10 }
{
    if let Some(number) = number {
        push_number(line, number);
    }
}

/// The refusal of a study: its number, its name and its place.
#[tactic(auto, unfolding(crate::specs::Lines::refusal_text))]
fn push_study_refusal(line: &mut LineBuf, fault: &StudyFault)
    requires { length line.old + 62 ≤ 256 }
    ensures text { line.new ≡ line.old ++ refusal_text fault.now }
    ensures len { length line.new ≤ length line.old + 62 }
{
    push_fault_number(line, fault.number());
    line.push(b' ');
    line.push_text(fault.name().as_bytes());
    push_place(line, fault.place());
}

fn push_row_number(line: &mut LineBuf, row: Option<u32>)
    requires { length line.old + 11 ≤ 256 }
    ensures text { line.new ≡ line.old ++ row_number_text row }
    ensures len { length line.new ≤ length line.old + 11 }
{
    if let Some(row) = row {
        line.push(b' ');
        push_number(line, row);
    }
}

/// The refusal of a spectrum: its number, its name and its row.
#[tactic(auto, unfolding(crate::specs::Lines::printed_text))]
fn push_spectrum_refusal(line: &mut LineBuf, fault: SpectrumFault)
    requires { length line.old + 32 ≤ 256 }
    ensures text { line.new ≡ line.old ++ printed_text (spectrum_printed fault) }
    ensures len { length line.new ≤ length line.old + 32 }
{
    push_fault_number(line, fault.number());
    line.push(b' ');
    line.push_text(fault.name().as_bytes());
    push_row_number(line, fault.row());
}

/// The refusal of planning levels: its number, its name and its row.
#[tactic(auto, unfolding(crate::specs::Lines::printed_text))]
fn push_levels_refusal(line: &mut LineBuf, fault: LevelsFault)
    requires { length line.old + 32 ≤ 256 }
    ensures text { line.new ≡ line.old ++ printed_text (levels_printed fault) }
    ensures len { length line.new ≤ length line.old + 32 }
{
    push_fault_number(line, fault.number());
    line.push(b' ');
    line.push_text(fault.name().as_bytes());
    push_row_number(line, fault.row());
}

// A fault's number and name, and the number of a line.
fn push_at_line(line: &mut LineBuf, fault: &[u8], number: u32)
    requires { length line.old + length fault.now + 10 ≤ 256 }
    ensures text { line.new ≡ line.old ++ fault.now ++ decimal number }
    ensures len { length line.new ≤ length line.old + length fault.now + 10 }
{
    line.push_text(fault);
    push_number(line, number);
}

/// Why bytes are no report.
fn push_report_refusal(line: &mut LineBuf, fault: ReportFault)
    requires { length line.old + 25 ≤ 256 }
    ensures text { line.new ≡ line.old ++ report_text fault }
    ensures len { length line.new ≤ length line.old + 25 }
{
    match fault {
        ReportFault::BadRow(number) => push_at_line(line, b"1 BadRow ", number),
        ReportFault::NoMemory => (),
    }
}

/// Why a report isn't right of a study.
fn push_verify_refusal(line: &mut LineBuf, fault: VerifyFault)
    requires { length line.old + 25 ≤ 256 }
    ensures text { line.new ≡ line.old ++ verify_text fault }
    ensures len { length line.new ≤ length line.old + 25 }
{
    match fault {
        VerifyFault::WrongScan(number) => push_at_line(line, b"2 WrongScan ", number),
        VerifyFault::Gap(number) => push_at_line(line, b"3 Gap ", number),
        VerifyFault::NotCleared(number) => push_at_line(line, b"4 NotCleared ", number),
        VerifyFault::NotPeak(number) => push_at_line(line, b"5 NotPeak ", number),
        VerifyFault::NotUndecided(number) => push_at_line(line, b"6 NotUndecided ", number),
        VerifyFault::WrongCount(number) => push_at_line(line, b"7 WrongCount ", number),
        VerifyFault::NoMemory => (),
    }
}

/// Which file is refused, and why.
fn push_refusal(line: &mut LineBuf, refusal: &Refusal)
    requires { length line.old + 80 ≤ 256 }
    ensures text { line.new ≡ line.old ++ refused_text refusal.now }
    ensures len { length line.new ≤ length line.old + 80 }
{
    match refusal {
        Refusal::Study(fault) => {
            line.push_text(b"study refused: ");
            push_study_refusal(line, fault);
        }
        Refusal::Spectrum(fault) => {
            line.push_text(b"spectrum refused: ");
            push_spectrum_refusal(line, *fault);
        }
        Refusal::Levels(fault) => {
            line.push_text(b"levels refused: ");
            push_levels_refusal(line, *fault);
        }
        Refusal::Report(fault) => {
            line.push_text(b"report refused: ");
            push_report_refusal(line, *fault);
        }
        Refusal::Verify(fault) => {
            line.push_text(b"report refused: ");
            push_verify_refusal(line, *fault);
        }
    }
}

/// Sets the line to that of an outcome, where it has one.
fn set_line(outcome: &Outcome, line: &mut LineBuf) -> bool
    ensures { (if result then Some line.new else None) ≡ line_at outcome.now }
{
    line.clear();
    match outcome {
        Outcome::WordsRefused => line.push_text(b"harmscan: words refused"),
        Outcome::ReadFailed(file) => {
            line.push_text(b"harmscan: cannot read ");
            line.push_text(file.text().as_bytes());
        }
        Outcome::TooLarge(file) => {
            line.push_text(b"harmscan: ");
            line.push_text(file.text().as_bytes());
            line.push_text(b" too large");
        }
        Outcome::Refused(refusal) => {
            line.push_text(b"harmscan: ");
            push_refusal(line, refusal);
        }
        Outcome::WriteFailed => line.push_text(b"harmscan: cannot write report"),
        Outcome::NoMemory => line.push_text(b"harmscan: out of memory"),
        Outcome::Written(_) => return false,
    }
    line.push(b'\n');
    true
}

/// Says on standard error how a run ended. A failure of that changes nothing.
pub fn say<E: Sink>(outcome: &Outcome, err: &mut E)
    ensures { Says (line_at outcome.now) (E.state err.old) (E.state err.new) }
{
    let mut line = LineBuf::new();
    if set_line(outcome, &mut line) {
        let _ = err.put(line.as_bytes());
    }
}
