// The checks of a scan's lines, from the one after its first row to its last row.
ghost use Rattle.std.specs.Prelude.{◌≡◌, ◌≤◌, drop, length, IfOk, IfErr, Ok, Err};
ghost use Rattle.std.specs.List.{AllByRecursion};
ghost use Rattle.scan_report.specs.Reading.{IsRow};
ghost use Rattle.report_verify.specs.Told.{told_at};
ghost use Rattle.report_verify.specs.Checks.{checking_in, IsChecker, scan_check};

use crate::checker::Checker;
use crate::fault::VerifyFault;
use crate::lines::check_line;
use crate::told::{Told, next_line};
use complex_interval::Enclosure;
use scan_report::Row;
use study_scans::Counts;

/// How a scan's lines end: the boxes that they tell, how many lines there are, and the number of the line after them.
#[derive(Clone, Copy)]
pub struct Ended {
    pub counts: Counts,
    pub lines: usize,
    pub next: u32,
}

/// The checks of a scan's lines from its second on, up to its last.
#[tactic(auto, using(crate::proofs::Steps::line_goes_on, crate::proofs::Steps::line_ends, crate::proofs::Steps::line_fails, crate::proofs::Steps::lines_stop, crate::proofs::Steps::row_at))]
pub fn check_scan<E: Enclosure>(
    checker: &mut Checker<E>,
    first: u32,
    rows: &[Row],
) -> Result<Ended, VerifyFault>
    requires checker { IsChecker checker.old }
    requires rows { AllByRecursion IsRow rows.now }
    ensures passed { IfOk result (λ ended. scan_check (checking_in E.SCALE checker.old) (told_at checker.old.spec.from) first rows.now
        ≡ Ok (record { counts = ended.counts; next = ended.next; rest = drop ended.lines rows.now })) }
    ensures failed { IfErr result (λ fault. scan_check (checking_in E.SCALE checker.old) (told_at checker.old.spec.from) first rows.now ≡ Err fault) }
    ensures within { IfOk result (λ ended. ended.lines ≤ length rows.now) }
{
    let mut told = Told::at(checker.spec.from);
    let mut line = first;
    let mut lines = 0;
    for row in rows {
        lines += 1;
        match check_line(checker, &told, line, row) {
            Ok(Some(next)) => {
                told = next;
                line = next_line(line);
            }
            Ok(None) => {
                return Ok(Ended {
                    counts: told.tally.counts,
                    lines,
                    next: next_line(line),
                });
            }
            Err(fault) => return Err(fault),
        }
    }
    Err(VerifyFault::WrongCount(line))
}
