// The check of one line of a scan.
ghost use Rattle.std.specs.Prelude.{◌≡◌, ◌≤◌, ◌<◌, ◌^◌, IsTrue, IfOk, IfSome};
ghost use Rattle.scan_report.specs.Rows.{HaveText, fields_of, IsOhms};
ghost use Rattle.scan_report.specs.Reading.{IsRow};
ghost use Rattle.study_model.specs.Range.{IsIn};
ghost use Rattle.study_model.specs.declared.range.TheConstants.Range.{HERTZ};
ghost use Rattle.band_subdivision.specs.BoxText.{ohms_of_kind};
ghost use Rattle.study_scans.specs.Fold.{most_boxes};
ghost use Rattle.report_verify.specs.Told.{IsTold};
ghost use Rattle.report_verify.specs.Checks.{checking_in, IsChecker, is_line, goes_on, count_check, box_check, region_check, summary_check, line_check};

use crate::boxes::kind_fault;
use crate::checker::Checker;
use crate::fault::VerifyFault;
use crate::told::{BoxLine, Told, kind_told};
use complex_interval::Enclosure;
use fixed_decimal::Decimal;
use scan_report::{BoxRow, LineBuf, Row, write_row};
use study_model::ScanItem;
use study_scans::{row_of_region, summary_of};

/// Whether a row is the one that is wanted: their lines are the same.
pub fn is_line(row: &Row, wanted: &Row) -> bool
    requires row { HaveText (fields_of row.now) }
    requires wanted { HaveText (fields_of wanted.now) }
    ensures { result ≡ is_line row.now wanted.now }
{
    let mut line = LineBuf::new();
    write_row(row, &mut line);
    let mut other = LineBuf::new();
    write_row(wanted, &mut other);
    line.as_bytes() == other.as_bytes()
}

/// Whether a box begins where the one before ended, isn't empty, and ends in the band.
fn goes_on(reached: u32, to: u32, told: &BoxLine) -> bool
    ensures value { result ≡ goes_on reached to told.now }
    ensures begins { IsTrue result → told.now.lo ≡ reached }
    ensures up { IsTrue result → told.now.lo < told.now.hi }
    ensures inside { IsTrue result → told.now.hi ≤ to }
{
    told.lo == reached && told.lo < told.hi && told.hi <= to
}

/// The check of the number of a box, and of what it follows.
fn check_count(told: &Told, line: u32, number: u32, found: &BoxRow) -> Result<Told, VerifyFault>
    requires told { IsTold told.now }
    requires begins { found.now.lo ≡ told.now.reached }
    requires up { found.now.lo < found.now.hi }
    requires short { found.now.hi < 2 ^ 32 }
    requires text { IsOhms (ohms_of_kind found.now.kind) }
    ensures value { result ≡ count_check told.now line number found.now }
    ensures is { IfOk result IsTold }
{
    if number == told.tally.counts.boxes + 1 && told.may_follow(found.kind) {
        Ok(told.with_box(found))
    } else {
        Err(VerifyFault::WrongCount(line))
    }
}

/// The check of the line of a box.
fn check_box<E: Enclosure>(
    checker: &mut Checker<E>,
    told: &Told,
    line: u32,
    box_line: &BoxLine,
) -> Result<Told, VerifyFault>
    requires checker { IsChecker checker.old }
    requires told { IsTold told.now }
    requires from { checker.old.spec.from ≤ told.now.reached }
    requires text { IfSome box_line.now.kind (λ k. IsOhms (ohms_of_kind k)) }
    ensures value { result ≡ box_check (checking_in E.SCALE checker.old) told.now line box_line.now }
    ensures is { IfOk result (λ next. IsTold next × told.now.reached ≤ next.reached) }
    ensures same { checker.new ≡ checker.old }
{
    let BoxLine {
        number,
        lo,
        hi,
        kind,
    } = *box_line;
    if !goes_on(told.reached, checker.spec.to, box_line) {
        return Err(VerifyFault::Gap(line));
    }
    let Some(kind) = kind else {
        return Err(VerifyFault::NotPeak(line));
    };
    match kind_fault(checker, line, lo, hi, kind) {
        Some(fault) => Err(fault),
        None => check_count(told, line, number, &BoxRow { lo, hi, kind }),
    }
}

/// The check of the line of a region.
fn check_region(hz: Decimal, told: &Told, line: u32, row: &Row) -> Result<Told, VerifyFault>
    requires hz { IsIn HERTZ hz }
    requires told { IsTold told.now }
    requires row { IsRow row.now }
    ensures value { result ≡ region_check hz told.now line row.now }
    ensures is { IfOk result (λ next. IsTold next × next.reached ≡ told.now.reached) }
{
    if let Some(run) = told.tally.run {
        let wanted = row_of_region(hz, told.tally.regions + 1, &run);
        if is_line(row, &wanted) {
            return Ok(told.with_region());
        }
    }
    Err(VerifyFault::WrongCount(line))
}

/// The check of a scan's last line.
fn check_summary(
    scan: &ScanItem,
    to: u32,
    told: &Told,
    line: u32,
    row: &Row,
) -> Result<(), VerifyFault>
    requires told { IsTold told.now }
    requires to { to < most_boxes }
    requires row { IsRow row.now }
    ensures value { result ≡ summary_check scan.now to told.now line row.now }
{
    if told.reached != to {
        return Err(VerifyFault::Gap(line));
    }
    if told.tally.run.is_some() {
        return Err(VerifyFault::WrongCount(line));
    }
    if is_line(row, &summary_of(scan, told.tally)) {
        Ok(())
    } else {
        Err(VerifyFault::WrongCount(line))
    }
}

/// The check of a line of a scan: what is told after it, or nothing where the scan ends with it.
pub fn check_line<E: Enclosure>(
    checker: &mut Checker<E>,
    told: &Told,
    line: u32,
    row: &Row,
) -> Result<Option<Told>, VerifyFault>
    requires checker { IsChecker checker.old }
    requires told { IsTold told.now }
    requires from { checker.old.spec.from ≤ told.now.reached }
    requires row { IsRow row.now }
    ensures value { result ≡ line_check (checking_in E.SCALE checker.old) told.now line row.now }
    ensures is { IfOk result (λ next. IfSome next (λ next. IsTold next × told.now.reached ≤ next.reached)) }
    ensures same { checker.new ≡ checker.old }
{
    match row {
        Row::BoxLine {
            number,
            lo,
            hi,
            word,
            at,
            micro_ohms,
        } => {
            let box_line = BoxLine {
                number: *number,
                lo: *lo,
                hi: *hi,
                kind: kind_told(*word, *at, *micro_ohms),
            };
            match check_box(checker, told, line, &box_line) {
                Ok(told) => Ok(Some(told)),
                Err(fault) => Err(fault),
            }
        }
        Row::Region { .. } => match check_region(checker.hz, told, line, row) {
            Ok(told) => Ok(Some(told)),
            Err(fault) => Err(fault),
        },
        Row::Summary { .. } => {
            match check_summary(&checker.scan, checker.spec.to, told, line, row) {
                Ok(()) => Ok(None),
                Err(fault) => Err(fault),
            }
        }
        _ => Err(VerifyFault::WrongCount(line)),
    }
}
