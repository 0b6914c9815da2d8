// The rows of a scan: its first row, those of its boxes and regions, and its last row.
ghost use Rattle.std.specs.Prelude.{◌≡◌, ◌<◌};
ghost use Rattle.study_model.specs.Lawful.{IsLawfulScan};
ghost use Rattle.study_model.specs.Range.{IsIn};
ghost use Rattle.study_model.specs.declared.range.TheConstants.Range.{HERTZ};
ghost use Rattle.study_scans.specs.Fold.{most_boxes, folded_summary};
ghost use Rattle.study_scans.specs.Regions.{order_of_summit, ohms_of_summit, row_of_region};
ghost use Rattle.study_scans.specs.Report.{row_of, net_of, head_row};

use crate::counts::{Tally, all_regions};
use crate::region::{Region, Summit, hertz_down, hertz_up};
use crate::walk::micro;
use fixed_decimal::Decimal;
use scan_report::{BoxRow, BoxWord, Kind, NetWord, Row};
use study_model::{Phase, ScanItem, Sequence, Study};

fn net_word(network: Sequence, phase: Option<Phase>) -> NetWord
    ensures { result ≡ net_of network phase }
{
    match phase {
        Some(Phase::A) => NetWord::A,
        Some(Phase::B) => NetWord::B,
        Some(Phase::C) => NetWord::C,
        None => match network {
            Sequence::Positive => NetWord::Positive,
            Sequence::Zero => NetWord::Zero,
        },
    }
}

/// A scan's first row.
pub fn head_row(study: &Study, scan: &ScanItem) -> Row
    requires { IsLawfulScan study.now.version study.now.model study.now.buses scan.now }
    ensures { result ≡ head_row study.now scan.now }
{
    Row::Scan {
        name: scan.name,
        bus: study.buses.as_slice()[scan.bus as usize].name,
        network: net_word(scan.network, scan.phase),
        from: micro(scan.from),
        to: micro(scan.to),
        threshold: scan.threshold,
        method: study.method,
    }
}

/// The row of a box, by its number.
pub fn row_of_box(number: u32, found: &BoxRow) -> Row
    ensures { result ≡ row_of number found.now.lo found.now.hi found.now.kind }
{
    let (word, at, micro_ohms) = match found.kind {
        Kind::Cleared => (BoxWord::Cleared, None, None),
        Kind::Peak { at, micro_ohms } => (BoxWord::Peak, Some(at), Some(micro_ohms)),
        Kind::Undecided => (BoxWord::Undecided, None, None),
    };
    Row::BoxLine {
        number,
        lo: found.lo,
        hi: found.hi,
        word,
        at,
        micro_ohms,
    }
}

fn order_of(summit: Option<Summit>) -> Option<u32>
    ensures { result ≡ order_of_summit summit }
{
    match summit {
        Some(summit) => Some(summit.at),
        None => None,
    }
}

fn ohms_of(summit: Option<Summit>) -> Option<i128>
    ensures { result ≡ ohms_of_summit summit }
{
    match summit {
        Some(summit) => Some(summit.micro_ohms),
        None => None,
    }
}

/// The row of a region, by its number.
pub fn row_of_region(hz: Decimal, number: u32, run: &Region) -> Row
    requires { IsIn HERTZ hz }
    ensures { result ≡ row_of_region hz number run.now }
{
    Row::Region {
        number,
        lo: run.lo,
        hi: run.hi,
        hertz_lo: hertz_down(run.lo, hz),
        hertz_hi: hertz_up(run.hi, hz),
        peaks: run.peaks,
        undecided: run.undecided,
        at: order_of(run.summit),
        micro_ohms: ohms_of(run.summit),
    }
}

/// A scan's last row, by what is known after all its boxes.
pub fn summary_of(scan: &ScanItem, tally: Tally) -> Row
    requires { tally.regions < most_boxes }
    ensures { result ≡ folded_summary scan.now tally }
{
    Row::Summary {
        name: scan.name,
        boxes: tally.counts.boxes,
        cleared: tally.counts.cleared,
        peaks: tally.counts.peaks,
        undecided: tally.counts.undecided,
        regions: all_regions(tally.regions, tally.run),
    }
}
