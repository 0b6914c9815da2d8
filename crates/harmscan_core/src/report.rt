// The writing of a report, a line a put, through one buffer: after the first put harmscan takes no memory of its own.
ghost use Rattle.std.specs.Prelude.{◌≡◌, ◌<◌, length, IfOk, IfSome};
ghost use Rattle.std.specs.List.{AllByRecursion};
ghost use Rattle.band_subdivision.specs.BoxText.{HasText};
ghost use Rattle.harm_io.specs.Sinks.{Writes};
ghost use Rattle.scan_report.specs.Rows.{row_text};
ghost use Rattle.study_model.specs.Lawful.{IsLawful, IsLawfulScan};
ghost use Rattle.harmscan_core.specs.Plans.{AreReady, found_among, plan_status};
ghost use Rattle.harmscan_core.specs.Texts.{head_text, open_text, ended_text, step_text, boxes_text, summary_text, end_text, body_text, scan_text, plan_text, whole_text};
ghost use Rattle.study_scans.specs.Report.{row_of};
ghost use Rattle.study_scans.specs.Fold.{most_boxes, tallied, no_tally, nothing_found};
ghost use Rattle.study_scans.specs.Regions.{ohms_of_summit, row_of_region};
ghost use Rattle.study_scans.specs.Tallies.{IsTally};
ghost use Rattle.scan_report.specs.Rows.{IsOhms};
ghost use Rattle.study_model.specs.Range.{IsIn};
ghost use Rattle.study_model.specs.declared.range.TheConstants.Range.{HERTZ};

use band_subdivision::Scan;
use complex_interval::Enclosure;
use fixed_decimal::Decimal;
use harm_io::{PutFault, Sink};
use scan_report::{
    BoxRow, Kind, LineBuf, Row, box_row, end_row, region_row, scan_row, summary_row,
};
use std::collections::VecDeque;
use study_model::{ScanItem, Study};
use study_scans::{
    Counts, Found, PlannedScan, Region, Tally, head_row, row_of_box, row_of_region, summary_of,
    tally_more,
};

/// Puts a line.
#[tactic(auto, using(harm_io::proofs::Writing::writes_put))]
pub fn put_line<O: Sink>(out: &mut O, line: &LineBuf) -> Result<(), PutFault>
    ensures { Writes line.now (O.state out.old) (O.state out.new) result }
{
    out.put(line.as_bytes())
}

/// Puts the row of a box.
fn put_box<O: Sink>(
    number: u32,
    found: &BoxRow,
    line: &mut LineBuf,
    out: &mut O,
) -> Result<(), PutFault>
    requires { HasText found.now }
    ensures { Writes (row_text (row_of number found.now.lo found.now.hi found.now.kind)) (O.state out.old) (O.state out.new) result }
{
    box_row(&row_of_box(number, found), line);
    put_line(out, line)
}

/// Puts the row of a region.
fn put_region<O: Sink>(
    hz: Decimal,
    number: u32,
    run: &Region,
    line: &mut LineBuf,
    out: &mut O,
) -> Result<(), PutFault>
    requires hz { IsIn HERTZ hz }
    requires ohms { IsOhms (ohms_of_summit run.now.summit) }
    ensures { Writes (row_text (row_of_region hz number run.now)) (O.state out.old) (O.state out.new) result }
{
    region_row(&row_of_region(hz, number, run), line);
    put_line(out, line)
}

/// Puts the row of the run that is open, where there is one, after so many regions.
#[tactic(auto, using(crate::proofs::Rows::writes_region, crate::proofs::Rows::writes_no_region))]
fn put_open<O: Sink>(
    hz: Decimal,
    regions: u32,
    run: Option<Region>,
    line: &mut LineBuf,
    out: &mut O,
) -> Result<(), PutFault>
    requires hz { IsIn HERTZ hz }
    requires regions { regions < most_boxes }
    requires ohms { IfSome run (λ run. IsOhms (ohms_of_summit run.summit)) }
    ensures { Writes (open_text hz regions run) (O.state out.old) (O.state out.new) result }
{
    match run {
        Some(run) => put_region(hz, regions + 1, &run, line, out),
        None => Ok(()),
    }
}

/// Puts the row of the region that a box of this kind ends, where it ends one.
#[tactic(auto, using(crate::proofs::Rows::writes_ended, crate::proofs::Rows::writes_not_ended))]
fn put_ended<O: Sink>(
    hz: Decimal,
    tally: Tally,
    kind: Kind,
    line: &mut LineBuf,
    out: &mut O,
) -> Result<(), PutFault>
    requires hz { IsIn HERTZ hz }
    requires tally { IsTally tally }
    requires room { tally.counts.boxes < most_boxes }
    ensures { Writes (ended_text hz tally.regions tally.run kind) (O.state out.old) (O.state out.new) result }
{
    match kind {
        Kind::Cleared => put_open(hz, tally.regions, tally.run, line, out),
        _ => Ok(()),
    }
}

/// Puts what one box adds: the row of the region that it ends, and its own.
#[tactic(auto, unfolding(crate::specs::Texts::step_text), using(harm_io::proofs::Writing::second_piece))]
fn put_step<O: Sink>(
    hz: Decimal,
    tally: Tally,
    found: &BoxRow,
    line: &mut LineBuf,
    out: &mut O,
) -> Result<(), PutFault>
    requires hz { IsIn HERTZ hz }
    requires tally { IsTally tally }
    requires room { tally.counts.boxes < most_boxes }
    requires text { HasText found.now }
    ensures { Writes (step_text hz tally found.now) (O.state out.old) (O.state out.new) result }
{
    match put_ended(hz, tally, found.kind, line, out) {
        Ok(()) => put_box(tally.counts.boxes + 1, found, line, out),
        Err(fault) => Err(fault),
    }
}

/// Puts the rows of all boxes of a walk and of their regions, and counts them.
fn put_boxes<E: Enclosure, O: Sink>(
    hz: Decimal,
    walk: &mut Scan<E>,
    line: &mut LineBuf,
    out: &mut O,
) -> Result<Tally, PutFault>
    requires hz { IsIn HERTZ hz }
    requires text { AllByRecursion HasText walk.old.left }
    requires few { length walk.old.left < most_boxes }
    ensures wrote { Writes (boxes_text hz no_tally walk.old.left) (O.state out.old) (O.state out.new) result }
    ensures tally { IfOk result (λ t. t ≡ tallied no_tally walk.old.left) }
    ensures room { IfOk result (λ t. t.regions < most_boxes) }
{
    let mut tally = Tally::NONE;
    'boxes: while let Some(found) = walk.next_box() {
        match put_step(hz, tally, &found, line, out) {
            Ok(()) => tally = tally_more(tally, &found),
            Err(fault) => return Err(fault),
        }
    }
    match put_open(hz, tally.regions, tally.run, line, out) {
        Ok(()) => Ok(tally),
        Err(fault) => Err(fault),
    }
}

/// Puts a scan's summary, and answers its counts.
#[tactic(auto, unfolding(crate::specs::Texts::summary_text))]
pub fn put_summary<O: Sink>(
    scan: &ScanItem,
    tally: Tally,
    line: &mut LineBuf,
    out: &mut O,
) -> Result<Counts, PutFault>
    requires { tally.regions < most_boxes }
    ensures wrote { Writes (summary_text scan.now tally) (O.state out.old) (O.state out.new) result }
    ensures counts { IfOk result (λ c. c ≡ tally.counts) }
{
    summary_row(&summary_of(scan, tally), line);
    match put_line(out, line) {
        Ok(()) => Ok(tally.counts),
        Err(fault) => Err(fault),
    }
}

/// Puts the last row, and answers its status.
#[tactic(auto, unfolding(crate::specs::Texts::end_text))]
pub fn put_end<O: Sink>(status: u8, line: &mut LineBuf, out: &mut O) -> Result<u8, PutFault>
    ensures wrote { Writes (end_text status) (O.state out.old) (O.state out.new) result }
    ensures status { IfOk result (λ s. s ≡ status) }
{
    end_row(
        &Row::End {
            status: u32::from(status),
        },
        line,
    );
    match put_line(out, line) {
        Ok(()) => Ok(status),
        Err(fault) => Err(fault),
    }
}

/// Puts a scan's first row.
#[tactic(auto, unfolding(crate::specs::Texts::head_text), using(study_scans::proofs::Asked::threshold_above))]
fn put_head<O: Sink>(
    study: &Study,
    scan: &ScanItem,
    line: &mut LineBuf,
    out: &mut O,
) -> Result<(), PutFault>
    requires scan { IsLawfulScan study.now.version study.now.model study.now.buses scan.now }
    ensures { Writes (head_text study.now scan.now) (O.state out.old) (O.state out.new) result }
{
    scan_row(&head_row(study, scan), line);
    put_line(out, line)
}

/// Puts the rows of the boxes and regions and a scan's last row.
#[tactic(auto, unfolding(crate::specs::Texts::body_text), using(harm_io::proofs::Writing::second_piece))]
fn put_body<E: Enclosure, O: Sink>(
    hz: Decimal,
    walk: &mut Scan<E>,
    scan: &ScanItem,
    line: &mut LineBuf,
    out: &mut O,
) -> Result<Counts, PutFault>
    requires hz { IsIn HERTZ hz }
    requires text { AllByRecursion HasText walk.old.left }
    requires few { length walk.old.left < most_boxes }
    ensures wrote { Writes (body_text hz scan.now walk.old.left) (O.state out.old) (O.state out.new) result }
    ensures counts { IfOk result (λ c. c ≡ (tallied no_tally walk.old.left).counts) }
{
    match put_boxes(hz, walk, line, out) {
        Ok(tally) => put_summary(scan, tally, line, out),
        Err(fault) => Err(fault),
    }
}

/// Puts all rows of a scan.
#[tactic(auto, unfolding(crate::specs::Texts::scan_text), using(harm_io::proofs::Writing::second_piece))]
fn put_scan<E: Enclosure, O: Sink>(
    study: &Study,
    scan: &ScanItem,
    walk: &mut Scan<E>,
    line: &mut LineBuf,
    out: &mut O,
) -> Result<Counts, PutFault>
    requires hz { IsIn HERTZ study.now.hz }
    requires scan { IsLawfulScan study.now.version study.now.model study.now.buses scan.now }
    requires text { AllByRecursion HasText walk.old.left }
    requires few { length walk.old.left < most_boxes }
    ensures wrote { Writes (scan_text study.now scan.now walk.old.left) (O.state out.old) (O.state out.new) result }
    ensures counts { IfOk result (λ c. c ≡ (tallied no_tally walk.old.left).counts) }
{
    match put_head(study, scan, line, out) {
        Ok(()) => put_body(study.hz, walk, scan, line, out),
        Err(fault) => Err(fault),
    }
}

/// Puts all rows of the scans of a plan, and answers what is found in them.
fn put_scans<E: Enclosure, O: Sink>(
    study: &Study,
    plan: &mut VecDeque<PlannedScan<E>>,
    line: &mut LineBuf,
    out: &mut O,
) -> Result<Found, PutFault>
    requires study { IsLawful study.now }
    requires plan { AreReady study.now plan.old.items }
    ensures wrote { Writes (plan_text study.now plan.old.items) (O.state out.old) (O.state out.new) result }
    ensures found { IfOk result (λ f. f ≡ found_among nothing_found plan.old.items) }
{
    let mut found = Found::NOTHING;
    'scans: while let Some(planned) = plan.pop_front() {
        let mut walk = planned.walk;
        match put_scan(study, &planned.scan, &mut walk, line, out) {
            Ok(counts) => found = found.and(counts),
            Err(fault) => return Err(fault),
        }
    }
    Ok(found)
}

/// Puts all rows of the scans of a plan and the last row, and answers its status.
#[tactic(auto, unfolding(crate::specs::Texts::whole_text, crate::specs::Plans::plan_status), using(harm_io::proofs::Writing::second_piece))]
pub fn put_plan<E: Enclosure, O: Sink>(
    study: &Study,
    plan: &mut VecDeque<PlannedScan<E>>,
    line: &mut LineBuf,
    out: &mut O,
) -> Result<u8, PutFault>
    requires study { IsLawful study.now }
    requires plan { AreReady study.now plan.old.items }
    ensures wrote { Writes (whole_text study.now plan.old.items) (O.state out.old) (O.state out.new) result }
    ensures status { IfOk result (λ s. s ≡ plan_status plan.old.items) }
{
    match put_scans(study, plan, line, out) {
        Ok(found) => put_end(found.status(), line, out),
        Err(fault) => Err(fault),
    }
}
