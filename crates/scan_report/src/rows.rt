// The rows of a report, and the calls that write them.
ghost use Rattle.std.specs.Prelude.{◌≡◌, ◌≤◌, length, codes};
ghost use Rattle.scan_report.specs.Rows.{row_text, fields_of, HaveText, IsRowOf};

use crate::distortion_rows::{current_row, limits_summary_row, tdd_row, thd_row, voltage_row};
use crate::fields::{Field, set_line};
use crate::line::LineBuf;
use crate::reach_rows::{
    candidate_row, case_row, envelope_row, first_row, outage_row, size_row, tolerance_row,
    verified_row,
};
use fixed_decimal::Decimal;
use ieee519_limits::Verdict;
use study_model::{Method, Name};

/// The network that a scan is of: a sequence network, or the network of the phases seen from one of them.
#[derive(Clone, Copy, Debug, PartialEq, Eq)]
pub enum NetWord {
    Positive,
    Zero,
    A,
    B,
    C,
}

/// What was found of a box.
#[derive(Clone, Copy, Debug, PartialEq, Eq)]
pub enum BoxWord {
    Cleared,
    Peak,
    Undecided,
}

/// The network that a distortion is of: a sequence network's, or a phase's.
#[derive(Clone, Copy, Debug, PartialEq, Eq)]
pub enum PhaseWord {
    S,
    A,
    B,
    C,
}

/// A row of a report. Orders of a scan are in micro-orders, ohms in micro-ohms; orders of a distortion are whole, its bounds and limits in
/// ten-thousandths of a percent.
#[derive(Clone, Copy)]
pub enum Row {
    /// The first row of a scan: its band, and its threshold in ohms, which is absent where it is a curve.
    Scan {
        name: Name,
        bus: Name,
        network: NetWord,
        from: u32,
        to: u32,
        threshold: Option<Decimal>,
        method: Method,
    },
    /// A box, by its number from 1 within the scan. A peak has an order and a bound.
    BoxLine {
        number: u32,
        lo: u32,
        hi: u32,
        word: BoxWord,
        at: Option<u32>,
        micro_ohms: Option<i128>,
    },
    /// A longest run of boxes of which none is cleared, by its number from 1 within the scan: its ends, also in millionths of a hertz
    /// from the low one down to the high one up, and how many peaks and undecided boxes it has. The order and the bound are those of its
    /// peak with the greatest bound, the first of them.
    Region {
        number: u32,
        lo: u32,
        hi: u32,
        hertz_lo: u64,
        hertz_hi: u64,
        peaks: u32,
        undecided: u32,
        at: Option<u32>,
        micro_ohms: Option<i128>,
    },
    /// The last row of a scan: how many boxes it has, of each kind too, and how many regions.
    Summary {
        name: Name,
        boxes: u32,
        cleared: u32,
        peaks: u32,
        undecided: u32,
        regions: u32,
    },
    /// The first row of a drill: its number, and how many nodes its network has.
    Drill {
        number: u32,
        nodes: u32,
    },
    /// A harmonic voltage at a bus, in percent of its nominal voltage: bounds, the limit, and the verdict.
    Voltage {
        bus: Name,
        phase: PhaseWord,
        order: u32,
        lo: Option<u64>,
        hi: Option<u64>,
        limit: u64,
        verdict: Verdict,
    },
    /// The total harmonic distortion of the voltage at a bus, in percent of its nominal voltage.
    Thd {
        bus: Name,
        phase: PhaseWord,
        lo: Option<u64>,
        hi: Option<u64>,
        limit: u64,
        verdict: Verdict,
    },
    /// A harmonic current at a point of common coupling, in percent of its demand current.
    Current {
        point: Name,
        phase: PhaseWord,
        order: u32,
        lo: Option<u64>,
        hi: Option<u64>,
        limit: u64,
        verdict: Verdict,
    },
    /// The total demand distortion of the current at a point of common coupling, in percent of its demand current.
    Tdd {
        point: Name,
        phase: PhaseWord,
        lo: Option<u64>,
        hi: Option<u64>,
        limit: u64,
        verdict: Verdict,
    },
    /// How many verdicts a report on distortion has of each kind.
    LimitsSummary {
        passes: u32,
        fails: u32,
        undecided: u32,
    },
    /// The first row of a candidate bank at a scan's bus: the scan's band, and its threshold in ohms, which is absent where it is a curve.
    Candidate {
        name: Name,
        bus: Name,
        from: u32,
        to: u32,
        threshold: Option<Decimal>,
    },
    /// A size of a candidate bank in MVAr, by its number from 1 within the list, and how many boxes of each kind its scan has.
    Size {
        number: u32,
        size: Decimal,
        cleared: u32,
        peaks: u32,
        undecided: u32,
    },
    /// The last row of a candidate bank: the first size in MVAr, if there is one, with which each box is cleared.
    First {
        name: Name,
        size: Option<Decimal>,
    },
    /// A report that was verified: how many scans and boxes it has.
    Verified {
        scans: u32,
        boxes: u32,
    },
    /// The first row of a report on tolerances: how many elements have one.
    Tolerance {
        entries: u32,
    },
    /// An element that is out, by its number from 1, and whether some bus floats without it.
    Outage {
        number: u32,
        element: Name,
        floating: bool,
    },
    /// A scan without the element of an outage: how many boxes it has, of each kind too. The order and the bound are those of its peak
    /// with the greatest bound, the first of them.
    Case {
        outage: u32,
        name: Name,
        boxes: u32,
        cleared: u32,
        peaks: u32,
        undecided: u32,
        at: Option<u32>,
        micro_ohms: Option<i128>,
    },
    /// How many cases a scan has, and how many of them are cleared, have a peak, or are undecided.
    Envelope {
        name: Name,
        cases: u32,
        cleared: u32,
        peaks: u32,
        undecided: u32,
    },
    /// The last row of a report.
    End {
        status: u32,
    },
}

/// Sets the line to the text of a scan's first row.
/// Condition: the row is of its kind, and its threshold, where it has one, is above 0.
pub fn scan_row(row: &Row, line: &mut LineBuf)
    requires { IsRowOf (codes "scan") row.now }
    ensures text { line.new ≡ row_text row.now }
    ensures len { length line.new ≤ 255 }
{
    if let Row::Scan {
        name,
        bus,
        network,
        from,
        to,
        threshold,
        method,
    } = row
    {
        set_line(
            line,
            b"scan",
            &[
                Field::Name(*name),
                Field::Name(*bus),
                Field::Network(*network),
                Field::Order(*from),
                Field::Order(*to),
                Field::Threshold(*threshold),
                Field::Method(*method),
            ],
        );
    }
}

/// Sets the line to the text of a box.
/// Condition: the row is of its kind, and its ohms, where it has some, are from 0 to 2^120.
pub fn box_row(row: &Row, line: &mut LineBuf)
    requires { IsRowOf (codes "box") row.now }
    ensures text { line.new ≡ row_text row.now }
    ensures len { length line.new ≤ 255 }
{
    if let Row::BoxLine {
        number,
        lo,
        hi,
        word,
        at,
        micro_ohms,
    } = row
    {
        set_line(
            line,
            b"box",
            &[
                Field::Number(*number),
                Field::Order(*lo),
                Field::Order(*hi),
                Field::Found(*word),
                Field::At(*at),
                Field::Bound(*micro_ohms),
            ],
        );
    }
}

/// Sets the line to the text of a region.
/// Condition: the row is of its kind, and its ohms, where it has some, are from 0 to 2^120.
pub fn region_row(row: &Row, line: &mut LineBuf)
    requires { IsRowOf (codes "region") row.now }
    ensures text { line.new ≡ row_text row.now }
    ensures len { length line.new ≤ 255 }
{
    if let Row::Region {
        number,
        lo,
        hi,
        hertz_lo,
        hertz_hi,
        peaks,
        undecided,
        at,
        micro_ohms,
    } = row
    {
        set_line(
            line,
            b"region",
            &[
                Field::Number(*number),
                Field::Order(*lo),
                Field::Order(*hi),
                Field::Hertz(*hertz_lo),
                Field::Hertz(*hertz_hi),
                Field::Number(*peaks),
                Field::Number(*undecided),
                Field::At(*at),
                Field::Bound(*micro_ohms),
            ],
        );
    }
}

/// Sets the line to the text of a scan's last row. Condition: the row is of its kind.
pub fn summary_row(row: &Row, line: &mut LineBuf)
    requires { IsRowOf (codes "summary") row.now }
    ensures text { line.new ≡ row_text row.now }
    ensures len { length line.new ≤ 255 }
{
    if let Row::Summary {
        name,
        boxes,
        cleared,
        peaks,
        undecided,
        regions,
    } = row
    {
        set_line(
            line,
            b"summary",
            &[
                Field::Name(*name),
                Field::Number(*boxes),
                Field::Number(*cleared),
                Field::Number(*peaks),
                Field::Number(*undecided),
                Field::Number(*regions),
            ],
        );
    }
}

/// Sets the line to the text of a drill's first row. Condition: the row is of its kind.
pub fn drill_row(row: &Row, line: &mut LineBuf)
    requires { IsRowOf (codes "drill") row.now }
    ensures text { line.new ≡ row_text row.now }
    ensures len { length line.new ≤ 255 }
{
    if let Row::Drill { number, nodes } = row {
        set_line(
            line,
            b"drill",
            &[Field::Number(*number), Field::Number(*nodes)],
        );
    }
}

/// Sets the line to the text of a report's last row. Condition: the row is of its kind.
pub fn end_row(row: &Row, line: &mut LineBuf)
    requires { IsRowOf (codes "end") row.now }
    ensures text { line.new ≡ row_text row.now }
    ensures len { length line.new ≤ 255 }
{
    if let Row::End { status } = row {
        set_line(line, b"end", &[Field::Number(*status)]);
    }
}

/// Sets the line to the text of a row of any kind.
/// Condition: its ohms, where it has some, are from 0 to 2^120, and a threshold and a size are above 0.
pub fn write_row(row: &Row, line: &mut LineBuf)
    requires { HaveText (fields_of row.now) }
    ensures text { line.new ≡ row_text row.now }
    ensures len { length line.new ≤ 255 }
{
    match row {
        Row::Scan { .. } => scan_row(row, line),
        Row::BoxLine { .. } => box_row(row, line),
        Row::Region { .. } => region_row(row, line),
        Row::Summary { .. } => summary_row(row, line),
        Row::Drill { .. } => drill_row(row, line),
        Row::Voltage { .. } => voltage_row(row, line),
        Row::Thd { .. } => thd_row(row, line),
        Row::Current { .. } => current_row(row, line),
        Row::Tdd { .. } => tdd_row(row, line),
        Row::LimitsSummary { .. } => limits_summary_row(row, line),
        Row::Candidate { .. } => candidate_row(row, line),
        Row::Size { .. } => size_row(row, line),
        Row::First { .. } => first_row(row, line),
        Row::Verified { .. } => verified_row(row, line),
        Row::Tolerance { .. } => tolerance_row(row, line),
        Row::Outage { .. } => outage_row(row, line),
        Row::Case { .. } => case_row(row, line),
        Row::Envelope { .. } => envelope_row(row, line),
        Row::End { .. } => end_row(row, line),
    }
}
