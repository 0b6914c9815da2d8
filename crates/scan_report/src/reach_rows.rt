// The calls that write the rows of the reports on candidate banks, verified reports, tolerances and outages.
ghost use Rattle.std.specs.Prelude.{◌≡◌, ◌≤◌, length, codes};
ghost use Rattle.scan_report.specs.Rows.{row_text, IsRowOf};

use crate::fields::{Field, set_line};
use crate::line::LineBuf;
use crate::rows::Row;

/// Sets the line to the text of the first row of a candidate bank.
/// Condition: the row is of its kind, and its threshold, where it has one, is above 0.
pub fn candidate_row(row: &Row, line: &mut LineBuf)
    requires { IsRowOf (codes "candidate") row.now }
    ensures text { line.new ≡ row_text row.now }
    ensures len { length line.new ≤ 255 }
{
    if let Row::Candidate {
        name,
        bus,
        from,
        to,
        threshold,
    } = row
    {
        set_line(
            line,
            b"candidate",
            &[
                Field::Name(*name),
                Field::Name(*bus),
                Field::Order(*from),
                Field::Order(*to),
                Field::Threshold(*threshold),
            ],
        );
    }
}

/// Sets the line to the text of a size of a candidate bank.
/// Condition: the row is of its kind, and its size is above 0.
pub fn size_row(row: &Row, line: &mut LineBuf)
    requires { IsRowOf (codes "size") row.now }
    ensures text { line.new ≡ row_text row.now }
    ensures len { length line.new ≤ 255 }
{
    if let Row::Size {
        number,
        size,
        cleared,
        peaks,
        undecided,
    } = row
    {
        set_line(
            line,
            b"size",
            &[
                Field::Number(*number),
                Field::Size(Some(*size)),
                Field::Number(*cleared),
                Field::Number(*peaks),
                Field::Number(*undecided),
            ],
        );
    }
}

/// Sets the line to the text of the last row of a candidate bank.
/// Condition: the row is of its kind, and its size, where it has one, is above 0.
pub fn first_row(row: &Row, line: &mut LineBuf)
    requires { IsRowOf (codes "first") row.now }
    ensures text { line.new ≡ row_text row.now }
    ensures len { length line.new ≤ 255 }
{
    if let Row::First { name, size } = row {
        set_line(line, b"first", &[Field::Name(*name), Field::Size(*size)]);
    }
}

/// Sets the line to the text of a report that was verified. Condition: the row is of its kind.
pub fn verified_row(row: &Row, line: &mut LineBuf)
    requires { IsRowOf (codes "verified") row.now }
    ensures text { line.new ≡ row_text row.now }
    ensures len { length line.new ≤ 255 }
{
    if let Row::Verified { scans, boxes } = row {
        set_line(
            line,
            b"verified",
            &[Field::Number(*scans), Field::Number(*boxes)],
        );
    }
}

/// Sets the line to the text of the first row of a report on tolerances. Condition: the row is of its kind.
pub fn tolerance_row(row: &Row, line: &mut LineBuf)
    requires { IsRowOf (codes "tolerance") row.now }
    ensures text { line.new ≡ row_text row.now }
    ensures len { length line.new ≤ 255 }
{
    if let Row::Tolerance { entries } = row {
        set_line(line, b"tolerance", &[Field::Number(*entries)]);
    }
}

/// Sets the line to the text of an outage. Condition: the row is of its kind.
pub fn outage_row(row: &Row, line: &mut LineBuf)
    requires { IsRowOf (codes "outage") row.now }
    ensures text { line.new ≡ row_text row.now }
    ensures len { length line.new ≤ 255 }
{
    if let Row::Outage {
        number,
        element,
        floating,
    } = row
    {
        set_line(
            line,
            b"outage",
            &[
                Field::Number(*number),
                Field::Name(*element),
                Field::Floating(*floating),
            ],
        );
    }
}

/// Sets the line to the text of a scan without the element of an outage.
/// Condition: the row is of its kind, and its ohms, where it has some, are from 0 to 2^120.
pub fn case_row(row: &Row, line: &mut LineBuf)
    requires { IsRowOf (codes "case") row.now }
    ensures text { line.new ≡ row_text row.now }
    ensures len { length line.new ≤ 255 }
{
    if let Row::Case {
        outage,
        name,
        boxes,
        cleared,
        peaks,
        undecided,
        at,
        micro_ohms,
    } = row
    {
        set_line(
            line,
            b"case",
            &[
                Field::Number(*outage),
                Field::Name(*name),
                Field::Number(*boxes),
                Field::Number(*cleared),
                Field::Number(*peaks),
                Field::Number(*undecided),
                Field::At(*at),
                Field::Bound(*micro_ohms),
            ],
        );
    }
}

/// Sets the line to the text of the cases of a scan. Condition: the row is of its kind.
pub fn envelope_row(row: &Row, line: &mut LineBuf)
    requires { IsRowOf (codes "envelope") row.now }
    ensures text { line.new ≡ row_text row.now }
    ensures len { length line.new ≤ 255 }
{
    if let Row::Envelope {
        name,
        cases,
        cleared,
        peaks,
        undecided,
    } = row
    {
        set_line(
            line,
            b"envelope",
            &[
                Field::Name(*name),
                Field::Number(*cases),
                Field::Number(*cleared),
                Field::Number(*peaks),
                Field::Number(*undecided),
            ],
        );
    }
}
