// The calls that write the rows of a report on distortion.
ghost use Rattle.std.specs.Prelude.{◌≡◌, ◌≤◌, length, codes};
ghost use Rattle.scan_report.specs.Rows.{row_text, IsRowOf};

use crate::fields::{Field, set_line};
use crate::line::LineBuf;
use crate::rows::Row;

/// Sets the line to the text of a harmonic voltage. Condition: the row is of its kind.
pub fn voltage_row(row: &Row, line: &mut LineBuf)
    requires { IsRowOf (codes "voltage") row.now }
    ensures text { line.new ≡ row_text row.now }
    ensures len { length line.new ≤ 255 }
{
    if let Row::Voltage {
        bus,
        phase,
        order,
        lo,
        hi,
        limit,
        verdict,
    } = row
    {
        set_line(
            line,
            b"voltage",
            &[
                Field::Name(*bus),
                Field::Phase(*phase),
                Field::Number(*order),
                Field::Percent(*lo),
                Field::Percent(*hi),
                Field::Percent(Some(*limit)),
                Field::Verdict(*verdict),
            ],
        );
    }
}

/// Sets the line to the text of the total harmonic distortion of a voltage. Condition: the row is of its kind.
pub fn thd_row(row: &Row, line: &mut LineBuf)
    requires { IsRowOf (codes "thd") row.now }
    ensures text { line.new ≡ row_text row.now }
    ensures len { length line.new ≤ 255 }
{
    if let Row::Thd {
        bus,
        phase,
        lo,
        hi,
        limit,
        verdict,
    } = row
    {
        set_line(
            line,
            b"thd",
            &[
                Field::Name(*bus),
                Field::Phase(*phase),
                Field::Percent(*lo),
                Field::Percent(*hi),
                Field::Percent(Some(*limit)),
                Field::Verdict(*verdict),
            ],
        );
    }
}

/// Sets the line to the text of a harmonic current. Condition: the row is of its kind.
pub fn current_row(row: &Row, line: &mut LineBuf)
    requires { IsRowOf (codes "current") row.now }
    ensures text { line.new ≡ row_text row.now }
    ensures len { length line.new ≤ 255 }
{
    if let Row::Current {
        point,
        phase,
        order,
        lo,
        hi,
        limit,
        verdict,
    } = row
    {
        set_line(
            line,
            b"current",
            &[
                Field::Name(*point),
                Field::Phase(*phase),
                Field::Number(*order),
                Field::Percent(*lo),
                Field::Percent(*hi),
                Field::Percent(Some(*limit)),
                Field::Verdict(*verdict),
            ],
        );
    }
}

/// Sets the line to the text of the total demand distortion of a current. Condition: the row is of its kind.
pub fn tdd_row(row: &Row, line: &mut LineBuf)
    requires { IsRowOf (codes "tdd") row.now }
    ensures text { line.new ≡ row_text row.now }
    ensures len { length line.new ≤ 255 }
{
    if let Row::Tdd {
        point,
        phase,
        lo,
        hi,
        limit,
        verdict,
    } = row
    {
        set_line(
            line,
            b"tdd",
            &[
                Field::Name(*point),
                Field::Phase(*phase),
                Field::Percent(*lo),
                Field::Percent(*hi),
                Field::Percent(Some(*limit)),
                Field::Verdict(*verdict),
            ],
        );
    }
}

/// Sets the line to the text of the counts of a report on distortion. Condition: the row is of its kind.
pub fn limits_summary_row(row: &Row, line: &mut LineBuf)
    requires { IsRowOf (codes "summary,limits") row.now }
    ensures text { line.new ≡ row_text row.now }
    ensures len { length line.new ≤ 255 }
{
    if let Row::LimitsSummary {
        passes,
        fails,
        undecided,
    } = row
    {
        set_line(
            line,
            b"summary,limits",
            &[
                Field::Number(*passes),
                Field::Number(*fails),
                Field::Number(*undecided),
            ],
        );
    }
}
