// The rows of a report and their text, in lines of a fixed size that take no memory.
#![tactic(auto)]

mod boxes;
mod distortion_rows;
mod field_text;
mod fields;
mod line;
mod loose;
mod reach_rows;
mod reading;
mod rows;

pub use boxes::{BoxRow, Kind};
pub use distortion_rows::{current_row, limits_summary_row, tdd_row, thd_row, voltage_row};
pub use line::{LineBuf, push_number};
pub use reach_rows::{
    candidate_row, case_row, envelope_row, first_row, outage_row, size_row, tolerance_row,
    verified_row,
};
pub use reading::{Report, ReportFault, no_report_is_bad, read_report};
pub use rows::{
    BoxWord, NetWord, PhaseWord, Row, box_row, drill_row, end_row, region_row, scan_row,
    summary_row, write_row,
};
