// What a study is made of: names, words, records, and the places and faults of a refusal.
#![tactic(auto)]

mod curve;
mod fault;
mod limits;
mod name;
mod range;
mod records;
mod words;
mod worked;

pub use curve::{Curve, CurvePoint, MAX_CURVE_POINTS};
pub use fault::{Key, Place, Section, StudyFault};
pub use limits::{
    MAX_ALL_ELEMENTS, MAX_BUSES, MAX_CANDIDATES, MAX_ELEMENTS, MAX_NAMES, MAX_OUTAGES,
    MAX_PERMILLE, MAX_POINTS, MAX_SCANS, MAX_SECTIONS, MAX_SIZES, MAX_TOLERANCES, MAX_WIDTHS,
};
pub use name::{MAX_NAME_LEN, Name};
pub use range::Range;
pub use records::{
    Bank, Bus, Candidate, Filter, Line, Load, Outage, Pcc, ScanItem, Source, Study, Tolerance,
    Transformer,
};
pub use words::{Connection, FilterKind, LoadModel, Method, Phase, Sequence, StudyModel};
pub use worked::{
    worked_curve_is_lawful, worked_plant_is_lawful, worked_study_is_lawful,
    worked_variants_are_lawful,
};
