// The records of a study, one field a key. A decimal is in the key's own unit; a bus is its number from 0.
use crate::curve::Curve;
use crate::name::Name;
use crate::words::{Connection, FilterKind, LoadModel, Method, Phase, Sequence, StudyModel};
use fixed_decimal::Decimal;
use sqlite_items::Items;

/// A bus and its nominal voltage in kV.
#[derive(Clone, Copy)]
pub struct Bus {
    pub name: Name,
    pub kv: Decimal,
}

/// A source behind an impedance in ohms.
#[derive(Clone, Copy)]
pub struct Source {
    pub name: Name,
    pub bus: u32,
    pub r: Decimal,
    pub x: Decimal,
    pub r0: Option<Decimal>,
    pub x0: Option<Decimal>,
    pub skin_k: Decimal,
    pub skin_m: Decimal,
}

/// A line as a cascade of nominal pi sections, in ohms and microsiemens of the whole line.
#[derive(Clone, Copy)]
pub struct Line {
    pub name: Name,
    pub from: u32,
    pub to: u32,
    pub r: Decimal,
    pub x: Decimal,
    pub b: Decimal,
    pub r0: Option<Decimal>,
    pub x0: Option<Decimal>,
    pub b0: Decimal,
    pub sections: u32,
    pub xab: Option<Decimal>,
    pub xbc: Option<Decimal>,
    pub xca: Option<Decimal>,
    pub skin_k: Decimal,
    pub skin_m: Decimal,
}

/// A transformer of two windings: MVA, percent on its own rating, and neutral impedances in ohms.
#[derive(Clone, Copy)]
pub struct Transformer {
    pub name: Name,
    pub from: u32,
    pub to: u32,
    pub mva: Decimal,
    pub r: Decimal,
    pub x: Decimal,
    pub ratio: Decimal,
    pub from_conn: Connection,
    pub to_conn: Connection,
    pub from_rn: Decimal,
    pub from_xn: Decimal,
    pub to_rn: Decimal,
    pub to_xn: Decimal,
    pub skin_k: Decimal,
    pub skin_m: Decimal,
}

/// A load: MW and MVAr, or ohms in the series model.
#[derive(Clone, Copy)]
pub struct Load {
    pub name: Name,
    pub bus: u32,
    pub model: LoadModel,
    pub p: Option<Decimal>,
    pub q: Option<Decimal>,
    pub r: Option<Decimal>,
    pub x: Option<Decimal>,
    pub grounded: bool,
    pub phase: Option<Phase>,
}

/// A capacitor bank, rated in MVAr.
#[derive(Clone, Copy)]
pub struct Bank {
    pub name: Name,
    pub bus: u32,
    pub q: Decimal,
    pub grounded: bool,
    pub phase: Option<Phase>,
}

/// A tuned filter: the rating of its capacitor in MVAr, the order it is tuned to, and its quality.
#[derive(Clone, Copy)]
pub struct Filter {
    pub name: Name,
    pub bus: u32,
    pub kind: FilterKind,
    pub q: Decimal,
    pub order: Decimal,
    pub quality: Decimal,
    pub grounded: bool,
    pub phase: Option<Phase>,
}

/// A scan of a band of orders at a bus: orders and widths, and its threshold over the orders. Where the threshold is one
/// number of ohms, as in a study of version 1, that stands beside its flat curve.
#[derive(Clone, Copy)]
pub struct ScanItem {
    pub name: Name,
    pub bus: u32,
    pub network: Sequence,
    pub phase: Option<Phase>,
    pub from: Decimal,
    pub to: Decimal,
    pub threshold: Option<Decimal>,
    pub curve: Curve,
    pub finest: Decimal,
    pub locate: Decimal,
}

/// A point of common coupling: an element that touches its bus, by the element's number from 1, and currents in amperes.
#[derive(Clone, Copy)]
pub struct Pcc {
    pub name: Name,
    pub bus: u32,
    pub element: u32,
    pub isc: Decimal,
    pub il: Decimal,
}

/// A bank to be added at the bus of a scan, by the scan's number from 1: its sizes in MVAr, in the order in which they are tried.
#[derive(Drop)]
pub struct Candidate {
    pub scan: u32,
    pub sizes: Items<Decimal>,
}

/// How far the values of an element may lie from those that are written, in thousandths: an element by its number from 1.
#[derive(Clone, Copy)]
pub struct Tolerance {
    pub element: u32,
    pub permille: u32,
}

/// An element that may be out of service, by its number from 1.
#[derive(Clone, Copy)]
pub struct Outage {
    pub element: u32,
}

/// A whole study: its base MVA and frequency in Hz, how it is computed, and its sections.
#[derive(Drop)]
pub struct Study {
    pub version: u32,
    pub mva: Decimal,
    pub hz: Decimal,
    pub model: StudyModel,
    pub scale: u32,
    pub method: Method,
    pub root3: Decimal,
    pub buses: Items<Bus>,
    pub sources: Items<Source>,
    pub lines: Items<Line>,
    pub transformers: Items<Transformer>,
    pub loads: Items<Load>,
    pub banks: Items<Bank>,
    pub filters: Items<Filter>,
    pub scans: Items<ScanItem>,
    pub points: Items<Pcc>,
    pub candidates: Items<Candidate>,
    pub tolerances: Items<Tolerance>,
    pub outages: Items<Outage>,
}
