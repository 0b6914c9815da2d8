// How many entries a section has, and how fine a line and a band are.

/// The most buses of a study, which has at least one.
pub const MAX_BUSES: u32 = 200;

/// The most sources of a study, and so of lines, transformers, loads, banks and filters.
pub const MAX_ELEMENTS: u32 = 200;

/// The most elements of a study, in its six sections of them.
pub const MAX_ALL_ELEMENTS: u32 = 6 * MAX_ELEMENTS;

/// The most scans of a study.
pub const MAX_SCANS: u32 = 16;

/// The most points of common coupling of a study.
pub const MAX_POINTS: u32 = 32;

/// The most candidates of a study.
pub const MAX_CANDIDATES: u32 = 16;

/// The most sizes of a candidate, which has at least one.
pub const MAX_SIZES: u32 = 64;

/// The most tolerances of a study.
pub const MAX_TOLERANCES: u32 = 200;

/// The greatest tolerance of an element, in thousandths of its values. The least is 1.
pub const MAX_PERMILLE: u32 = 500;

/// The most outages of a study.
pub const MAX_OUTAGES: u32 = 32;

/// The most sections of a line, which has at least one.
pub const MAX_SECTIONS: u32 = 64;

/// The most finest widths of a scan's band.
pub const MAX_WIDTHS: u32 = 65_536;

/// The most names of a study: each bus, element, scan and point has one.
pub const MAX_NAMES: u32 = MAX_BUSES + MAX_ALL_ELEMENTS + MAX_SCANS + MAX_POINTS;
