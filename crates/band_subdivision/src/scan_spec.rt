// What a scan is asked, and what it says of one box.
ghost use Rattle.std.specs.Prelude.{◌≡◌};
ghost use Rattle.band_subdivision.specs.Boxes.{IsTestable};
ghost use Rattle.band_subdivision.specs.Levels.{IsKept, levels_in};
ghost use Rattle.band_subdivision.specs.ScanSpec.{HasLevels, levels_of};

use crate::scan_levels::ScanLevels;
use fixed_decimal::Decimal;
use study_model::{Curve, Method};
use threshold_curve::least_over;

/// The band of a scan, how far it is split, and what the impedance is compared with.
#[derive(Clone, Copy)]
pub struct ScanSpec {
    /// The band's beginning, in micro-orders: in `Range::BAND`.
    pub from: u32,
    /// The band's end, above its beginning and in `Range::BAND`.
    pub to: u32,
    /// The width in micro-orders down to which boxes are split: in `Range::FINEST`, and `MAX_WIDTHS` of them are as wide as the band.
    pub finest: u32,
    /// The width in micro-orders from which on peaks are named and, by `Method::Both`, the certified inverse is tried: in `Range::LOCATE`, and at least `finest`.
    pub locate: u32,
    /// The threshold over the orders: a lawful curve that spans the band.
    pub curve: Curve,
    /// The nominal voltage of the scanned bus, in kV: in `Range::BUS_KV`.
    pub kv: Decimal,
    /// The base power, in MVA: in `Range::BASE_MVA`.
    pub mva: Decimal,
    /// What is tried where elimination doesn't pass: nothing, the certified inverse, or the estimate branch by branch.
    pub method: Method,
}

impl ScanSpec {
    /// The least of the threshold from `lo` to `hi`, and the base values.
    pub fn levels(&self, lo: u32, hi: u32) -> ScanLevels
        requires levels { HasLevels self.now }
        requires orders { IsTestable self.now.from lo hi }
        ensures value { levels_in result ≡ levels_of self.now lo hi }
        ensures in_range { IsKept result }
    {
        ScanLevels {
            threshold: least_over(&self.curve, lo, hi),
            kv: self.kv,
            mva: self.mva,
        }
    }
}

/// What the interval test says of one box of orders.
#[derive(Clone, Copy, Debug, PartialEq, Eq)]
pub struct Tested {
    /// The impedance is shown to be within the threshold over the whole box.
    pub clear: bool,
    /// Where the impedance is shown to be above the threshold over the whole box: micro-ohms that it has at least.
    pub micro_ohms: Option<i128>,
}
