// Regions: longest runs of boxes of which none is cleared.
ghost use Rattle.std.specs.Prelude.{◌≡◌, ◌<◌, IfSome};
ghost use Rattle.study_model.specs.Range.{IsIn};
ghost use Rattle.study_model.specs.declared.range.TheConstants.Range.{HERTZ};
ghost use Rattle.study_scans.specs.Regions.{hertz_down, hertz_up};
ghost use Rattle.study_scans.specs.Fold.{most_boxes, better, reaching, with_kind, joined};

use fixed_decimal::Decimal;
use scan_report::{BoxRow, Kind};

/// A peak's order, in micro-orders, and its bound in micro-ohms.
#[derive(Clone, Copy)]
pub struct Summit {
    pub at: u32,
    pub micro_ohms: i128,
}

/// A run of boxes of which none is cleared, as far as it goes: its ends, in micro-orders, how many of them are peaks and how many
/// undecided, and the first of those peaks with the greatest bound.
#[derive(Clone, Copy)]
pub struct Region {
    pub lo: u32,
    pub hi: u32,
    pub peaks: u32,
    pub undecided: u32,
    pub summit: Option<Summit>,
}

/// The one with the greater bound, the first where both are equal.
fn better(first: Option<Summit>, second: Summit) -> Summit
    ensures { result ≡ better first second }
{
    match first {
        Some(first) => {
            if first.micro_ohms < second.micro_ohms {
                second
            } else {
                first
            }
        }
        None => second,
    }
}

/// A run of boxes up to this end; a new one begins at `lo`.
fn reaching(run: Option<Region>, lo: u32, hi: u32) -> Region
    ensures { result ≡ reaching run lo hi }
{
    match run {
        Some(run) => Region { hi, ..run },
        None => Region {
            lo,
            hi,
            peaks: 0,
            undecided: 0,
            summit: None,
        },
    }
}

/// A run with the kind of its last box; none where that is cleared.
fn with_kind(run: Region, kind: Kind) -> Option<Region>
    requires peaks { run.peaks < most_boxes }
    requires undecided { run.undecided < most_boxes }
    ensures { result ≡ with_kind run kind }
{
    match kind {
        Kind::Cleared => None,
        Kind::Peak { at, micro_ohms } => Some(Region {
            peaks: run.peaks + 1,
            summit: Some(better(run.summit, Summit { at, micro_ohms })),
            ..run
        }),
        Kind::Undecided => Some(Region {
            undecided: run.undecided + 1,
            ..run
        }),
    }
}

/// The run that is open after one box more. A cleared box ends it.
pub fn joined(run: Option<Region>, found: &BoxRow) -> Option<Region>
    requires { IfSome run (λ run. (run.peaks < most_boxes) × (run.undecided < most_boxes)) }
    ensures { result ≡ joined run found.now }
{
    with_kind(reaching(run, found.lo, found.hi), found.kind)
}

/// An order as a frequency in millionths of a hertz, rounded down.
pub fn hertz_down(order: u32, hz: Decimal) -> u64
    requires { IsIn HERTZ hz }
    ensures { result ≡ hertz_down order hz }
{
    u64::from(order) * hz.millionths.unsigned_abs() / 1_000_000
}

/// An order as a frequency in millionths of a hertz, rounded up.
pub fn hertz_up(order: u32, hz: Decimal) -> u64
    requires { IsIn HERTZ hz }
    ensures { result ≡ hertz_up order hz }
{
    (u64::from(order) * hz.millionths.unsigned_abs() + 999_999) / 1_000_000
}
