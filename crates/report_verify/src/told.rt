// What the lines of a scan have told so far.
ghost use Rattle.std.specs.Prelude.{◌≡◌, ◌<◌, ◌^◌, IsSome};
ghost use Rattle.scan_report.specs.Rows.{IsOhms};
ghost use Rattle.band_subdivision.specs.BoxText.{ohms_of_kind};
ghost use Rattle.report_verify.specs.Told.{kind_told, told_at, may_follow, with_box, with_region, next_line, IsTold};

use scan_report::{BoxRow, BoxWord, Kind};
use study_scans::{Tally, tally_more};

/// What the line of a box tells: its number, its ends in micro-orders, and its kind, which a peak without an order or a bound lacks.
#[derive(Clone, Copy)]
pub struct BoxLine {
    pub number: u32,
    pub lo: u32,
    pub hi: u32,
    pub kind: Option<Kind>,
}

/// The kind that the line of a box tells.
pub fn kind_told(word: BoxWord, at: Option<u32>, micro_ohms: Option<i128>) -> Option<Kind>
    ensures { result ≡ kind_told word at micro_ohms }
{
    match word {
        BoxWord::Cleared => Some(Kind::Cleared),
        BoxWord::Undecided => Some(Kind::Undecided),
        BoxWord::Peak => {
            let at = at?;
            let micro_ohms = micro_ohms?;
            Some(Kind::Peak { at, micro_ohms })
        }
    }
}

/// What the lines of a scan have told so far: where the last box ended, in micro-orders, and at first where the band begins; the counts, with
/// the run of boxes right before the next line of which none is cleared, as long as it lacks the row of its region; and whether such a row
/// stands right before.
#[derive(Clone, Copy)]
pub struct Told {
    pub reached: u32,
    pub tally: Tally,
    pub after_region: bool,
}

impl Told {
    /// Nothing yet of a band that begins here.
    pub fn at(from: u32) -> Told
        ensures value { result ≡ told_at from }
        ensures is { IsTold result }
    {
        Told {
            reached: from,
            tally: Tally::NONE,
            after_region: false,
        }
    }

    /// Whether a box of this kind may follow: no cleared one a run without its region's row, and no other the row of a region.
    pub fn may_follow(&self, kind: Kind) -> bool
        ensures { result ≡ may_follow self.now kind }
    {
        match kind {
            Kind::Cleared => self.tally.run.is_none(),
            _ => !self.after_region,
        }
    }

    /// After one box more, which begins where the last one ended.
    pub fn with_box(&self, found: &BoxRow) -> Told
        requires is { IsTold self.now }
        requires begins { found.now.lo ≡ self.now.reached }
        requires up { found.now.lo < found.now.hi }
        requires short { found.now.hi < 2 ^ 32 }
        requires text { IsOhms (ohms_of_kind found.now.kind) }
        ensures value { result ≡ with_box self.now found.now }
        ensures is { IsTold result }
    {
        Told {
            reached: found.hi,
            tally: tally_more(self.tally, found),
            after_region: false,
        }
    }

    /// After the row of the region of the run.
    pub fn with_region(&self) -> Told
        requires is { IsTold self.now }
        requires running { IsSome self.now.tally.run }
        ensures value { result ≡ with_region self.now }
        ensures is { IsTold result }
    {
        Told {
            reached: self.reached,
            tally: Tally {
                counts: self.tally.counts,
                regions: self.tally.regions + 1,
                run: None,
            },
            after_region: true,
        }
    }
}

/// The number of the next line, in 32 bits.
pub fn next_line(number: u32) -> u32
    ensures { result ≡ next_line number }
{
    number.saturating_add(1)
}
