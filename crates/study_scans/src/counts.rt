// How many boxes there are, and of which kinds, and the regions that they make.
ghost use Rattle.std.specs.Prelude.{◌≡◌, ◌<◌, ◌≤◌};
ghost use Rattle.study_scans.specs.Fold.{most_boxes, count_more, ended_by, tally_more, all_regions, found_too, status_of};
ghost use Rattle.study_scans.specs.Tallies.{IsTally};

use crate::region::{Region, joined};
use scan_report::{BoxRow, Kind};

/// How many boxes there are, and of which kinds.
#[derive(Clone, Copy)]
pub struct Counts {
    pub boxes: u32,
    pub cleared: u32,
    pub peaks: u32,
    pub undecided: u32,
}

impl Counts {
    /// No boxes.
    pub const NONE: Counts = Counts {
        boxes: 0,
        cleared: 0,
        peaks: 0,
        undecided: 0,
    };
}

/// One box more, of this kind.
pub fn count(counts: Counts, kind: Kind) -> Counts
    requires { counts.boxes < most_boxes × counts.cleared ≤ counts.boxes × counts.peaks ≤ counts.boxes × counts.undecided ≤ counts.boxes }
    ensures { result ≡ count_more kind counts }
{
    let mut counts = counts;
    counts.boxes += 1;
    match kind {
        Kind::Cleared => counts.cleared += 1,
        Kind::Peak { .. } => counts.peaks += 1,
        Kind::Undecided => counts.undecided += 1,
    }
    counts
}

/// What is known after some boxes of a scan: how many there are, how many regions have ended, and the run of boxes that is open.
#[derive(Clone, Copy)]
pub struct Tally {
    pub counts: Counts,
    pub regions: u32,
    pub run: Option<Region>,
}

impl Tally {
    /// No boxes.
    pub const NONE: Tally = Tally {
        counts: Counts::NONE,
        regions: 0,
        run: None,
    };
}

/// How many regions have ended after a box of this kind.
fn ended_by(regions: u32, run: Option<Region>, kind: Kind) -> u32
    requires { regions < most_boxes }
    ensures { result ≡ ended_by regions run kind }
{
    match (run, kind) {
        (Some(_), Kind::Cleared) => regions + 1,
        _ => regions,
    }
}

/// One box of a scan more.
pub fn tally_more(tally: Tally, found: &BoxRow) -> Tally
    requires tally { IsTally tally }
    requires room { tally.counts.boxes < most_boxes }
    ensures { result ≡ tally_more found.now tally }
{
    Tally {
        counts: count(tally.counts, found.kind),
        regions: ended_by(tally.regions, tally.run, found.kind),
        run: joined(tally.run, found),
    }
}

/// How many regions there are, the open one too.
pub fn all_regions(regions: u32, run: Option<Region>) -> u32
    requires { regions < most_boxes }
    ensures { result ≡ all_regions regions run }
{
    match run {
        Some(_) => regions + 1,
        None => regions,
    }
}

/// Whether some box of a report is a peak, and whether some box is undecided.
#[derive(Clone, Copy)]
pub struct Found {
    pub peak: bool,
    pub undecided: bool,
}

impl Found {
    /// No boxes yet.
    pub const NOTHING: Found = Found {
        peak: false,
        undecided: false,
    };

    /// One scan more, with these boxes.
    pub fn and(self, counts: Counts) -> Found
        ensures { result ≡ found_too self counts }
    {
        Found {
            peak: self.peak || counts.peaks > 0,
            undecided: self.undecided || counts.undecided > 0,
        }
    }

    /// The status of a report: 3 with a peak, else 4 with an undecided box, else 0.
    pub fn status(self) -> u8
        ensures { result ≡ status_of self }
    {
        if self.peak {
            3
        } else if self.undecided {
            4
        } else {
            0
        }
    }
}
