// The scans of a study: the test of their boxes, their walks and rows, and what they claim.
#![tactic(auto)]

ghost use Rattle.study_scans.specs.Claim.{TestsAreSound, BoxesHold};

mod counts;
mod plan;
mod region;
mod rows;
mod tally;
mod walk;

pub use counts::{Counts, Found, Tally, all_regions, tally_more};
pub use plan::{PlannedScan, plan_of};
pub use region::{Region, Summit};
pub use rows::{head_row, row_of_box, row_of_region, summary_of};
pub use tally::tally_of;
pub use walk::{spec_of, walk_between, walk_of};

/// The test of the networks from one to another is sound for each network between them: what it says of a box is true of the
/// driving-point impedance at the node.
pub fn tests_are_sound()
    ensures law { TestsAreSound }
{}

/// By a sound test, the boxes of a band cover it without a gap, and what each says is true.
pub fn boxes_hold()
    ensures law { BoxesHold }
{}
