// The boxes of a band of orders, one after another, by a test of boxes, and what they say of a network.
#![tactic(auto)]

ghost use Rattle.band_subdivision.specs.Truth.{EliminationTestIsSound, InverseTestIsSound, BranchwisePartIsSound, PartsAreSound, BoxesAreTrue};
ghost use Rattle.band_subdivision.specs.PairTruth.{PairTestIsSound};
ghost use Rattle.band_subdivision.specs.BoxText.{BoxesHaveText};
ghost use Rattle.band_subdivision.specs.WorkedBounds.{WorkedBounds};

mod boxes;
mod branchwise_part;
mod interval_test;
mod inverse_test;
mod pair_test;
mod scan;
mod scan_levels;
mod scan_spec;
mod second_bench;
mod size_test;
mod stack;
mod unfed;

pub use scan::Scan;
pub use scan_levels::ScanLevels;
pub use scan_spec::{ScanSpec, Tested};

/// The elimination part is sound where the reduced admittances hold the exact ones.
pub fn elimination_test_is_sound()
    ensures law { EliminationTestIsSound }
{}

/// The inverse part is sound where the enclosures hold the impedances.
pub fn inverse_test_is_sound()
    ensures law { InverseTestIsSound }
{}

/// The branch-wise part is sound where the impedances lie near the estimates.
pub fn branchwise_part_is_sound()
    ensures law { BranchwisePartIsSound }
{}

/// A test that is made of sound parts is sound.
pub fn parts_are_sound()
    ensures law { PartsAreSound }
{}

/// The test of a pair of networks is sound for every network between the two, with one more shunt of the extra
/// susceptance at the driven node where that is above 0.
pub fn pair_test_is_sound()
    ensures law { PairTestIsSound }
{}

/// By a sound test, what each box of a band says is true.
pub fn boxes_are_true()
    ensures law { BoxesAreTrue }
{}

/// A report can write each box of an interval test.
pub fn boxes_have_text()
    ensures law { BoxesHaveText }
{}

/// Bounds worked by hand.
pub fn worked_bounds()
    ensures law { WorkedBounds }
{}
