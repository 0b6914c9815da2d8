// How many boxes a walk gives, of which kinds, and the regions that they make.
ghost use Rattle.std.specs.Prelude.{◌≡◌, ◌<◌, length};
ghost use Rattle.std.specs.List.{AllByRecursion};
ghost use Rattle.band_subdivision.specs.BoxText.{HasText};
ghost use Rattle.study_scans.specs.Fold.{most_boxes, tallied, no_tally};

use crate::counts::{Tally, tally_more};
use band_subdivision::Scan;
use complex_interval::Enclosure;

/// Counts all boxes of a walk.
pub fn tally_of<E: Enclosure>(walk: &mut Scan<E>) -> Tally
    requires text { AllByRecursion HasText walk.old.left }
    requires few { length walk.old.left < most_boxes }
    ensures tally { result ≡ tallied no_tally walk.old.left }
    ensures room { result.regions < most_boxes }
{
    let mut tally = Tally::NONE;
    'boxes: while let Some(found) = walk.next_box() {
        tally = tally_more(tally, &found);
    }
    tally
}
