// What becomes of one box of orders.
ghost use Rattle.std.specs.Prelude.{◌≡◌};
ghost use Rattle.std.specs.Prelude.{None};
ghost use Rattle.band_subdivision.specs.Boxes.{IsTestable, kind_of, peak_of};
ghost use Rattle.band_subdivision.specs.ScanSpec.{widths_of};
ghost use Rattle.band_subdivision.specs.Testing.{box_test};

use crate::pair_test::PairTest;
use complex_interval::Enclosure;
use scan_report::Kind;

/// The first of the middle, the low end and the high end that is above.
fn peak<E: Enclosure>(test: &mut PairTest<E>, lo: u32, hi: u32) -> Option<Kind>
    requires { IsTestable test.old.spec.from lo hi }
    ensures value { result ≡ peak_of (box_test E.SCALE test.old) lo hi None }
    ensures same { test.new ≡ test.old }
{
    let middle = lo + (hi - lo) / 2;
    if let Some(micro_ohms) = test.micro_ohms(middle, middle) {
        return Some(Kind::Peak {
            at: middle,
            micro_ohms,
        });
    }
    if let Some(micro_ohms) = test.micro_ohms(lo, lo) {
        return Some(Kind::Peak { at: lo, micro_ohms });
    }
    if let Some(micro_ohms) = test.micro_ohms(hi, hi) {
        return Some(Kind::Peak { at: hi, micro_ohms });
    }
    None
}

/// What becomes of a box: its kind, or nothing where it is to be split.
#[tactic(auto, unfolding(crate::specs::Boxes::kind_of))]
pub fn settle<E: Enclosure>(test: &mut PairTest<E>, lo: u32, hi: u32) -> Option<Kind>
    requires { IsTestable test.old.spec.from lo hi }
    ensures value { result ≡ kind_of (box_test E.SCALE test.old) (widths_of test.old.spec) lo hi }
    ensures same { test.new ≡ test.old }
{
    let spec = test.spec();
    if test.is_clear(lo, hi) {
        return Some(Kind::Cleared);
    }
    if hi - lo <= spec.locate {
        if let Some(peak) = peak(test, lo, hi) {
            return Some(peak);
        }
    }
    if hi - lo <= spec.finest {
        return Some(Kind::Undecided);
    }
    None
}
