// The check of one box: what its line tells of it, against the test.
ghost use Rattle.std.specs.Prelude.{◌≡◌, None};
ghost use Rattle.band_subdivision.specs.Boxes.{kind_of, peak_of, above_at};
ghost use Rattle.band_subdivision.specs.Scan.{test_of};
ghost use Rattle.band_subdivision.specs.ScanSpec.{widths_of};
ghost use Rattle.report_verify.specs.Checks.{IsInBand, settles_undecided, is_at_least, is_peak_by, unless, kind_fault};

use crate::checker::Checker;
use crate::fault::VerifyFault;
use complex_interval::Enclosure;
use scan_report::Kind;

/// Whether the test clears a box.
fn clears<E: Enclosure>(checker: &mut Checker<E>, lo: u32, hi: u32) -> bool
    requires { IsInBand checker.old lo hi }
    ensures value { result ≡ (test_of E.SCALE checker.old.walk).clear lo hi }
    ensures same { checker.new ≡ checker.old }
{
    checker.walk.test(lo, hi).clear
}

/// Where the test finds the impedance above at an order: micro-ohms that it has at least.
fn above_at<E: Enclosure>(checker: &mut Checker<E>, at: u32) -> Option<i128>
    requires { IsInBand checker.old at at }
    ensures value { result ≡ above_at (test_of E.SCALE checker.old.walk) at }
    ensures same { checker.new ≡ checker.old }
{
    checker.walk.test(at, at).micro_ohms
}

/// The first of the middle, the low end and the high end that is above.
fn peak<E: Enclosure>(checker: &mut Checker<E>, lo: u32, hi: u32) -> Option<Kind>
    requires { IsInBand checker.old lo hi }
    ensures value { result ≡ peak_of (test_of E.SCALE checker.old.walk) lo hi None }
    ensures same { checker.new ≡ checker.old }
{
    let middle = lo + (hi - lo) / 2;
    if let Some(micro_ohms) = above_at(checker, middle) {
        return Some(Kind::Peak {
            at: middle,
            micro_ohms,
        });
    }
    if let Some(micro_ohms) = above_at(checker, lo) {
        return Some(Kind::Peak { at: lo, micro_ohms });
    }
    if let Some(micro_ohms) = above_at(checker, hi) {
        return Some(Kind::Peak { at: hi, micro_ohms });
    }
    None
}

/// Whether the bisection of a band would settle a box as undecided: it is at most as wide as the finest width, isn't cleared, and no peak is
/// named in it.
#[tactic(auto, using(crate::proofs::Settling::clear_settles, crate::proofs::Settling::wide_settles, crate::proofs::Settling::narrow_settles))]
fn is_undecided<E: Enclosure>(checker: &mut Checker<E>, lo: u32, hi: u32) -> bool
    requires { IsInBand checker.old lo hi }
    ensures value { result ≡ settles_undecided (kind_of (test_of E.SCALE checker.old.walk) (widths_of checker.old.spec) lo hi) }
    ensures same { checker.new ≡ checker.old }
{
    if hi - lo > checker.spec.finest || clears(checker, lo, hi) {
        return false;
    }
    peak(checker, lo, hi).is_none()
}

/// Whether a bound is certified.
fn is_at_least(certified: Option<i128>, micro_ohms: i128) -> bool
    ensures { result ≡ is_at_least certified micro_ohms }
{
    match certified {
        Some(certified) => micro_ohms <= certified,
        None => false,
    }
}

/// Whether the test shows a peak at this order of a box, with this bound.
fn is_peak<E: Enclosure>(
    checker: &mut Checker<E>,
    lo: u32,
    hi: u32,
    at: u32,
    micro_ohms: i128,
) -> bool
    requires { IsInBand checker.old lo hi }
    ensures value { result ≡ is_peak_by (test_of E.SCALE checker.old.walk) lo hi at micro_ohms }
    ensures same { checker.new ≡ checker.old }
{
    if lo <= at && at <= hi {
        is_at_least(above_at(checker, at), micro_ohms)
    } else {
        false
    }
}

/// A fault, where a test fails.
fn unless(passes: bool, fault: VerifyFault) -> Option<VerifyFault>
    ensures { result ≡ unless passes fault }
{
    if passes { None } else { Some(fault) }
}

/// The fault of what a line tells of its box, if it has one.
pub fn kind_fault<E: Enclosure>(
    checker: &mut Checker<E>,
    line: u32,
    lo: u32,
    hi: u32,
    kind: Kind,
) -> Option<VerifyFault>
    requires { IsInBand checker.old lo hi }
    ensures value { result ≡ kind_fault (test_of E.SCALE checker.old.walk) (widths_of checker.old.spec) line lo hi kind }
    ensures same { checker.new ≡ checker.old }
{
    match kind {
        Kind::Cleared => unless(clears(checker, lo, hi), VerifyFault::NotCleared(line)),
        Kind::Peak { at, micro_ohms } => unless(
            is_peak(checker, lo, hi, at, micro_ohms),
            VerifyFault::NotPeak(line),
        ),
        Kind::Undecided => unless(
            is_undecided(checker, lo, hi),
            VerifyFault::NotUndecided(line),
        ),
    }
}
