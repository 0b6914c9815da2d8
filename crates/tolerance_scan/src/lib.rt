// Networks of which the values of elements lie anywhere within tolerances, and their scans.
#![tactic(auto)]

ghost use Rattle.tolerance_scan.specs.Apart.{NoPairApart};
ghost use Rattle.tolerance_scan.specs.Claim.{TolerancesHold};

mod between;
mod ends;
mod fault;
mod pair;
mod plan;
mod tolerances;
mod value;
mod widening;

pub use between::ToleranceScan;
pub use fault::ToleranceFault;
pub use plan::tolerance_plan;
pub use tolerances::widen_by;
pub use widening::widen;

/// What the boxes of a study's scans within its tolerances say is true of each network within them, the written one among these.
pub fn tolerances_hold()
    ensures law { TolerancesHold }
{}

/// Networks that differ at some place aren't a pair.
pub fn no_pair_apart()
    ensures law { NoPairApart }
{}
