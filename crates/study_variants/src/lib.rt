// Other networks of a study: with a bank of some size at the scanned bus, and without one of its elements.
#![tactic(auto)]

ghost use Rattle.study_variants.specs.Outages.{OutageOfElement};
ghost use Rattle.study_variants.specs.Worked.{WorkedBanks};

mod candidates;
mod outages;
mod size_row;

pub use candidates::Candidates;
pub use outages::outage;
pub use size_row::SizeRow;

/// In a network that has grown element by element, an outage takes exactly the branches that its element adds. Each other element
/// keeps its own.
pub fn outage_of_element()
    ensures law { OutageOfElement }
{}

/// A bank at a node of a small network, worked by hand: added last to what elimination leaves, and first, by a scan from scratch. The two
/// differ only where a sum is out of range.
pub fn worked_banks()
    ensures worked { WorkedBanks }
{}
