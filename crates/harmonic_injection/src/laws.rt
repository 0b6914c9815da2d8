// Laws of injections.
ghost use Rattle.harmonic_injection.specs.Laws.{AtMostAllRows, LawfulIsInStudy, NodesAreLive};

/// A lawful spectrum can be placed. An order has at most as many injections as the spectrum has rows; and where each row has a path, each of its
/// nodes is live in the sequence network that the order sees.
#[tactic(auto, using(crate::proofs::Nodes::in_study, crate::proofs::Nodes::few, crate::proofs::Nodes::live_nodes))]
pub fn injections_of_an_order()
    ensures placed { LawfulIsInStudy }
    ensures few { AtMostAllRows }
    ensures live { NodesAreLive }
{}
