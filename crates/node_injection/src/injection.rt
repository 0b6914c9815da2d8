// A current into a node.
use exact_fraction::Fraction;
use net_branch::NodeId;

/// A current into a node, in per unit: its real and its imaginary part.
#[derive(Clone, Copy)]
pub struct NodeInjection {
    pub node: NodeId,
    pub re: Fraction,
    pub im: Fraction,
}
