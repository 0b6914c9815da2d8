// A network whose matrix has no value over any box, in whose place a node that isn't live is scanned.
ghost use Rattle.std.specs.Prelude.{◌≡◌, IfOk};
ghost use Rattle.net_branch.specs.Exact.{exact_network};
ghost use Rattle.band_subdivision.specs.Unfed.{without_value};

use exact_fraction::Fraction;
use net_branch::{Branch, Law, Network, NodeId, Tap};
use sqlite_items::Items;
use std::alloc::{AllocError, Global};

// Beyond the range of intervals at each scale.
const TOO_GREAT: Fraction = Fraction {
    num: 9_223_372_036_854_775_808,
    den: 1,
};

/// One bus with a shunt to ground whose susceptance has no interval.
pub fn without_value(alloc: Global) -> Result<Network, AllocError>
    ensures { IfOk result (λ network. exact_network network ≡ without_value) }
{
    let tap = Tap {
        node: NodeId { number: 0 },
        ratio: Fraction { num: 1, den: 1 },
    };
    let mut branches = Items::new(alloc);
    branches.push(Branch {
        taps: Items::from_slice(alloc, &[tap])?,
        law: Law::Shunt { b: TOO_GREAT },
        group: 0,
        owner: 0,
    })?;
    Ok(Network {
        buses: 1,
        nodes: 1,
        branches,
    })
}
