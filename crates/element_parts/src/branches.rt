// Branches with one tap or two, which is all that balanced networks have.
ghost use Rattle.std.specs.Prelude.{◌≡◌, IfOk};
ghost use Rattle.exact_fraction.specs.Fraction.{ratio_of};
ghost use Rattle.net_branch.specs.Exact.{exact_law, exact_branch};
ghost use Rattle.element_parts.specs.Expansion.{to_ground, between, series, skin_series};

use crate::per_unit::{as_written, zero};
use exact_fraction::Fraction;
use fixed_decimal::Decimal;
use net_branch::{Branch, Law, NodeId, Tap};
use sqlite_items::Items;
use std::alloc::{AllocError, Global};

/// A resistance and a reactance in series, in per unit, with no skin coefficients: k is 0 and m is 1.
#[tactic(auto, unfolding(exact_algebra::specs::Ratio::whole))]
pub fn series(r: Fraction, x: Fraction) -> Law
    ensures { exact_law result ≡ series (ratio_of r) (ratio_of x) }
{
    Law::Series {
        r,
        k: Fraction { num: 0, den: 1 },
        m: Fraction { num: 1, den: 1 },
        x,
        xc: Fraction { num: 0, den: 1 },
    }
}

/// A resistance and a reactance in series, in per unit, with the skin coefficients of an element.
pub fn skin_series(r: Fraction, skin_k: Decimal, skin_m: Decimal, x: Fraction) -> Law
    ensures { exact_law result ≡ skin_series (ratio_of r) skin_k skin_m (ratio_of x) }
{
    Law::Series {
        r,
        k: as_written(skin_k),
        m: as_written(skin_m),
        x,
        xc: zero(),
    }
}

/// An uncoupled branch of an element from a node to ground: one tap of ratio 1.
#[tactic(auto, unfolding(exact_algebra::specs::Ratio::whole))]
pub fn to_ground(alloc: Global, node: u32, law: Law, owner: u32) -> Result<Branch, AllocError>
    ensures { IfOk result (λ branch. exact_branch branch ≡ to_ground node (exact_law law) owner) }
{
    let tap = Tap {
        node: NodeId { number: node },
        ratio: Fraction { num: 1, den: 1 },
    };
    Ok(Branch {
        taps: Items::from_slice(alloc, &[tap])?,
        law,
        group: 0,
        owner,
    })
}

/// An uncoupled branch of an element between two nodes: taps of the ratios 1 and -1.
#[tactic(auto, unfolding(exact_algebra::specs::Ratio::whole))]
pub fn between(
    alloc: Global,
    first: u32,
    second: u32,
    law: Law,
    owner: u32,
) -> Result<Branch, AllocError>
    ensures { IfOk result (λ branch. exact_branch branch ≡ between first second (exact_law law) owner) }
{
    let taps = [
        Tap {
            node: NodeId { number: first },
            ratio: Fraction { num: 1, den: 1 },
        },
        Tap {
            node: NodeId { number: second },
            ratio: Fraction { num: -1, den: 1 },
        },
    ];
    Ok(Branch {
        taps: Items::from_slice(alloc, &taps)?,
        law,
        group: 0,
        owner,
    })
}
