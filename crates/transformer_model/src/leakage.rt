// The leakage impedance of a transformer, between its sides or from one side to ground.
ghost use Rattle.std.specs.Prelude.{◌≡◌, ◌≤ℤ◌, pos, IfOk};
ghost use Rattle.exact_fraction.specs.Fraction.{ratio_of};
ghost use Rattle.net_branch.specs.Exact.{exact_law, exact_branch};
ghost use Rattle.transformer_model.specs.Transformers.{leakage, windings, winding};

use element_parts::{inverse_ratio, percent, skin_series};
use exact_fraction::Fraction;
use net_branch::{Branch, Law, NodeId, Tap};
use sqlite_items::Items;
use std::alloc::{AllocError, Global};
use study_model::{Study, Transformer};

/// The leakage impedance, in per unit on the study's base, with the transformer's skin coefficients.
pub fn leakage(study: &Study, transformer: &Transformer) -> Law
    requires { pos 1 ≤ℤ transformer.now.mva }
    ensures { exact_law result ≡ leakage study.now transformer.now }
{
    let r = percent(transformer.r, study.mva, transformer.mva);
    let x = percent(transformer.x, study.mva, transformer.mva);
    skin_series(r, transformer.skin_k, transformer.skin_m, x)
}

/// The branch between a node of the from side and one of the to side: two taps, of the ratios 1/t and -1.
#[tactic(auto, unfolding(exact_algebra::specs::Ratio::whole))]
pub fn windings(
    alloc: Global,
    study: &Study,
    transformer: &Transformer,
    from: u32,
    to: u32,
    owner: u32,
) -> Result<Branch, AllocError>
    requires mva { pos 1 ≤ℤ transformer.now.mva }
    requires ratio { pos 1 ≤ℤ transformer.now.ratio }
    ensures { IfOk result (λ branch. exact_branch branch ≡ windings study.now transformer.now from to owner) }
{
    let law = leakage(study, transformer);
    let taps = [
        Tap {
            node: NodeId { number: from },
            ratio: inverse_ratio(transformer.ratio),
        },
        Tap {
            node: NodeId { number: to },
            ratio: Fraction { num: -1, den: 1 },
        },
    ];
    Ok(Branch {
        taps: Items::from_slice(alloc, &taps)?,
        law,
        group: 0,
        owner,
    })
}

/// The branch from a node of one side to ground: one tap, of that side's ratio.
pub fn winding(
    alloc: Global,
    study: &Study,
    transformer: &Transformer,
    node: u32,
    ratio: Fraction,
    owner: u32,
) -> Result<Branch, AllocError>
    requires { pos 1 ≤ℤ transformer.now.mva }
    ensures { IfOk result (λ branch. exact_branch branch ≡ winding study.now transformer.now node (ratio_of ratio) owner) }
{
    let law = leakage(study, transformer);
    let tap = Tap {
        node: NodeId { number: node },
        ratio,
    };
    Ok(Branch {
        taps: Items::from_slice(alloc, &[tap])?,
        law,
        group: 0,
        owner,
    })
}
