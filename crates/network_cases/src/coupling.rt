// Networks with a group of three coupled branches.
ghost use Rattle.std.specs.Prelude.{◌≡◌, ◌≢◌, ◌≤◌, IsTrue, None, IfOk, OnOk};
ghost use Rattle.std.specs.List.{AllByRecursion};
ghost use Rattle.exact_algebra.specs.Ratio.{◌≼◌};
ghost use Rattle.exact_fraction.specs.Fraction.{ratio_of};
ghost use Rattle.network_theory.specs.Network.{IsGroup};
ghost use Rattle.net_branch.specs.Exact.{exact_branch};
ghost use Rattle.net_branch.specs.Whole.{IsWholeNetwork};
ghost use Rattle.net_branch.specs.declared.network.Law.TheVariants.{Coupled3};

use crate::fixtures::{MINUS_ONE, ONE, Part, ZERO, network_of, tap};
use admittance_box::CouplingValues;
use exact_fraction::Fraction;
use net_branch::{Branch, Law, NetFault, Network, Tap, push_branch};
use sqlite_items::Items;
use std::alloc::Global;
use std::test::Fail;

/// Where the phases of a group go, from the first three buses.
#[derive(Clone, Copy)]
pub enum Far {
    Ground,
    NextBuses,
}

// The taps of the phase of this place, with this ratio at its near end.
fn taps_of(alloc: Global, place: u8, ratio: Fraction, far: Far) -> Result<Items<Tap>, Fail> {
    let number = u32::from(place);
    let near = tap(number, ratio);
    match far {
        Far::Ground => Ok(Items::from_slice(alloc, &[near])?),
        Far::NextBuses => Ok(Items::from_slice(alloc, &[near, tap(number + 3, MINUS_ONE)])?),
    }
}

// A branch of the group 7.
fn phase(
    alloc: Global,
    place: u8,
    ratio: Fraction,
    far: Far,
    c: CouplingValues,
) -> Result<Branch, Fail>
    ensures law { IfOk result (λ branch. branch.law ≡ Coupled3 place c.self_r c.self_x c.mutual_r c.x_ab c.x_bc c.x_ca c.k c.m) }
    ensures group { IfOk result (λ branch. branch.group ≡ 7) }
    ensures owner { IfOk result (λ branch. branch.owner ≡ 3) }
{
    Ok(Branch {
        taps: taps_of(alloc, place, ratio, far)?,
        law: Law::Coupled3 {
            place,
            self_r: c.self_r,
            self_x: c.self_x,
            mutual_r: c.mutual_r,
            x_ab: c.x_ab,
            x_bc: c.x_bc,
            x_ca: c.x_ca,
            k: c.k,
            m: c.m,
        },
        group: 7,
        owner: 3,
    })
}

/// A group: its values, where its phases go, and how the third branch writes its ratio and the self reactance.
#[derive(Clone, Copy)]
pub struct Group {
    pub values: CouplingValues,
    pub far: Far,
    pub ratio: Fraction,
    pub third: Fraction,
}

// The three branches of a group whose number is new.
fn push_group(
    alloc: Global,
    network: &mut Network,
    a: Branch,
    b: Branch,
    c: Branch,
) -> Result<(), NetFault>
    requires whole { IsWholeNetwork network.old }
    requires three { IsGroup (exact_branch a) (exact_branch b) (exact_branch c) }
    requires apart { AllByRecursion (λ o. o.group ≢ a.group) network.old.branches }
    ensures { OnOk result (IsWholeNetwork network.new) }
{
    push_branch(alloc, network, a)?;
    push_branch(alloc, network, b)?;
    push_branch(alloc, network, c)?;
    Ok(())
}

// Whether two values are equal, each by its own parts.
fn is_equal(x: Fraction, y: Fraction) -> bool
    ensures { IsTrue result → (ratio_of x ≼ ratio_of y) × (ratio_of y ≼ ratio_of x) }
{
    x.at_most(y) && y.at_most(x)
}

/// Adds a group to a network that has none, and answers why a branch was refused.
pub fn add_group(
    alloc: Global,
    network: &mut Network,
    group: Group,
) -> Result<Option<NetFault>, Fail>
    requires whole { IsWholeNetwork network.old }
    requires alone { AllByRecursion (λ b. b.group ≡ 0) network.old.branches }
    ensures { IfOk result (λ fault. fault ≡ None → IsWholeNetwork network.new) }
{
    let values = group.values;
    let own = CouplingValues {
        self_x: group.third,
        ..values
    };
    let a = phase(alloc, 0, ONE, group.far, values)?;
    let b = phase(alloc, 1, ONE, group.far, values)?;
    let c = phase(alloc, 2, group.ratio, group.far, own)?;
    if !is_equal(values.self_x, group.third) {
        return Err("not equal".into());
    }
    Ok(push_group(alloc, network, a, b, c).err())
}

/// So many buses with these parts and then a group.
pub fn coupled(alloc: Global, buses: u32, parts: &[Part], group: Group) -> Result<Network, Fail>
    requires { buses ≤ 400 }
    ensures { IfOk result IsWholeNetwork }
{
    let mut network = network_of(alloc, buses, parts)?;
    match add_group(alloc, &mut network, group)? {
        None => Ok(network),
        Some(_) => Err("refused".into()),
    }
}

/// A group whose third branch writes its values as the others do.
pub fn alike(values: CouplingValues, far: Far) -> Group {
    Group {
        values,
        far,
        ratio: ONE,
        third: values.self_x,
    }
}

pub const THREE: Fraction = Fraction { num: 3, den: 1 };

/// A group without resistance of this reactance, with these between the pairs of phases.
pub fn coils(x: Fraction, x_ab: Fraction, x_bc: Fraction, x_ca: Fraction) -> CouplingValues {
    CouplingValues {
        self_r: ZERO,
        self_x: x,
        mutual_r: ZERO,
        x_ab,
        x_bc,
        x_ca,
        k: ZERO,
        m: ONE,
    }
}
