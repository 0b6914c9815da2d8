// What the cases share: studies of two buses of 10 kV at a base of 100 MVA, where one ohm is one per unit, and branches by their values.
ghost use Rattle.std.specs.Prelude.{IfOk};
ghost use Rattle.study_model.specs.Lawful.{IsLawful};

use exact_fraction::Fraction;
use net_branch::{Branch, Law, Network, Tap};
use sequence_network::build_sequence;
use std::alloc::Global;
use std::process::Abort;
use std::test::Fail;
use study_model::{Sequence, Study};
use study_reader::read_study;

const BUSES: &str =
    "study.version = 1\nstudy.mva = 100\nbus = [{ name = \"B1\", kv = 10 }, { name = \"B2\", kv = 10 }]\n";

/// A fraction n/d, not reduced.
pub type Value = (i64, i64);

/// A branch that a case wants.
#[derive(Clone, Copy)]
pub enum Wanted {
    /// A Series from a node to ground, of the first element: r, k, m, x and xc.
    ToGround(u32, [Value; 5]),
    /// A Series between two nodes, of the first element.
    Between(u32, u32, [Value; 5]),
    /// A Shunt from a node to ground, of the first element: b.
    Shunt(u32, Value),
    /// Any other.
    Other(Parts),
}

/// The law of a branch: r, k, m, x and xc of a Series, or b of a Shunt.
#[derive(Clone, Copy)]
pub enum Values {
    Series([Value; 5]),
    Shunt(Value),
}

/// A branch by its first tap, the node of its second tap of ratio -1 where it has one, its law, and the number of its element.
#[derive(Clone, Copy)]
pub struct Parts {
    pub first: (u32, Value),
    pub second: Option<u32>,
    pub values: Values,
    pub owner: u32,
}

/// The branches of a network, and how many nodes it has.
#[derive(Clone, Copy)]
pub struct Case<'a> {
    pub label: &'a str,
    pub elements: &'a str,
    pub sequence: Sequence,
    pub nodes: u32,
    pub branches: &'a [Wanted],
}

impl Wanted {
    fn parts(self) -> Parts {
        let (node, second, values) = match self {
            Wanted::ToGround(node, values) => (node, None, Values::Series(values)),
            Wanted::Between(node, second, values) => (node, Some(second), Values::Series(values)),
            Wanted::Shunt(node, b) => (node, None, Values::Shunt(b)),
            Wanted::Other(parts) => return parts,
        };
        Parts {
            first: (node, (1, 1)),
            second,
            values,
            owner: 1,
        }
    }
}

/// The study of two buses and these entries.
pub fn study_with(alloc: Global, entries: &str) -> Result<Study, Fail>
    ensures { IfOk result IsLawful }
{
    let mut text = String::from_str(alloc, BUSES)?;
    text.push_str(entries)?;
    Ok(read_study(alloc, text.as_bytes())?)
}

fn is_value(value: Fraction, (n, d): Value) -> bool {
    match Fraction::new(i128::from(n), i128::from(d)) {
        Some(wanted) => value.at_most(wanted) && wanted.at_most(value),
        None => false,
    }
}

pub fn assert_value(rt: &impl Abort, label: &str, found: Fraction, wanted: Value) {
    assert!(rt; is_value(found, wanted), "{label}");
}

fn are_values(found: [Fraction; 5], wanted: [Value; 5]) -> bool {
    for (value, wanted) in found.iter().zip(wanted.iter()) {
        if !is_value(*value, *wanted) {
            return false;
        }
    }
    true
}

fn is_law(law: Law, wanted: Values) -> bool {
    match (law, wanted) {
        (Law::Series { r, k, m, x, xc }, Values::Series(values)) => {
            are_values([r, k, m, x, xc], values)
        }
        (Law::Shunt { b }, Values::Shunt(value)) => is_value(b, value),
        _ => false,
    }
}

fn is_tap(tap: &Tap, node: u32, ratio: Value) -> bool {
    tap.node.number == node && is_value(tap.ratio, ratio)
}

fn are_taps(taps: &[Tap], (node, ratio): (u32, Value), second: Option<u32>) -> bool {
    match (taps, second) {
        ([tap], None) => is_tap(tap, node, ratio),
        ([tap, other], Some(second)) => is_tap(tap, node, ratio) && is_tap(other, second, (-1, 1)),
        _ => false,
    }
}

fn is_branch(branch: &Branch, wanted: Parts) -> bool {
    branch.group == 0
        && branch.owner == wanted.owner
        && are_taps(branch.taps.as_slice(), wanted.first, wanted.second)
        && is_law(branch.law, wanted.values)
}

/// Compares a network's nodes and branches.
pub fn assert_network(
    rt: &impl Abort,
    label: &str,
    network: &Network,
    nodes: u32,
    wanted: &[Wanted],
) {
    let found = (network.nodes, network.branches.len());
    assert_eq!(rt; found, (nodes, wanted.len()), "{label}: nodes and branches");
    let pairs = network.branches.as_slice().iter().zip(wanted.iter());
    for (at, (branch, wanted)) in pairs.enumerate() {
        assert!(rt; is_branch(branch, wanted.parts()), "{label}: branch {at}");
    }
}

/// The network of these entries beside the two buses. It has no contract, so that no case is proved under what is proved of a network.
pub fn network_with(alloc: Global, entries: &str, sequence: Sequence) -> Result<Network, Fail> {
    let study = study_with(alloc, entries)?;
    match build_sequence(alloc, &study, sequence) {
        Ok(network) => Ok(network),
        Err(_) => Err("refused".into()),
    }
}

/// Compares the network of each case's elements.
pub fn assert_cases(rt: &impl Abort, alloc: Global, cases: &[Case<'_>]) -> Result<(), Fail> {
    for case in cases {
        let network = network_with(alloc, case.elements, case.sequence)?;
        assert_network(rt, case.label, &network, case.nodes, case.branches);
    }
    Ok(())
}
