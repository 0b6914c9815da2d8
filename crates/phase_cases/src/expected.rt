// What the cases share: studies in three phases of two buses of 10 kV at a base of 100 MVA, where one ohm is one per unit, and branches by their
// values. Bus B1 has the nodes 0, 1 and 2, B2 the nodes 3, 4 and 5; inner nodes are numbered from 6 on.
ghost use Rattle.std.specs.Prelude.{IfOk};
ghost use Rattle.study_model.specs.Lawful.{IsLawful};

use exact_fraction::Fraction;
use net_branch::{Branch, Law, Network, Tap};
use phase_network::build_phases;
use std::alloc::Global;
use std::process::Abort;
use std::test::Fail;
use study_model::Study;
use study_reader::read_study;

const BUSES: &str =
    "study = { version = 1, mva = 100, model = \"phases\" }\nbus = [{ name = \"B1\", kv = 10 }, { name = \"B2\", kv = 10 }]\n";

/// A fraction n/d, not reduced.
pub type Value = (i64, i64);

/// The law of a branch: r, k, m, x and xc of a Series; b of a Shunt; of a coupled branch its place, and the self and mutual resistance, the self
/// reactance, the mutual reactances of a and b, b and c, c and a, and k and m.
#[derive(Clone, Copy)]
pub enum Values {
    Series([Value; 5]),
    Shunt(Value),
    Coupled(u8, [Value; 8]),
}

/// A branch that a case wants.
#[derive(Clone, Copy)]
pub enum Wanted<'a> {
    /// An uncoupled branch from a node to ground.
    ToGround(u32, Values),
    /// An uncoupled branch between two nodes.
    Between(u32, u32, Values),
    /// A branch of a group from a node to ground.
    GroupToGround(u32, u32, Values),
    /// A branch of a group between two nodes.
    GroupBetween(u32, u32, u32, Values),
    /// An uncoupled branch of these taps.
    Taps(&'a [(u32, Value)], Values),
}

/// The branches of a network, and how many nodes it has.
#[derive(Clone, Copy)]
pub struct Case<'a> {
    pub label: &'a str,
    pub elements: &'a str,
    pub nodes: u32,
    pub branches: &'a [Wanted<'a>],
}

/// The study of two buses and these entries.
pub fn study_with(alloc: Global, entries: &str) -> Result<Study, Fail>
    ensures { IfOk result IsLawful }
{
    let mut text = String::from_str(alloc, BUSES)?;
    text.push_str(entries)?;
    Ok(read_study(alloc, text.as_bytes())?)
}

fn is_value(value: Fraction, (n, d): Value) -> bool {
    match Fraction::new(i128::from(n), i128::from(d)) {
        Some(wanted) => value.at_most(wanted) && wanted.at_most(value),
        None => false,
    }
}

fn are_values(found: &[Fraction], wanted: &[Value]) -> bool {
    for (value, wanted) in found.iter().zip(wanted.iter()) {
        if !is_value(*value, *wanted) {
            return false;
        }
    }
    found.len() == wanted.len()
}

fn is_law(law: Law, wanted: Values) -> bool {
    match (law, wanted) {
        (Law::Series { r, k, m, x, xc }, Values::Series(values)) => {
            are_values(&[r, k, m, x, xc], &values)
        }
        (Law::Shunt { b }, Values::Shunt(value)) => is_value(b, value),
        (
            Law::Coupled3 {
                place,
                self_r,
                self_x,
                mutual_r,
                x_ab,
                x_bc,
                x_ca,
                k,
                m,
            },
            Values::Coupled(wanted, values),
        ) => {
            let found = [self_r, mutual_r, self_x, x_ab, x_bc, x_ca, k, m];
            place == wanted && are_values(&found, &values)
        }
        _ => false,
    }
}

/// Whether these are the taps, in this order.
fn are_taps(found: &[Tap], wanted: &[(u32, Value)]) -> bool {
    for (tap, (node, ratio)) in found.iter().zip(wanted.iter()) {
        if tap.node.number != *node || !is_value(tap.ratio, *ratio) {
            return false;
        }
    }
    found.len() == wanted.len()
}

fn has(branch: &Branch, group: u32, taps: &[(u32, Value)], law: Values) -> bool {
    branch.group == group
        && branch.owner == 1
        && are_taps(branch.taps.as_slice(), taps)
        && is_law(branch.law, law)
}

fn is_branch(branch: &Branch, wanted: Wanted<'_>) -> bool {
    match wanted {
        Wanted::ToGround(node, law) => has(branch, 0, &[(node, (1, 1))], law),
        Wanted::Between(a, b, law) => has(branch, 0, &[(a, (1, 1)), (b, (-1, 1))], law),
        Wanted::GroupToGround(group, node, law) => has(branch, group, &[(node, (1, 1))], law),
        Wanted::GroupBetween(group, a, b, law) => {
            has(branch, group, &[(a, (1, 1)), (b, (-1, 1))], law)
        }
        Wanted::Taps(taps, law) => has(branch, 0, taps, law),
    }
}

/// Compares a network's nodes and branches, all of the first element.
pub fn assert_network(
    rt: &impl Abort,
    label: &str,
    network: &Network,
    nodes: u32,
    wanted: &[Wanted<'_>],
) {
    let found = (network.nodes, network.branches.len());
    assert_eq!(rt; found, (nodes, wanted.len()), "{label}: nodes and branches");
    let pairs = network.branches.as_slice().iter().zip(wanted.iter());
    for (at, (branch, wanted)) in pairs.enumerate() {
        assert!(rt; is_branch(branch, *wanted), "{label}: branch {at}");
    }
}

/// The network of these entries beside the two buses. It has no contract, so that no case is proved under what is proved of a network.
pub fn network_with(alloc: Global, entries: &str) -> Result<Network, Fail> {
    let study = study_with(alloc, entries)?;
    match build_phases(alloc, &study) {
        Ok(network) => Ok(network),
        Err(_) => Err("refused".into()),
    }
}

/// Compares the network of each case's elements.
pub fn assert_cases(rt: &impl Abort, alloc: Global, cases: &[Case<'_>]) -> Result<(), Fail> {
    for case in cases {
        let network = network_with(alloc, case.elements)?;
        assert_network(rt, case.label, &network, case.nodes, case.branches);
    }
    Ok(())
}
