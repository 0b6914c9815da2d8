// The values of elements that lie higher or lower.
ghost use Rattle.std.specs.Prelude.{◌≤◌};
ghost use Rattle.study_model.specs.Lawful.{IsLawful};

use crate::fixtures::{PLANT, positive};
use exact_fraction::Fraction;
use net_branch::{Law, Network};
use std::alloc::Global;
use std::process::Abort;
use std::test::Fail;
use study_model::Study;
use study_reader::read_study;
use tolerance_scan::widen;

/// A numerator and a denominator.
type Parts = (i128, i128);

/// The values of a branch that a tolerance is of, and those that stay.
#[derive(Clone, Copy)]
enum Values {
    /// r, x and xc; k and m.
    Series([Parts; 3], [Parts; 2]),
    Shunt(Parts),
}

/// Equal in value.
fn is(value: Fraction, parts: Parts) -> bool {
    match Fraction::new(parts.0, parts.1) {
        None => false,
        Some(other) => value.at_most(other) && other.at_most(value),
    }
}

fn has(law: Law, values: Values) -> bool {
    match (law, values) {
        (Law::Series { r, k, m, x, xc }, Values::Series(wide, kept)) => {
            is(r, wide[0]) && is(x, wide[1]) && is(xc, wide[2]) && is(k, kept[0]) && is(m, kept[1])
        }
        (Law::Shunt { b }, Values::Shunt(parts)) => is(b, parts),
        _ => false,
    }
}

/// The network in which an element's values lie so many thousandths higher or lower.
fn widened(
    alloc: Global,
    study: &Study,
    owner: u32,
    permille: u32,
    upward: bool,
) -> Result<Network, Fail>
    requires study { IsLawful study.now }
    requires permille { permille ≤ 500 }
{
    let network = positive(alloc, study)?;
    Ok(widen(alloc, &network, owner, permille, upward)?)
}

fn expect_values(rt: &impl Abort, network: &Network, values: [Values; 3], label: &str) {
    let branches = network.branches.as_slice();
    assert!(rt; branches.len() == 3, "{label}");
    for place in 0..3 {
        if place < branches.len() {
            let same = has(branches[place].law, values[place]);
            assert!(rt; same, "{label}: branch {place}");
        }
    }
}

const NONE: Parts = (0, 1);

const SKIN: [Parts; 2] = [(1, 4), (10, 1)];

const NO_SKIN: [Parts; 2] = [(0, 1), (1, 1)];

const SOURCE: Values = Values::Series([(1, 2), (1, 1), NONE], SKIN);

const BANK: Values = Values::Shunt((4, 100));

const FILTER: Values = Values::Series([(1, 10), (1, 1), (25, 1)], NO_SKIN);

#[test]
fn one_element_higher_or_lower(rt: HostRuntime) -> Result<(), Fail> {
    let study = read_study(rt.alloc(), PLANT.as_bytes())?;
    let higher = Values::Series([(11, 20), (11, 10), NONE], SKIN);
    let lower = Values::Series([(9, 20), (9, 10), NONE], SKIN);
    let half_bank = Values::Shunt((2, 100));
    let high_filter = Values::Series([(3, 20), (3, 2), (75, 2)], NO_SKIN);
    for (owner, permille, upward, values, label) in [
        (1, 100, true, [higher, BANK, FILTER], "a source up"),
        (1, 100, false, [lower, BANK, FILTER], "a source down"),
        (2, 500, false, [SOURCE, half_bank, FILTER], "a bank down"),
        (3, 500, true, [SOURCE, BANK, high_filter], "a filter up"),
        (3, 0, true, [SOURCE, BANK, FILTER], "by nothing"),
        (4, 500, true, [SOURCE, BANK, FILTER], "no such element"),
    ] {
        let network = widened(rt.alloc(), &study, owner, permille, upward)?;
        expect_values(&rt, &network, values, label);
    }
    Ok(())
}
