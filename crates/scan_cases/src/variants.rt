// A coil and a bank at one bus at 100 MVA and 10 kV, without one of them and with the bank in other sizes.
ghost use Rattle.std.specs.Prelude.{pos, ◌≤ℤ◌, All, IfOk};
ghost use Rattle.network_theory.specs.Network.{IsUncoupled};
ghost use Rattle.net_branch.specs.Exact.{exact_branch};
ghost use Rattle.net_branch.specs.Whole.{IsWholeNetwork};

use crate::compare::expect;
use crate::scans::{BESIDE_A_BANK, WITH_A_BANK, WITHOUT_A_BANK, expect_scan, one_bus, spec_of};
use complex_interval::{Enclosure, Span};
use fixed_decimal::Decimal;
use net_branch::{Branch, Network, new_network};
use network_cases::fixtures::{
    FOUR_HUNDREDTHS, Part, TENTH, bank, branch_of, coil, live_node, push,
};
use std::alloc::Global;
use std::process::Abort;
use std::test::Fail;
use study_variants::{Candidates, SizeRow, outage};

// The branch of a part, of this owner.
fn owned(alloc: Global, part: &Part, owner: u32) -> Result<Branch, Fail>
    ensures { IfOk result (λ branch. IsUncoupled (exact_branch branch)) }
{
    let mut branch = branch_of(alloc, part)?;
    branch.owner = owner;
    Ok(branch)
}

// A coil of element 1 and a bank of element 2.
fn coil_and_bank(alloc: Global) -> Result<Network, Fail>
    ensures { IfOk result IsWholeNetwork }
{
    let mut network = new_network(alloc, 1)?;
    push(alloc, &mut network, owned(alloc, &coil(0, TENTH), 1)?)?;
    let bank = bank(0, FOUR_HUNDREDTHS);
    push(alloc, &mut network, owned(alloc, &bank, 2)?)?;
    Ok(network)
}

// The bank alone has at most 8.34 ohms, and nothing is taken where no branch has the owner.
#[test]
fn one_element_out_in_turn(rt: HostRuntime) -> Result<(), Fail> {
    let network = coil_and_bank(rt.alloc())?;
    for (owner, left, rows) in [
        (1, 1, WITHOUT_A_BANK.as_slice()),
        (2, 1, WITHOUT_A_BANK.as_slice()),
        (3, 2, WITH_A_BANK.as_slice()),
    ] {
        let rest = outage(rt.alloc(), &network, owner)?;
        expect(&rt, rest.branches.len(), left, "branches");
        expect_scan::<Span<40>>(&rt, rt.alloc(), &rest, 0, BESIDE_A_BANK, rows)?;
    }
    Ok(())
}

const FOUR: Decimal = Decimal {
    millionths: 4_000_000,
};

const HALF: Decimal = Decimal {
    millionths: 500_000,
};

// The sizes of a bank beside the coil give these rows.
fn expect_sizes<E: Enclosure>(
    rt: &impl Abort,
    alloc: Global,
    sizes: &[Decimal],
    rows: &[SizeRow],
) -> Result<(), Fail>
    requires { All (λ q. pos 1 ≤ℤ q) sizes.now }
{
    let network = one_bus(alloc, TENTH)?;
    let spec = spec_of(BESIDE_A_BANK)?;
    let node = live_node(alloc, &network, 0)?;
    let mut candidates: Candidates<E> = Candidates::new(alloc, &network, node, spec, sizes)?;
    for row in rows {
        expect(rt, candidates.next_size(), Some(*row), "a size");
    }
    expect(rt, candidates.next_size(), None, "the end");
    Ok(())
}

#[test]
fn a_safe_size_and_one_that_resounds(rt: HostRuntime) -> Result<(), Fail> {
    let sizes = [FOUR, HALF];
    let rows = [
        SizeRow {
            size: FOUR,
            cleared: 2,
            peaks: 4,
            undecided: 0,
        },
        SizeRow {
            size: HALF,
            cleared: 1,
            peaks: 0,
            undecided: 0,
        },
    ];
    expect_sizes::<Span<40>>(&rt, rt.alloc(), sizes.as_slice(), rows.as_slice())?;
    expect_sizes::<Span<48>>(&rt, rt.alloc(), sizes.as_slice(), rows.as_slice())?;
    Ok(())
}
