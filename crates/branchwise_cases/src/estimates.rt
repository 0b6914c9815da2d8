// Estimates by the drop of one node.
ghost use Rattle.std.specs.Prelude.{IfOk};
ghost use Rattle.drop_bench.specs.Drops.{IsInside};

use crate::outcomes::{Cell, Expected, UNIT, expect, found};
use admittance_box::{PlacedTap, TapProduct};
use complex_interval::{Enclosure, Rect, Span};
use drop_bench::{DropBench, DropIntervals};
use std::alloc::Global;
use std::test::Fail;

fn span(low: i64, high: i64) -> Result<Span<40>, Fail> {
    let span = Span::from_ends(low, high).ok_or("out of range")?;
    Ok(span)
}

fn cell([re_low, re_high, im_low, im_high]: Cell) -> Result<Rect<Span<40>>, Fail> {
    Ok(Rect {
        re: span(re_low, re_high)?,
        im: span(im_low, im_high)?,
    })
}

/// The drop of the one node, with this middle and this rest.
fn node_drop(alloc: Global, middle: Cell, rest: Cell) -> Result<DropIntervals<Span<40>>, Fail>
    ensures { IfOk result (IsInside 1) }
{
    let one = span(UNIT, UNIT)?;
    let mut taps = Vec::new(alloc);
    taps.push(PlacedTap {
        place: 0,
        ratio: one,
    })?;
    let mut pairs = Vec::new(alloc);
    pairs.push(TapProduct {
        row: 0,
        column: 0,
        factor: one,
    })?;
    Ok(DropIntervals {
        taps,
        pairs,
        middle: cell(middle)?,
        rest: cell(rest)?,
    })
}

/// The estimate on a bench of one node.
fn outcome(alloc: Global, middle: Cell, rest: Cell) -> Result<Expected, Fail> {
    let mut drops = Vec::new(alloc);
    drops.push(node_drop(alloc, middle, rest)?)?;
    let mut bench = DropBench::new(alloc, 1, 1)?;
    Ok(found(bench.estimate(drops.as_slice())))
}

#[test]
fn one_node(rt: HostRuntime) -> Result<(), Fail> {
    let cases = [
        (
            "no pivot",
            [0, 0, 0, 0],
            [0, 0, 0, 0],
            Expected::NoInverse(1),
        ),
        (
            "a conductance of 1/2",
            [UNIT / 2, UNIT / 2, 0, 0],
            [0, 0, 0, 0],
            Expected::Near([2 * UNIT, 2 * UNIT, 0, 0], 0),
        ),
        (
            "a susceptance from 1 to 3",
            [0, 0, 2 * UNIT, 2 * UNIT],
            [0, 0, -UNIT, UNIT],
            Expected::Near([0, 0, -3 * UNIT / 4, -UNIT / 4], 274_878_234_624),
        ),
        (
            "a susceptance from 0 to 2",
            [0, 0, UNIT, UNIT],
            [0, 0, -UNIT, UNIT],
            Expected::NotContracting(1_099_511_627_776),
        ),
        (
            "an inverse above the range",
            [1, 1, 0, 0],
            [0, 0, 0, 0],
            Expected::OutOfRange,
        ),
    ];
    for (label, middle, rest, expected) in cases {
        let found = outcome(rt.alloc(), middle, rest)?;
        expect(&rt, found, expected, label);
    }
    Ok(())
}
