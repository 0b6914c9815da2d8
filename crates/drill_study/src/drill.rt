// The study of a drill, with its draws in their order.
ghost use Rattle.std.specs.Prelude.{◌≡◌, ◌+◌, ◌*◌, ◌++◌, ◌-◌, ◌<◌, ◌≤◌, ◌^◌, [], ◌∷◌, pos, IfOk, OnOk};
ghost use Rattle.study_model.specs.Lawful.{IsLawful};
ghost use Rattle.sequence_network.specs.Refusals.{HasLiveNetworks};
ghost use Rattle.drill_study.specs.Draws.{after};
ghost use Rattle.drill_study.specs.Drill.{buses_from, line_of, lines_from, load_of, loads_from, has_load, after_loads, bank_of, drill_buses, drill_lines, drill_loads, drawn_all, drill_source, drill_filter, drill_scan, drill_of};

use crate::draws::{drawn, next};
use crate::names::numbered;
use fixed_decimal::Decimal;
use sqlite_items::Items;
use std::alloc::{AllocError, Global};
use study_model::{
    Bank, Bus, Curve, Filter, FilterKind, Line, Load, LoadModel, Method, ScanItem, Sequence,
    Source, Study, StudyModel,
};

fn decimal(millionths: u32) -> Decimal
    ensures { result ≡ pos millionths }
{
    Decimal {
        millionths: millionths as i64,
    }
}

const NONE: Decimal = Decimal { millionths: 0 };

const ONE: Decimal = Decimal {
    millionths: 1_000_000,
};

// Pushes an item; for each type of items.
fn keep<T: Copy>(items: &mut Items<T>, item: T) -> Result<(), AllocError>
    ensures ok { OnOk result (items.new ≡ items.old ++ item ∷ []) }
{
    items.push(item)
}

// A list of one item.
fn only<T: Copy>(alloc: Global, item: T) -> Result<Items<T>, AllocError>
    ensures { IfOk result (λ items. items ≡ item ∷ []) }
{
    let mut items = Items::new(alloc);
    keep(&mut items, item)?;
    Ok(items)
}

// So many buses, from bus j on.
#[tactic(auto, using(crate::proofs::Steps::buses_next))]
fn push_buses(buses: &mut Items<Bus>, count: u8, j: u8) -> Result<(), AllocError>
    requires { j + count ≤ 60 }
    ensures { OnOk result (buses.new ≡ buses.old ++ buses_from count j) }
{
    if count == 0 {
        return Ok(());
    }
    let bus = Bus {
        name: numbered(b'B', j + 1),
        kv: decimal(33_000_000),
    };
    keep(buses, bus)?;
    push_buses(buses, count - 1, j + 1)
}

// The line from bus j to a later one, drawn after the state z.
fn line_of(j: u8, z: u32) -> Line
    requires { j < 59 }
    ensures { result ≡ line_of j z }
{
    let first = next(z);
    let second = next(first);
    let third = next(second);
    let fourth = next(third);
    Line {
        name: numbered(b'L', j + 1),
        from: j as u32,
        to: j as u32 + 1 + drawn(first, 59 - j as u32),
        r: decimal((10 + drawn(second, 50)) * 1_000),
        x: decimal((100 + drawn(third, 400)) * 1_000),
        b: decimal((20 + drawn(fourth, 200)) * 1_000_000),
        r0: None,
        x0: None,
        b0: NONE,
        sections: 2,
        xab: None,
        xbc: None,
        xca: None,
        skin_k: NONE,
        skin_m: ONE,
    }
}

// So many lines, from bus j on, and the state after their draws.
#[tactic(auto, using(crate::proofs::Steps::lines_next, crate::proofs::Steps::after_next))]
fn push_lines(lines: &mut Items<Line>, count: u8, j: u8, z: u32) -> Result<u32, AllocError>
    requires { j + count ≤ 59 }
    ensures lines { OnOk result (lines.new ≡ lines.old ++ lines_from count j z) }
    ensures state { IfOk result (λ state. state ≡ after (4 * count) z) }
{
    if count == 0 {
        return Ok(z);
    }
    keep(lines, line_of(j, z))?;
    push_lines(lines, count - 1, j + 1, next(next(next(next(z)))))
}

// The load at bus j, drawn after the state z.
fn load_of(j: u8, z: u32) -> Load
    requires { j < 59 }
    ensures { result ≡ load_of j z }
{
    Load {
        name: numbered(b'D', j + 1),
        bus: j as u32,
        model: LoadModel::Cigre,
        p: Some(decimal((1 + drawn(next(z), 4)) * 1_000_000)),
        q: Some(ONE),
        r: None,
        x: None,
        grounded: false,
        phase: None,
    }
}

// The loads at so many buses, from bus j on, and the state after their draws.
#[tactic(auto, using(crate::proofs::Steps::loads_with, crate::proofs::Steps::loads_without))]
fn push_loads(loads: &mut Items<Load>, count: u8, j: u8, z: u32) -> Result<u32, AllocError>
    requires { j + count ≤ 59 }
    ensures loads { OnOk result (loads.new ≡ loads.old ++ loads_from count j z) }
    ensures state { IfOk result (λ state. state ≡ after_loads count z) }
{
    if count == 0 {
        return Ok(z);
    }
    let drawn_once = next(z);
    if drawn(drawn_once, 3) == 0 {
        keep(loads, load_of(j, drawn_once))?;
        let drawn_twice = next(drawn_once);
        return push_loads(loads, count - 1, j + 1, drawn_twice);
    }
    push_loads(loads, count - 1, j + 1, drawn_once)
}

fn source() -> Source
    ensures { result ≡ drill_source }
{
    Source {
        name: numbered(b'S', 1),
        bus: 59,
        r: decimal(50_000),
        x: decimal(500_000),
        r0: None,
        x0: None,
        skin_k: NONE,
        skin_m: ONE,
    }
}

// The bank, drawn after the state z.
fn bank_of(z: u32) -> Bank
    ensures { result ≡ bank_of z }
{
    Bank {
        name: numbered(b'K', 1),
        bus: 0,
        q: decimal((1 + drawn(next(z), 6)) * 1_000_000),
        grounded: false,
        phase: None,
    }
}

fn filter() -> Filter
    ensures { result ≡ drill_filter }
{
    Filter {
        name: numbered(b'H', 1),
        bus: 29,
        kind: FilterKind::HighPass,
        q: decimal(2_000_000),
        order: decimal(11_000_000),
        quality: decimal(3_000_000),
        grounded: false,
        phase: None,
    }
}

/// The scan of each drill.
pub fn drill_scan() -> ScanItem
    ensures { result ≡ drill_scan }
{
    ScanItem {
        name: numbered(b's', 1),
        bus: 59,
        network: Sequence::Positive,
        phase: None,
        from: decimal(2_000_000),
        to: decimal(12_000_000),
        threshold: Some(decimal(20_000_000)),
        curve: Curve::flat(20_000_000),
        finest: decimal(50_000),
        locate: decimal(100_000),
    }
}

// All buses of a drill.
#[tactic(auto, unfolding(crate::specs::Drill::drill_buses))]
fn all_buses(alloc: Global) -> Result<Items<Bus>, AllocError>
    ensures { IfOk result (λ buses. buses ≡ drill_buses) }
{
    let mut buses = Items::new(alloc);
    push_buses(&mut buses, 60, 0)?;
    Ok(buses)
}

// All lines and loads of a drill, and the state after their draws.
fn push_drawn(
    lines: &mut Items<Line>,
    loads: &mut Items<Load>,
    number: u32,
) -> Result<u32, AllocError>
    requires no_lines { lines.old ≡ [] }
    requires no_loads { loads.old ≡ [] }
    ensures lines { OnOk result (lines.new ≡ drill_lines number) }
    ensures loads { OnOk result (loads.new ≡ drill_loads number) }
    ensures state { IfOk result (λ state. state ≡ drawn_all number) }
{
    let after_lines = push_lines(lines, 59, 0, number)?;
    let after_loads = push_loads(loads, 59, 0, after_lines)?;
    Ok(after_loads)
}

// The study of a number.
#[tactic(auto, unfolding(crate::specs::Drill::drill_of))]
fn study_of(alloc: Global, number: u32) -> Result<Study, AllocError>
    ensures { IfOk result (λ study. study ≡ drill_of number) }
{
    let buses = all_buses(alloc)?;
    let sources = only(alloc, source())?;
    let mut lines = Items::new(alloc);
    let mut loads = Items::new(alloc);
    let state = push_drawn(&mut lines, &mut loads, number)?;
    let banks = only(alloc, bank_of(state))?;
    let filters = only(alloc, filter())?;
    let scans = only(alloc, drill_scan())?;
    Ok(Study {
        version: 1,
        mva: decimal(100_000_000),
        hz: decimal(50_000_000),
        model: StudyModel::Sequence,
        scale: 40,
        method: Method::Elimination,
        root3: decimal(1_732_051),
        buses,
        sources,
        lines,
        transformers: Items::new(alloc),
        loads,
        banks,
        filters,
        scans,
        points: Items::new(alloc),
        candidates: Items::new(alloc),
        tolerances: Items::new(alloc),
        outages: Items::new(alloc),
    })
}

/// The study of a number: 60 buses of 33 kV, each but the last with a line of two sections to a later one, and loads at some of
/// them; a source at the last, which is scanned from order 2 to 12, a bank at the first, and a high-pass filter at bus 30. It is lawful,
/// and its networks are within the limits and live, whatever the number.
pub fn drill_study(alloc: Global, number: u32) -> Result<Study, AllocError>
    ensures study { IfOk result (λ study. study ≡ drill_of number) }
    ensures lawful { IfOk result IsLawful }
    ensures live { IfOk result HasLiveNetworks }
{
    let study = study_of(alloc, number)?;
    Ok(study)
}
