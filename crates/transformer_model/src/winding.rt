// The windings of a transformer in three phases. Each side is three windings, whose far ends are tied by the side's connection.
ghost use Rattle.std.specs.Prelude.{◌≡◌, ◌+◌, ◌*◌, ◌<◌, ◌≤◌, ◌≤ℤ◌, ◌^◌, pos, negsuc, unsigned_abs, ◌++◌, map, option_map, IfOk, OnOk};
ghost use Rattle.exact_algebra.specs.Ratio.{over};
ghost use Rattle.exact_fraction.specs.Fraction.{ratio_of};
ghost use Rattle.net_branch.specs.Exact.{exact_tap};
ghost use Rattle.study_model.specs.declared.limits.TheConstants.{MAX_BUSES};
ghost use Rattle.study_model.specs.declared.words.Connection.{Connection};
ghost use Rattle.transformer_model.specs.NeutralLaws.{laws_of};
ghost use Rattle.transformer_model.specs.ExactSides.{exact_side};
ghost use Rattle.transformer_model.specs.Windings.{far_tap, winding_taps, winding_ratio, from_taps, to_taps, side_of, from_side};

use element_parts::{first_node, next_phase, scaled, small};
use exact_fraction::Fraction;
use fixed_decimal::Decimal;
use net_branch::{Law, NodeId, Tap};
use sqlite_items::Items;
use std::alloc::{AllocError, Global};
use study_model::{Connection, Study, Transformer};

/// Where the far ends of a side's windings are.
#[derive(Clone, Copy)]
pub enum FarEnd {
    /// At ground.
    Ground,
    /// At a neutral, by its node.
    Neutral(u32),
    /// At the node of the next phase.
    NextPhase,
}

/// A side: how many inner nodes it adds, the far end of its windings, and the law from its neutral to ground where there is one.
#[derive(Clone, Copy)]
pub struct Side {
    pub inner: u32,
    pub end: FarEnd,
    pub law: Option<Law>,
}

/// A side by its connection, whose neutral has the number `next` and the impedance `law` where it has one.
pub fn side_of(connection: Connection, next: u32, law: Option<Law>) -> Side
    ensures side { exact_side result ≡ side_of connection next (laws_of law) }
    ensures few { result.inner ≤ 1 }
{
    match (connection, law) {
        (Connection::Grounded, None) => Side {
            inner: 0,
            end: FarEnd::Ground,
            law: None,
        },
        (Connection::Grounded, Some(law)) => Side {
            inner: 1,
            end: FarEnd::Neutral(next),
            law: Some(law),
        },
        (Connection::Star, _) => Side {
            inner: 1,
            end: FarEnd::Neutral(next),
            law: None,
        },
        (Connection::Delta, _) => Side {
            inner: 0,
            end: FarEnd::NextPhase,
            law: None,
        },
    }
}

/// The from side, which beside another star has no neutral of its own.
pub fn from_side(from: Connection, to: Connection, next: u32, law: Option<Law>) -> Side
    ensures side { exact_side result ≡ from_side from to next (laws_of law) }
    ensures few { result.inner ≤ 1 }
{
    match (from, to) {
        (Connection::Star, Connection::Star) => Side {
            inner: 0,
            end: FarEnd::Ground,
            law: None,
        },
        _ => side_of(from, next, law),
    }
}

/// A ratio n/d of a winding, over root 3 in a delta.
fn winding_ratio(connection: Connection, n: i32, d: i64, root3: Decimal) -> Fraction
    requires n { unsigned_abs n ≤ 1000000 }
    requires d { pos 1 ≤ℤ d }
    requires few { unsigned_abs d ≤ 1000000000000 }
    requires root3 { pos 1 ≤ℤ root3 }
    ensures { ratio_of result ≡ winding_ratio connection n (unsigned_abs d) root3 }
{
    match connection {
        Connection::Delta => small(i128::from(n) * 1_000_000, scaled(root3, i128::from(d))),
        _ => small(i128::from(n), i128::from(d)),
    }
}

/// The tap at the far end of a winding in a phase, where it isn't at ground.
fn far_tap(node: u32, opposite: Fraction, end: FarEnd, phase: u32) -> Option<Tap>
    requires node { node < 2 ^ 31 }
    requires phase { phase < 3 }
    ensures { option_map exact_tap result ≡ far_tap node (ratio_of opposite) end phase }
{
    let number = match end {
        FarEnd::Ground => return None,
        FarEnd::Neutral(neutral) => neutral,
        FarEnd::NextPhase => node + next_phase(phase),
    };
    Some(Tap {
        node: NodeId { number },
        ratio: opposite,
    })
}

/// Adds the taps of a winding in a phase: its phase's tap, and the one at its far end.
fn push_taps(
    taps: &mut Items<Tap>,
    node: u32,
    ratio: Fraction,
    opposite: Fraction,
    end: FarEnd,
    phase: u32,
) -> Result<(), AllocError>
    requires node { node < 2 ^ 31 }
    requires phase { phase < 3 }
    ensures { OnOk result (map exact_tap taps.new ≡ map exact_tap taps.old ++ winding_taps node (ratio_of ratio) (ratio_of opposite) end phase) }
{
    let near = NodeId {
        number: node + phase,
    };
    taps.push(Tap { node: near, ratio })?;
    if let Some(far) = far_tap(node, opposite, end, phase) {
        taps.push(far)?;
    }
    Ok(())
}

/// Adds the taps of the from winding in a phase.
fn push_from(
    taps: &mut Items<Tap>,
    study: &Study,
    transformer: &Transformer,
    end: FarEnd,
    phase: u32,
) -> Result<(), AllocError>
    requires from { transformer.now.from < MAX_BUSES }
    requires ratio { pos 1 ≤ℤ transformer.now.ratio }
    requires root3 { pos 1 ≤ℤ study.now.root3 }
    requires phase { phase < 3 }
    ensures { OnOk result (map exact_tap taps.new ≡ map exact_tap taps.old ++ from_taps study.now transformer.now end phase) }
{
    let node = first_node(transformer.from);
    let t = transformer.ratio.millionths;
    let ratio = winding_ratio(transformer.from_conn, 1_000_000, t, study.root3);
    let opposite = winding_ratio(transformer.from_conn, -1_000_000, t, study.root3);
    push_taps(taps, node, ratio, opposite, end, phase)
}

/// Adds the taps of the to winding in a phase.
fn push_to(
    taps: &mut Items<Tap>,
    study: &Study,
    transformer: &Transformer,
    end: FarEnd,
    phase: u32,
) -> Result<(), AllocError>
    requires to { transformer.now.to < MAX_BUSES }
    requires root3 { pos 1 ≤ℤ study.now.root3 }
    requires phase { phase < 3 }
    ensures { OnOk result (map exact_tap taps.new ≡ map exact_tap taps.old ++ to_taps study.now transformer.now end phase) }
{
    let node = first_node(transformer.to);
    let ratio = winding_ratio(transformer.to_conn, -1, 1, study.root3);
    let opposite = winding_ratio(transformer.to_conn, 1, 1, study.root3);
    push_taps(taps, node, ratio, opposite, end, phase)
}

/// The taps of both windings in a phase.
pub fn taps_of(
    alloc: Global,
    study: &Study,
    transformer: &Transformer,
    from: FarEnd,
    to: FarEnd,
    phase: u32,
) -> Result<Items<Tap>, AllocError>
    requires from { transformer.now.from < MAX_BUSES }
    requires to { transformer.now.to < MAX_BUSES }
    requires ratio { pos 1 ≤ℤ transformer.now.ratio }
    requires root3 { pos 1 ≤ℤ study.now.root3 }
    requires phase { phase < 3 }
    ensures { IfOk result (λ taps. map exact_tap taps ≡ from_taps study.now transformer.now from phase ++ to_taps study.now transformer.now to phase) }
{
    let mut taps = Items::new(alloc);
    push_from(&mut taps, study, transformer, from, phase)?;
    push_to(&mut taps, study, transformer, to, phase)?;
    Ok(taps)
}
