// Lines. A line is added whole or not at all, so a refused one leaves no inner node behind.
ghost use Rattle.std.specs.Prelude.{◌≡◌, ◌≤◌, ◌-◌, length, map, IfOk};
ghost use Rattle.study_model.specs.Lawful.{IsLawful, IsLawfulLine};
ghost use Rattle.net_branch.specs.Exact.{exact_law, exact_branch};
ghost use Rattle.net_branch.specs.Whole.{IsWholeNetwork};
ghost use Rattle.net_branch.specs.declared.limits.TheConstants.{MAX_NODES};
ghost use Rattle.element_parts.specs.Adds.{Adds};
ghost use Rattle.element_parts.specs.Parts.{exact_parts};
ghost use Rattle.line_pi.specs.Lines.{section_series, end_laws, line_of, line_expansion};

use crate::section::cascade;
use element_parts::{
    Parts, add_plain, impedance_share, kv, open_circuit, skin_series, susceptance_share,
};
use fixed_decimal::Decimal;
use net_branch::{AddFault, Branch, Law, Network};
use sqlite_items::Items;
use std::alloc::{AllocError, Global};
use study_model::{Line, Sequence, Study};

/// The resistance and the reactance of a whole line in ohms, and its susceptance in microsiemens.
#[derive(Clone, Copy)]
struct Values {
    r: Decimal,
    x: Decimal,
    b: Decimal,
}

/// The series law of one of a line's sections.
#[tactic(auto, using(element_parts::proofs::Values::kv_positive))]
fn section_series(study: &Study, line: &Line, r: Decimal, x: Decimal) -> Law
    requires study { IsLawful study.now }
    requires line { IsLawfulLine study.now.model study.now.buses line.now }
    ensures { exact_law result ≡ section_series study.now line.now r x }
{
    let kv = kv(study, line.from);
    skin_series(
        impedance_share(r, study.mva, kv, line.sections),
        line.skin_k,
        line.skin_m,
        impedance_share(x, study.mva, kv, line.sections),
    )
}

/// The law of an end of one of a line's sections to ground, or none where the line has no susceptance.
fn end_laws(alloc: Global, study: &Study, line: &Line, b: Decimal) -> Result<Items<Law>, AllocError>
    requires study { IsLawful study.now }
    requires line { IsLawfulLine study.now.model study.now.buses line.now }
    ensures { IfOk result (λ laws. map exact_law laws ≡ end_laws study.now line.now b) }
{
    if b.millionths <= 0 {
        return Ok(Items::new(alloc));
    }
    let kv = kv(study, line.from);
    let b = susceptance_share(b, study.mva, kv, 2 * line.sections);
    Items::from_slice(alloc, &[Law::Shunt { b }])
}

/// The inner nodes and branches of a line of these values, whose inner nodes are numbered from `next` on.
fn line_of(
    alloc: Global,
    study: &Study,
    line: &Line,
    owner: u32,
    next: u32,
    values: Values,
) -> Result<Parts, AllocError>
    requires study { IsLawful study.now }
    requires line { IsLawfulLine study.now.model study.now.buses line.now }
    requires next { next ≤ MAX_NODES }
    ensures inner { IfOk result (λ parts. parts.inner ≡ line.now.sections - 1) }
    ensures branches { IfOk result (λ parts. map exact_branch parts.branches ≡ (line_of study.now line.now owner next values.r values.x values.b).branches) }
{
    let series = section_series(study, line, values.r, values.x);
    let end = end_laws(alloc, study, line, values.b)?;
    let branches = cascade(alloc, line, series, end.as_slice(), next, owner)?;
    Ok(Parts {
        inner: line.sections - 1,
        branches,
    })
}

/// The inner nodes and branches of a line in a network, none where it is open.
#[tactic(auto, unfolding(crate::specs::Lines::line_expansion))]
fn line_parts(
    alloc: Global,
    study: &Study,
    line: &Line,
    owner: u32,
    sequence: Sequence,
    next: u32,
) -> Result<Parts, AllocError>
    requires study { IsLawful study.now }
    requires line { IsLawfulLine study.now.model study.now.buses line.now }
    requires next { next ≤ MAX_NODES }
    ensures { IfOk result (λ parts. exact_parts parts ≡ line_expansion study.now line.now owner sequence next) }
{
    let values = match (sequence, line.r0, line.x0) {
        (Sequence::Positive, _, _) => Values {
            r: line.r,
            x: line.x,
            b: line.b,
        },
        (Sequence::Zero, Some(r), Some(x)) => Values { r, x, b: line.b0 },
        (Sequence::Zero, _, _) => return Ok(open_circuit(alloc)),
    };
    line_of(alloc, study, line, owner, next, values)
}

/// Adds a line as a cascade of nominal pi sections: for each section its impedance between its ends, then at its near end and at its far
/// end half of its susceptance to ground, where there is any; its inner nodes come in order. In the zero network the same with its
/// zero-sequence values where they are given, else nothing. `TooMany` exactly where the network would have more than `MAX_NODES` nodes or
/// more than `MAX_BRANCHES` branches. A refusal leaves the network as it was. (Arrillaga and Watson, Power System Harmonics.)
pub fn add_line(
    alloc: Global,
    network: &mut Network,
    study: &Study,
    line: &Line,
    owner: u32,
    sequence: Sequence,
) -> Result<(), AddFault>
    requires study { IsLawful study.now }
    requires line { IsLawfulLine study.now.model study.now.buses line.now }
    requires buses { network.old.buses ≡ length study.now.buses }
    requires whole { IsWholeNetwork network.old }
    ensures { Adds network.old network.new result (line_expansion study.now line.now owner sequence network.old.nodes) }
{
    let parts = line_parts(alloc, study, line, owner, sequence, network.nodes);
    add_plain(alloc, network, parts)
}
