// Lines in the network of three phases.
ghost use Rattle.std.specs.Prelude.{◌≡◌, ◌+◌, ◌*◌, ◌-◌, ◌≤◌, ◌<◌, ◌^◌, ◌≤ℤ◌, pos, length, map, option_map, IfOk};
ghost use Rattle.std.specs.List.{AllByRecursion};
ghost use Rattle.study_model.specs.Lawful.{IsLawful, IsLawfulLine};
ghost use Rattle.study_model.specs.Voltages.{kv_of};
ghost use Rattle.net_branch.specs.Exact.{exact_law, exact_branch};
ghost use Rattle.net_branch.specs.Whole.{IsWholeNetwork};
ghost use Rattle.net_branch.specs.declared.limits.TheConstants.{MAX_NODES};
ghost use Rattle.element_parts.specs.Adds.{Adds};
ghost use Rattle.element_parts.specs.Couplings.{exact_coupling};
ghost use Rattle.element_parts.specs.Parts.{exact_parts};
ghost use Rattle.line_pi.specs.PhaseLines.{with_mutual, line_coupling, phase_shunt, pair_shunt, phase_line, line_phases};

use crate::phase_section::{PhaseLaws, phase_cascade};
use element_parts::{
    Coupling, Ohms, Parts, add_grouped, coupling_share, difference_share, impedance_share, kv,
    open_circuit, susceptance_share,
};
use fixed_decimal::Decimal;
use net_branch::{AddFault, Law, Network};
use std::alloc::{AllocError, Global};
use study_model::{Line, Study};

/// The values of coupled phases with the mutual reactances of a line, where it has some.
#[tactic(auto, using(element_parts::proofs::Values::kv_positive))]
fn with_mutual(study: &Study, line: &Line, values: Coupling) -> Coupling
    requires study { IsLawful study.now }
    requires line { IsLawfulLine study.now.model study.now.buses line.now }
    ensures { exact_coupling result ≡ with_mutual study.now line.now line.now.xab line.now.xbc line.now.xca (exact_coupling values) }
{
    let kv = kv(study, line.from);
    match (line.xab, line.xbc, line.xca) {
        (Some(xab), Some(xbc), Some(xca)) => Coupling {
            x_ab: impedance_share(xab, study.mva, kv, line.sections),
            x_bc: impedance_share(xbc, study.mva, kv, line.sections),
            x_ca: impedance_share(xca, study.mva, kv, line.sections),
            ..values
        },
        _ => values,
    }
}

/// The coupled phases of one of a line's sections.
#[tactic(auto, using(element_parts::proofs::Values::kv_positive))]
fn line_coupling(study: &Study, line: &Line, r0: Decimal, x0: Decimal) -> Coupling
    requires study { IsLawful study.now }
    requires line { IsLawfulLine study.now.model study.now.buses line.now }
    ensures { exact_coupling result ≡ line_coupling study.now line.now r0 x0 }
{
    let ohms = Ohms {
        r: line.r,
        x: line.x,
        r0,
        x0,
    };
    let kv = kv(study, line.from);
    let values = coupling_share(ohms, line.skin_k, line.skin_m, study.mva, kv, line.sections);
    with_mutual(study, line, values)
}

/// The law from each phase to ground at an end of one of a line's sections of `b0` microsiemens in the zero sequence, where there are any.
fn phase_shunt(study: &Study, line: &Line, b0: Decimal) -> Option<Law>
    requires study { IsLawful study.now }
    requires line { IsLawfulLine study.now.model study.now.buses line.now }
    ensures { option_map exact_law result ≡ phase_shunt study.now line.now b0 }
{
    if b0.millionths <= 0 {
        return None;
    }
    let kv = kv(study, line.from);
    let b = susceptance_share(b0, study.mva, kv, 2 * line.sections);
    Some(Law::Shunt { b })
}

/// The law between each two phases at an end of one of a line's sections of `b0` and `b` microsiemens in the two sequences, where these differ.
fn pair_shunt(study: &Study, line: &Line, b0: Decimal, b: Decimal) -> Option<Law>
    requires study { IsLawful study.now }
    requires line { IsLawfulLine study.now.model study.now.buses line.now }
    ensures { option_map exact_law result ≡ pair_shunt study.now line.now b0 b }
{
    if b.millionths <= b0.millionths {
        return None;
    }
    let kv = kv(study, line.from);
    let b = difference_share(b, b0, study.mva, kv, 6 * line.sections);
    Some(Law::Shunt { b })
}

/// The inner nodes and branches of a line of `r0` and `x0` ohms in the zero sequence.
fn phase_line(
    alloc: Global,
    study: &Study,
    line: &Line,
    owner: u32,
    group: u32,
    next: u32,
    r0: Decimal,
    x0: Decimal,
) -> Result<Parts, AllocError>
    requires study { IsLawful study.now }
    requires line { IsLawfulLine study.now.model study.now.buses line.now }
    requires next { next ≤ MAX_NODES }
    requires group { group < 2 ^ 31 }
    ensures inner { IfOk result (λ parts. parts.inner ≡ 3 * (line.now.sections - 1)) }
    ensures branches { IfOk result (λ parts. map exact_branch parts.branches ≡ (phase_line study.now line.now owner group next r0 x0).branches) }
{
    let laws = PhaseLaws {
        values: line_coupling(study, line, r0, x0),
        shunt: phase_shunt(study, line, line.b0),
        pair: pair_shunt(study, line, line.b0, line.b),
    };
    let branches = phase_cascade(alloc, line, laws, next, group, owner)?;
    Ok(Parts {
        inner: 3 * (line.sections - 1),
        branches,
    })
}

/// The inner nodes and branches of a line in the network of three phases.
#[tactic(auto, unfolding(crate::specs::PhaseLines::line_phases))]
fn phase_parts(
    alloc: Global,
    study: &Study,
    line: &Line,
    owner: u32,
    group: u32,
    next: u32,
) -> Result<Parts, AllocError>
    requires study { IsLawful study.now }
    requires line { IsLawfulLine study.now.model study.now.buses line.now }
    requires next { next ≤ MAX_NODES }
    requires group { group < 2 ^ 31 }
    ensures { IfOk result (λ parts. exact_parts parts ≡ line_phases study.now line.now owner group next) }
{
    match (line.r0, line.x0) {
        (Some(r0), Some(x0)) => phase_line(alloc, study, line, owner, group, next, r0, x0),
        _ => Ok(open_circuit(alloc)),
    }
}

/// Adds a line to the network of three phases, as a cascade of nominal pi sections: for each section a group of three coupled phases between its
/// ends, of the self impedance (z0 + 2·z)/3 and the mutual one (z0 - z)/3 or the line's own mutual reactances; then at its near end and at its
/// far end half of its zero-sequence susceptance from each phase to ground, and between each two phases a sixth of what its susceptance is
/// above that, where there is any. Its inner nodes come in threes, and its groups are numbered from `group` on. `TooMany` exactly where the
/// network would have more than `MAX_NODES` nodes or more than `MAX_BRANCHES` branches. A refusal leaves the network as it was. (Arrillaga and
/// Watson, Power System Harmonics.)
pub fn add_line_phases(
    alloc: Global,
    network: &mut Network,
    study: &Study,
    line: &Line,
    owner: u32,
    group: u32,
) -> Result<(), AddFault>
    requires study { IsLawful study.now }
    requires line { IsLawfulLine study.now.model study.now.buses line.now }
    requires buses { network.old.buses ≡ 3 * length study.now.buses }
    requires whole { IsWholeNetwork network.old }
    requires number { 1 ≤ group }
    requires few { group < 2 ^ 31 }
    requires below { AllByRecursion (λ b. b.group < group) network.old.branches }
    ensures { Adds network.old network.new result (line_phases study.now line.now owner group network.old.nodes) }
{
    let parts = phase_parts(alloc, study, line, owner, group, network.nodes);
    add_grouped(alloc, network, parts)
}
