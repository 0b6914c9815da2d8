// The injections of an order.
ghost use Rattle.std.specs.Prelude.{◌≡◌, ◌≤◌, ◌<◌, ◌≤ℤ◌, ◌++◌, ◌∷◌, [], pos, length, map, IfOk, OnOk};
ghost use Rattle.exact_fraction.specs.Fraction.{ratio_of};
ghost use Rattle.study_model.specs.Lawful.{IsLawful, IsBus};
ghost use Rattle.spectrum_reader.specs.Lawful.{IsPhaseOf};
ghost use Rattle.node_injection.specs.Injected.{exact_injection};
ghost use Rattle.harmonic_injection.specs.Injections.{AreInStudy, current_per_unit, injection_of, injections_of, node_of};
ghost use Rattle.study_model.specs.declared.limits.TheConstants.{MAX_BUSES};

use element_parts::{kv, phase_node, product, scaled, small};
use exact_fraction::Fraction;
use fixed_decimal::Decimal;
use net_branch::NodeId;
use node_injection::NodeInjection;
use spectrum_reader::{Injection, Spectrum};
use sqlite_items::Items;
use std::alloc::{AllocError, Global};
use study_model::{Study, StudyModel};

/// The node of a bus in the sequence model, and of a phase of a bus in the phases model: the bus's number, or three times that and the phase's
/// number. (This project's own.)
#[tactic(auto, unfolding(crate::specs::Injections::node_of))]
pub fn node_of(model: StudyModel, bus: u32, phase: u32) -> NodeId
    requires bus { bus < MAX_BUSES }
    requires phase { phase ≤ 2 }
    ensures { result.number ≡ node_of model bus phase }
{
    match model {
        StudyModel::Sequence => NodeId { number: bus },
        StudyModel::Phases => NodeId {
            number: phase_node(bus, phase),
        },
    }
}

/// A current of `i` amperes at a bus of `kv`, in per unit: i·v/(s·10^9), with the base of s MVA, and all in millionths.
#[tactic(auto, unfolding(crate::specs::Injections::current_per_unit))]
fn current(i: Decimal, kv: Decimal, mva: Decimal) -> Fraction
    requires { pos 1 ≤ℤ mva }
    ensures { ratio_of result ≡ current_per_unit i kv mva }
{
    small(product(i, kv), scaled(mva, 1_000_000_000))
}

/// The injection of a row.
#[tactic(auto, unfolding(crate::specs::Injections::injection_of), using(element_parts::proofs::Values::base_above))]
fn injection(study: &Study, row: &Injection) -> NodeInjection
    requires study { IsLawful study.now }
    requires bus { IsBus study.now.buses row.now.bus }
    requires phase { IsPhaseOf study.now.model row.now.phase }
    ensures { exact_injection result ≡ injection_of study.now row.now }
{
    let kv = kv(study, row.bus);
    NodeInjection {
        node: node_of(study.model, row.bus, row.phase),
        re: current(row.re, kv, study.mva),
        im: current(row.im, kv, study.mva),
    }
}

/// The injections of an order at the nodes of a study's networks, in per unit and in the order of the rows. A node is the bus's number in the
/// sequence model, and three times that and the phase's number in the phases model.
#[tactic(auto, unfolding(crate::specs::Injections::injections_of))]
pub fn inject(
    alloc: Global,
    study: &Study,
    spectrum: &Spectrum,
    order: u32,
) -> Result<Items<NodeInjection>, AllocError>
    requires study { IsLawful study.now }
    requires spectrum { AreInStudy study.now spectrum.now.rows }
    ensures { IfOk result (λ injections. map exact_injection injections ≡ injections_of study.now spectrum.now.rows order) }
{
    let mut injections = Items::new(alloc);
    for row in spectrum.rows.as_slice() {
        if row.order == order {
            injections.push(injection(study, row))?;
        }
    }
    Ok(injections)
}
