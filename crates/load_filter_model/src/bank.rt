// Capacitor banks. A bank is a susceptance and no reactance over the order, so it has an admittance at every order.
ghost use Rattle.std.specs.Prelude.{◌≡◌, ◌<◌, ◌≤◌, ◌*◌, ◌≤ℤ◌, pos, length, IfOk};
ghost use Rattle.study_model.specs.Lawful.{IsLawful, IsLawfulBank};
ghost use Rattle.net_branch.specs.Whole.{IsWholeNetwork};
ghost use Rattle.element_parts.specs.Adds.{Adds};
ghost use Rattle.element_parts.specs.Parts.{exact_parts};
ghost use Rattle.load_filter_model.specs.Banks.{bank_port, bank_expansion, bank_phases};
ghost use Rattle.load_filter_model.specs.ExactPorts.{exact_port};
ghost use Rattle.study_model.specs.declared.limits.TheConstants.{MAX_BUSES};
ghost use Rattle.net_branch.specs.declared.limits.TheConstants.{MAX_NODES};

use crate::port::{Port, at_node, at_phases, single};
use crate::presence::is_present;
use element_parts::{Parts, add_plain, open_circuit, power_in, susceptance_of_rating};
use net_branch::{AddFault, Law, Network};
use std::alloc::{AllocError, Global};
use study_model::{Bank, Phase, Sequence, Study};

/// A bank at a node; with a phase of three times its rating.
fn bank_port(
    alloc: Global,
    study: &Study,
    bank: &Bank,
    phase: Option<Phase>,
) -> Result<Port, AllocError>
    requires { pos 1 ≤ℤ study.now.mva }
    ensures { IfOk result (λ port. exact_port port ≡ bank_port study.now bank.now phase) }
{
    let b = susceptance_of_rating(power_in(phase, bank.q), study.mva);
    single(alloc, Law::Shunt { b })
}

/// What a bank adds to a network, nothing where it is open.
#[tactic(auto, unfolding(crate::specs::Banks::bank_expansion))]
fn bank_parts(
    alloc: Global,
    study: &Study,
    bank: &Bank,
    owner: u32,
    sequence: Sequence,
) -> Result<Parts, AllocError>
    requires { pos 1 ≤ℤ study.now.mva }
    ensures { IfOk result (λ parts. exact_parts parts ≡ bank_expansion study.now bank.now owner sequence) }
{
    if is_present(sequence, bank.grounded, bank.phase) {
        let port = bank_port(alloc, study, bank, None)?;
        at_node(alloc, &port, bank.bus, 0, owner)
    } else {
        Ok(open_circuit(alloc))
    }
}

/// Adds a capacitor bank: its susceptance from its bus to ground; in the zero network the same where it is grounded or has a phase, else
/// nothing. `TooMany` exactly where the network would have more than `MAX_NODES` nodes or more than `MAX_BRANCHES` branches. A refusal
/// leaves the network as it was. (Arrillaga and Watson, Power System Harmonics.)
pub fn add_bank(
    alloc: Global,
    network: &mut Network,
    study: &Study,
    bank: &Bank,
    owner: u32,
    sequence: Sequence,
) -> Result<(), AddFault>
    requires study { IsLawful study.now }
    requires bank { IsLawfulBank study.now.model study.now.buses bank.now }
    requires buses { network.old.buses ≡ length study.now.buses }
    requires whole { IsWholeNetwork network.old }
    ensures { Adds network.old network.new result (bank_expansion study.now bank.now owner sequence) }
{
    let parts = bank_parts(alloc, study, bank, owner, sequence);
    add_plain(alloc, network, parts)
}

/// What a bank adds to the network of three phases. `next` is the number of its inner node.
#[tactic(auto, unfolding(crate::specs::Banks::bank_phases))]
fn phase_parts(
    alloc: Global,
    study: &Study,
    bank: &Bank,
    owner: u32,
    next: u32,
) -> Result<Parts, AllocError>
    requires mva { pos 1 ≤ℤ study.now.mva }
    requires bus { bank.now.bus < MAX_BUSES }
    requires next { next ≤ MAX_NODES }
    ensures { IfOk result (λ parts. exact_parts parts ≡ bank_phases study.now bank.now owner next) }
{
    let port = bank_port(alloc, study, bank, bank.phase)?;
    at_phases(
        alloc,
        &port,
        bank.grounded,
        bank.phase,
        bank.bus,
        next,
        owner,
    )
}

/// Adds a capacitor bank to the network of three phases: its susceptance in each phase, to ground where it is grounded, else to one neutral,
/// an inner node; with a phase that of three times its rating in that phase alone, to ground. `TooMany` exactly where the network would have
/// more than `MAX_NODES` nodes or more than `MAX_BRANCHES` branches. A refusal leaves the network as it was. (Arrillaga and Watson, Power
/// System Harmonics.)
pub fn add_bank_phases(
    alloc: Global,
    network: &mut Network,
    study: &Study,
    bank: &Bank,
    owner: u32,
) -> Result<(), AddFault>
    requires study { IsLawful study.now }
    requires bank { IsLawfulBank study.now.model study.now.buses bank.now }
    requires buses { network.old.buses ≡ 3 * length study.now.buses }
    requires whole { IsWholeNetwork network.old }
    ensures { Adds network.old network.new result (bank_phases study.now bank.now owner network.old.nodes) }
{
    let parts = phase_parts(alloc, study, bank, owner, network.nodes);
    add_plain(alloc, network, parts)
}
