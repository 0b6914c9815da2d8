// Whether the currents of a spectrum have a path.
ghost use Rattle.std.specs.Prelude.{◌≡◌, ◌≢◌, ◌<◌, ◌^◌, length, All, IsTrue, IsFalse, IfErr, OnOk};
ghost use Rattle.study_model.specs.Lawful.{IsLawful, IsBus};
ghost use Rattle.study_model.specs.declared.words.Sequence.TheVariants.{Zero};
ghost use Rattle.net_branch.specs.LiveNodes.{AreLive};
ghost use Rattle.sequence_network.specs.Built.{IsNetworkOf};
ghost use Rattle.sequence_network.specs.Refusals.{HasLiveNetworks, AreLiveBuses};
ghost use Rattle.spectrum_reader.specs.declared.fault.SpectrumFault.TheVariants.{NoMemory};
ghost use Rattle.harmonic_injection.specs.Injections.{AreInStudy};
ghost use Rattle.harmonic_injection.specs.Paths.{HasPath, HavePaths, IsNoPath, IsPathless, sequence_of_order};
ghost use Rattle.study_networks.specs.Networks.{HasLive};

use net_branch::{Network, live};
use sequence_network::build_sequence;
use spectrum_reader::{Injection, Spectrum, SpectrumFault};
use std::alloc::Global;
use study_model::{Sequence, Study, StudyModel};

/// The sequence network that an order sees: the zero network where the order is a multiple of 3, else the positive one.
pub fn sequence_of_order(order: u32) -> Sequence
    ensures { result ≡ sequence_of_order order }
{
    if order % 3 == 0 {
        Sequence::Zero
    } else {
        Sequence::Positive
    }
}

/// Whether the bus of a row is live in the network that its order sees, by the live nodes of the zero network.
fn has_path(study: &Study, zero: &Network, live: &[bool], row: &Injection) -> bool
    requires buses { AreLiveBuses study.now }
    requires zero { IsNetworkOf study.now Zero zero.now }
    requires live { AreLive zero.now live.now }
    requires bus { IsBus study.now.buses row.now.bus }
    ensures live { IsTrue result → HasPath study.now row.now }
    ensures dead { IsFalse result → ¬ (HasPath study.now row.now) }
{
    match sequence_of_order(row.order) {
        Sequence::Positive => true,
        Sequence::Zero => live[row.bus as usize],
    }
}

/// The first row without a path is refused.
fn check_rows(
    study: &Study,
    zero: &Network,
    live: &[bool],
    rows: &[Injection],
) -> Result<(), SpectrumFault>
    requires buses { AreLiveBuses study.now }
    requires zero { IsNetworkOf study.now Zero zero.now }
    requires live { AreLive zero.now live.now }
    requires rows { All (λ row. IsBus study.now.buses row.bus) rows.now }
    requires few { length rows.now < 2 ^ 31 }
    ensures ok { OnOk result (All (HasPath study.now) rows.now) }
    ensures refused { IfErr result (IsNoPath study.now rows.now) }
{
    let mut number = 1;
    for row in rows {
        if !has_path(study, zero, live, row) {
            return Err(SpectrumFault::NoPath(number));
        }
        number += 1;
    }
    Ok(())
}

/// Whether the bus of each row of a spectrum is live in the sequence network that the row's order sees.
fn check_sequences(alloc: Global, study: &Study, spectrum: &Spectrum) -> Result<(), SpectrumFault>
    requires study { IsLawful study.now }
    requires accepted { HasLiveNetworks study.now }
    requires spectrum { AreInStudy study.now spectrum.now.rows }
    ensures ok { OnOk result (All (HasPath study.now) spectrum.now.rows) }
    ensures refused { IfErr result (λ fault. fault ≢ NoMemory → IsNoPath study.now spectrum.now.rows fault) }
{
    let Ok(zero) = build_sequence(alloc, study, Sequence::Zero) else {
        return Err(SpectrumFault::NoMemory);
    };
    let Ok(live) = live(alloc, &zero) else {
        return Err(SpectrumFault::NoMemory);
    };
    check_rows(study, &zero, &live, spectrum.rows.as_slice())
}

/// Whether each row of a spectrum has a path, where the study's model asks for it: in the sequence model the bus of the row is live in the network
/// that its order sees. Each bus of an accepted study is live in the positive network, so the first row without a path has an order that is a
/// multiple of 3: `NoPath` with its number, from 1. In the model of three phases no row is refused. (This project's own.)
#[tactic(auto, using(crate::proofs::Models::have_paths, crate::proofs::Models::in_phases))]
pub fn check_paths(alloc: Global, study: &Study, spectrum: &Spectrum) -> Result<(), SpectrumFault>
    requires study { IsLawful study.now }
    requires live { HasLive study.now }
    requires spectrum { AreInStudy study.now spectrum.now.rows }
    ensures ok { OnOk result (HavePaths study.now spectrum.now.rows) }
    ensures refused { IfErr result (λ fault. fault ≢ NoMemory → IsPathless study.now spectrum.now.rows fault) }
{
    match study.model {
        StudyModel::Sequence => check_sequences(alloc, study, spectrum),
        StudyModel::Phases => Ok(()),
    }
}
