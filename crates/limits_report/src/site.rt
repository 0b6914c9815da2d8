// The nodes of which a report on distortion has rows, with what is said of each.
ghost use Rattle.std.specs.Prelude.{◌≡◌, ◌+◌, ◌<◌, ◌≤◌, ◌++◌, [], length, IfOk, OnOk};
ghost use Rattle.std.specs.List.{AllByRecursion, flat_map};
ghost use Rattle.study_model.specs.Lawful.{IsLawful};
ghost use Rattle.study_model.specs.declared.limits.TheConstants.{MAX_BUSES};
ghost use Rattle.limits_report.specs.Sites.{number_of, site_of, sites_at, bus_sites, point_sites, sites_of};

use crate::keep::keep;
use harmonic_injection::node_of;
use scan_report::PhaseWord;
use sqlite_items::Items;
use std::alloc::{AllocError, Global};
use study_model::{Bus, Pcc, Study, StudyModel};

/// What a report says at a node.
#[derive(Clone, Copy)]
pub enum Subject {
    /// The voltage of a bus, by the bus's number from 0.
    Voltage(u32, Bus),
    /// The current of a point of common coupling.
    Current(Pcc),
}

/// A node of which a report has rows: what it says there, the word of the node's phase, and the node's number from 0.
#[derive(Clone, Copy)]
pub struct Site {
    pub subject: Subject,
    pub phase: PhaseWord,
    pub node: u32,
}

/// The number of a phase by its word; that of a sequence network is 0.
fn number_of(word: PhaseWord) -> u32
    ensures value { result ≡ number_of word }
    ensures small { result ≤ 2 }
{
    match word {
        PhaseWord::S | PhaseWord::A => 0,
        PhaseWord::B => 1,
        PhaseWord::C => 2,
    }
}

/// What is said at the node of a bus and a phase.
fn site_of(model: StudyModel, bus: u32, subject: &Subject, phase: PhaseWord) -> Site
    requires { bus < MAX_BUSES }
    ensures { result ≡ site_of model bus subject.now phase }
{
    Site {
        subject: *subject,
        phase,
        node: node_of(model, bus, number_of(phase)).number,
    }
}

/// Puts what is said at each node of a bus.
fn push_sites(
    model: StudyModel,
    bus: u32,
    subject: &Subject,
    sites: &mut Items<Site>,
) -> Result<(), AllocError>
    requires { bus < MAX_BUSES }
    ensures { OnOk result (sites.new ≡ sites.old ++ sites_at model bus subject.now) }
{
    match model {
        StudyModel::Sequence => { keep::<Site>(sites, site_of(model, bus, subject, PhaseWord::S)) }
        StudyModel::Phases => {
            keep::<Site>(sites, site_of(model, bus, subject, PhaseWord::A))?;
            keep::<Site>(sites, site_of(model, bus, subject, PhaseWord::B))?;
            keep::<Site>(sites, site_of(model, bus, subject, PhaseWord::C))
        }
    }
}

/// Puts the voltages of buses that are numbered from here.
fn push_bus_sites(
    model: StudyModel,
    number: u32,
    buses: &[Bus],
    sites: &mut Items<Site>,
) -> Result<(), AllocError>
    requires { number + length buses.now ≤ MAX_BUSES }
    ensures { OnOk result (sites.new ≡ sites.old ++ bus_sites model number buses.now) }
{
    match buses {
        [] => Ok(()),
        [bus, rest @ ..] => {
            push_sites(model, number, &Subject::Voltage(number, *bus), sites)?;
            push_bus_sites(model, number + 1, rest, sites)
        }
    }
}

/// The voltages of the buses of a study.
#[tactic(auto, using(crate::proofs::Places::few_buses))]
pub(crate) fn bus_sites(alloc: Global, study: &Study) -> Result<Items<Site>, AllocError>
    requires { IsLawful study.now }
    ensures { IfOk result (λ sites. sites ≡ bus_sites study.now.model 0 study.now.buses) }
{
    let mut sites = Items::new(alloc);
    push_bus_sites(study.model, 0, study.buses.as_slice(), &mut sites)?;
    Ok(sites)
}

/// Puts the currents of a point of common coupling.
fn push_point_sites(
    model: StudyModel,
    point: &Pcc,
    sites: &mut Items<Site>,
) -> Result<(), AllocError>
    requires { point.now.bus < MAX_BUSES }
    ensures { OnOk result (sites.new ≡ sites.old ++ point_sites model point.now) }
{
    push_sites(model, point.bus, &Subject::Current(*point), sites)
}

/// The currents of a point of common coupling.
pub(crate) fn point_sites(
    alloc: Global,
    model: StudyModel,
    point: &Pcc,
) -> Result<Items<Site>, AllocError>
    requires { point.now.bus < MAX_BUSES }
    ensures { IfOk result (λ sites. sites ≡ point_sites model point.now) }
{
    let mut sites = Items::new(alloc);
    push_point_sites(model, point, &mut sites)?;
    Ok(sites)
}

/// Puts the currents of points of common coupling.
fn push_all_points(
    model: StudyModel,
    points: &[Pcc],
    sites: &mut Items<Site>,
) -> Result<(), AllocError>
    requires { AllByRecursion (λ point. point.bus < MAX_BUSES) points.now }
    ensures { OnOk result (sites.new ≡ sites.old ++ flat_map (point_sites model) points.now) }
{
    match points {
        [] => Ok(()),
        [point, rest @ ..] => {
            push_point_sites(model, point, sites)?;
            push_all_points(model, rest, sites)
        }
    }
}

/// All sites of a study: the voltages of its buses, then the currents of its points of common coupling.
#[tactic(auto, unfolding(crate::specs::Sites::sites_of), using(crate::proofs::Places::points_within))]
pub(crate) fn sites_of(alloc: Global, study: &Study) -> Result<Items<Site>, AllocError>
    requires { IsLawful study.now }
    ensures { IfOk result (λ sites. sites ≡ sites_of study.now) }
{
    let mut sites = bus_sites(alloc, study)?;
    push_all_points(study.model, study.points.as_slice(), &mut sites)?;
    Ok(sites)
}
