// What is found for each outage of a study.
ghost use Rattle.std.specs.Prelude.{◌≡◌, ◌++◌, map, IfOk, OnOk};
ghost use Rattle.std.specs.List.{AllByRecursion};
ghost use Rattle.sequence_network.specs.Built.{IsNetworkOf};
ghost use Rattle.study_model.specs.Lawful.{IsLawful, IsLawfulScan, IsLawfulOutage};
ghost use Rattle.study_model.specs.declared.words.Sequence.TheVariants.{Positive, Zero};
ghost use Rattle.study_networks.specs.Networks.{AreNetworksOf};
ghost use Rattle.outages_report.specs.Cases.{case_of, cases_where};
ghost use Rattle.outages_report.specs.Table.{found_of, table_of};

use crate::case::{Case, case_of};
use crate::floating::floats;
use crate::keep::keep;
use crate::names::name_of_element;
use complex_interval::Enclosure;
use sequence_network::Networks;
use sqlite_items::Items;
use std::alloc::{AllocError, Global};
use study_model::{Name, Outage, ScanItem, Study};
use study_networks::StudyNetworks;

/// What is found for an outage: the name of its element, whether it floats, and a case for each scan, of none where it floats.
#[derive(Drop)]
pub struct OutageCases {
    pub name: Name,
    pub floating: bool,
    pub cases: Items<Case>,
}

/// Puts the cases of scans without an element.
fn push_cases<E: Enclosure>(
    alloc: Global,
    study: &Study,
    networks: &StudyNetworks,
    element: u32,
    scans: &[ScanItem],
    cases: &mut Items<Case>,
) -> Result<(), AllocError>
    requires study { IsLawful study.now }
    requires networks { AreNetworksOf study.now networks.now }
    requires scans { AllByRecursion (IsLawfulScan study.now.version study.now.model study.now.buses) scans.now }
    requires scale { E.SCALE ≡ study.now.scale }
    ensures { OnOk result (cases.new ≡ cases.old ++ map (case_of study.now element) scans.now) }
{
    match scans {
        [] => Ok(()),
        [scan, rest @ ..] => {
            let case = case_of::<E>(alloc, study, networks, element, scan)?;
            keep::<Case>(cases, case)?;
            push_cases::<E>(alloc, study, networks, element, rest, cases)
        }
    }
}

/// The cases of an outage: none where it floats.
#[tactic(auto, using(crate::proofs::Lives::lawful_scans))]
fn cases_where<E: Enclosure>(
    alloc: Global,
    study: &Study,
    networks: &StudyNetworks,
    element: u32,
    floating: bool,
) -> Result<Items<Case>, AllocError>
    requires study { IsLawful study.now }
    requires networks { AreNetworksOf study.now networks.now }
    requires scale { E.SCALE ≡ study.now.scale }
    ensures { IfOk result (λ cases. cases ≡ cases_where floating study.now element study.now.scans) }
{
    let mut cases = Items::new(alloc);
    if !floating {
        let scans = study.scans.as_slice();
        push_cases::<E>(alloc, study, networks, element, scans, &mut cases)?;
    }
    Ok(cases)
}

/// What is found for an outage.
fn found_of<E: Enclosure>(
    alloc: Global,
    study: &Study,
    networks: &StudyNetworks,
    sequences: &Networks,
    outage: &Outage,
) -> Result<OutageCases, AllocError>
    requires study { IsLawful study.now }
    requires networks { AreNetworksOf study.now networks.now }
    requires positive { IsNetworkOf study.now Positive sequences.now.positive }
    requires zero { IsNetworkOf study.now Zero sequences.now.zero }
    requires outage { IsLawfulOutage study.now outage.now }
    requires scale { E.SCALE ≡ study.now.scale }
    ensures { IfOk result (λ found. found ≡ found_of study.now outage.now) }
{
    let element = outage.element;
    let floating = floats(alloc, study, sequences, element)?;
    let cases = cases_where::<E>(alloc, study, networks, element, floating)?;
    Ok(OutageCases {
        name: name_of_element(study, element),
        floating,
        cases,
    })
}

/// Puts what is found for outages.
fn push_found<E: Enclosure>(
    alloc: Global,
    study: &Study,
    networks: &StudyNetworks,
    sequences: &Networks,
    outages: &[Outage],
    table: &mut Items<OutageCases>,
) -> Result<(), AllocError>
    requires study { IsLawful study.now }
    requires networks { AreNetworksOf study.now networks.now }
    requires positive { IsNetworkOf study.now Positive sequences.now.positive }
    requires zero { IsNetworkOf study.now Zero sequences.now.zero }
    requires outages { AllByRecursion (IsLawfulOutage study.now) outages.now }
    requires scale { E.SCALE ≡ study.now.scale }
    ensures { OnOk result (table.new ≡ table.old ++ map (found_of study.now) outages.now) }
{
    match outages {
        [] => Ok(()),
        [outage, rest @ ..] => {
            table.push(found_of::<E>(alloc, study, networks, sequences, outage)?)?;
            push_found::<E>(alloc, study, networks, sequences, rest, table)
        }
    }
}

/// What is found for all outages of a study.
#[tactic(auto, unfolding(crate::specs::Table::table_of), using(crate::proofs::Claims::lawful_outages))]
pub(crate) fn table_of<E: Enclosure>(
    alloc: Global,
    study: &Study,
    networks: &StudyNetworks,
    sequences: &Networks,
) -> Result<Items<OutageCases>, AllocError>
    requires study { IsLawful study.now }
    requires networks { AreNetworksOf study.now networks.now }
    requires positive { IsNetworkOf study.now Positive sequences.now.positive }
    requires zero { IsNetworkOf study.now Zero sequences.now.zero }
    requires scale { E.SCALE ≡ study.now.scale }
    ensures { IfOk result (λ table. table ≡ table_of study.now) }
{
    let mut table = Items::new(alloc);
    let outages = study.outages.as_slice();
    push_found::<E>(alloc, study, networks, sequences, outages, &mut table)?;
    Ok(table)
}
