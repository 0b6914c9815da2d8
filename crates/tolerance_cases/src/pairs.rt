// Networks that are a pair, or aren't.
ghost use Rattle.std.specs.Prelude.{IfOk};
ghost use Rattle.network_theory.specs.Live.{Live};
ghost use Rattle.net_branch.specs.Exact.{exact_network};
ghost use Rattle.net_branch.specs.Whole.{IsWholeNetwork};
ghost use Rattle.band_subdivision.specs.ScanSpec.{IsScanSpec};
ghost use Rattle.study_model.specs.Lawful.{IsLawful, IsLawfulScan};

use crate::fixtures::{TENTH, TWO_BUSES, TWO_OHMS, WITH_A_BANK, positive};
use band_subdivision::ScanSpec;
use complex_interval::Span;
use net_branch::{Network, NodeId, live};
use scan_report::{BoxRow, Kind};
use std::alloc::Global;
use std::process::Abort;
use std::test::Fail;
use study_model::{ScanItem, Study};
use study_reader::read_study;
use study_scans::spec_of;
use tolerance_scan::{ToleranceFault, ToleranceScan};

/// The node of the first bus, which must be live.
fn first_bus(alloc: Global, network: &Network) -> Result<NodeId, Fail>
    requires { IsWholeNetwork network.now }
    ensures { IfOk result (λ node. Live (exact_network network.now) node.number) }
{
    let marks = live(alloc, network)?;
    if 0 < network.nodes && marks[0] {
        Ok(NodeId { number: 0 })
    } else {
        Err("dead".into())
    }
}

/// What a scan of a study is asked, in the ranges of a study.
fn spec_in(study: &Study, scan: &ScanItem) -> ScanSpec
    requires study { IsLawful study.now }
    requires scan { IsLawfulScan study.now.version study.now.model study.now.buses scan.now }
    ensures { IsScanSpec result }
{
    spec_of(study, scan)
}

/// The scan between the networks of two studies, by the first scan of a third, or the fault. Its boxes are the first one alone.
fn scan_between(
    alloc: Global,
    low: &Network,
    high: &Network,
    asked: &Study,
) -> Result<Result<Option<BoxRow>, ToleranceFault>, Fail>
    requires low { IsWholeNetwork low.now }
    requires high { IsWholeNetwork high.now }
    requires asked { IsLawful asked.now }
{
    let node = first_bus(alloc, low)?;
    let scans = asked.scans.as_slice();
    if scans.is_empty() {
        return Err("no scan".into());
    }
    let spec = spec_in(asked, &scans[0]);
    match ToleranceScan::<Span<40>>::new(alloc, low, high, node, spec) {
        Ok(scan) => {
            let mut scan = scan;
            let first = scan.next_box();
            match scan.next_box() {
                None => Ok(Ok(first)),
                Some(_) => Ok(Ok(None)),
            }
        }
        Err(fault) => Ok(Err(fault)),
    }
}

fn network_in(alloc: Global, text: &str) -> Result<Network, Fail>
    ensures { IfOk result IsWholeNetwork }
{
    let study = read_study(alloc, text.as_bytes())?;
    positive(alloc, &study)
}

#[test]
fn the_first_branch_that_differs(rt: HostRuntime) -> Result<(), Fail> {
    let alloc = rt.alloc();
    let asked = read_study(alloc, TWO_OHMS.as_bytes())?;
    let cleared = BoxRow {
        lo: 1_000_000,
        hi: 10_000_000,
        kind: Kind::Cleared,
    };
    for (low, high, answer, label) in [
        (TENTH, TWO_OHMS, Ok(Some(cleared)), "1 to 2 ohms"),
        (TENTH, TENTH, Ok(Some(cleared)), "the same"),
        (
            TWO_OHMS,
            TENTH,
            Err(ToleranceFault::NotAPair(0)),
            "2 to 1 ohms",
        ),
        (
            TENTH,
            WITH_A_BANK,
            Err(ToleranceFault::NotAPair(1)),
            "a bank more",
        ),
        (
            WITH_A_BANK,
            TWO_OHMS,
            Err(ToleranceFault::NotAPair(1)),
            "a bank less",
        ),
        (
            TENTH,
            TWO_BUSES,
            Err(ToleranceFault::NotAPair(0)),
            "a bus more",
        ),
    ] {
        let low = network_in(alloc, low)?;
        let high = network_in(alloc, high)?;
        let found = scan_between(alloc, &low, &high, &asked)?;
        let same = found == answer;
        assert!(rt; same, "{label}");
    }
    Ok(())
}
