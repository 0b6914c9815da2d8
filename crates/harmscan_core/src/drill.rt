// The drill: a study that is made from a number, and of the boxes of its scan only how many there are, and of which kinds.
ghost use Rattle.std.specs.Prelude.{◌≡◌, ◌<◌, length, IfOk};
ghost use Rattle.std.specs.List.{AllByRecursion};
ghost use Rattle.band_subdivision.specs.BoxText.{HasText};
ghost use Rattle.harm_io.specs.Sinks.{Writes};
ghost use Rattle.drill_study.specs.Drill.{drill_of};
ghost use Rattle.study_scans.specs.Fold.{most_boxes, counted_status};
ghost use Rattle.harmscan_core.specs.Outcome.{Reports};
ghost use Rattle.study_networks.specs.Networks.{AreNetworksOf};
ghost use Rattle.harmscan_core.specs.Subject.{drilled};
ghost use Rattle.harmscan_core.specs.Texts.{drill_head_text, counts_text, counted_text};

use crate::outcome::{Outcome, after_put};
use crate::report::{put_end, put_line, put_summary};
use band_subdivision::Scan;
use complex_interval::{Enclosure, Span};
use drill_study::drill_scan;
use harm_io::{PutFault, Sink};
use scan_report::{LineBuf, Row, drill_row};
use std::alloc::Global;
use study_model::{ScanItem, Study};
use study_networks::{StudyNetworks, scanned_network};
use study_scans::{Found, tally_of, walk_of};

/// Puts the first row of a drill, whose network has so many nodes.
#[tactic(auto, unfolding(crate::specs::Texts::drill_head_text))]
fn put_drill_head<O: Sink>(
    number: u32,
    nodes: u32,
    line: &mut LineBuf,
    out: &mut O,
) -> Result<(), PutFault>
    ensures { Writes (drill_head_text number nodes) (O.state out.old) (O.state out.new) result }
{
    drill_row(&Row::Drill { number, nodes }, line);
    put_line(out, line)
}

/// Puts the last row of a scan by its walk, without the rows of its boxes, and the last row of a report, and answers its status.
#[tactic(auto, unfolding(crate::specs::Texts::counts_text, study_scans::specs::Fold::counted_status), using(harm_io::proofs::Writing::second_piece))]
fn put_counts<E: Enclosure, O: Sink>(
    scan: &ScanItem,
    walk: &mut Scan<E>,
    line: &mut LineBuf,
    out: &mut O,
) -> Result<u8, PutFault>
    requires text { AllByRecursion HasText walk.old.left }
    requires few { length walk.old.left < most_boxes }
    ensures wrote { Writes (counts_text scan.now walk.old.left) (O.state out.old) (O.state out.new) result }
    ensures status { IfOk result (λ s. s ≡ counted_status walk.old.left) }
{
    let tally = tally_of(walk);
    match put_summary(scan, tally, line, out) {
        Ok(counts) => put_end(Found::NOTHING.and(counts).status(), line, out),
        Err(fault) => Err(fault),
    }
}

/// Puts the rows of a drill, whose network has so many nodes, by the walk of its scan, and answers the status.
#[tactic(auto, unfolding(crate::specs::Texts::counted_text), using(harm_io::proofs::Writing::second_piece))]
fn put_drill<E: Enclosure, O: Sink>(
    number: u32,
    nodes: u32,
    scan: &ScanItem,
    walk: &mut Scan<E>,
    out: &mut O,
) -> Result<u8, PutFault>
    requires text { AllByRecursion HasText walk.old.left }
    requires few { length walk.old.left < most_boxes }
    ensures wrote { Writes (counted_text number nodes scan.now walk.old.left) (O.state out.old) (O.state out.new) result }
    ensures status { IfOk result (λ s. s ≡ counted_status walk.old.left) }
{
    let mut line = LineBuf::new();
    match put_drill_head(number, nodes, &mut line, out) {
        Ok(()) => put_counts(scan, walk, &mut line, out),
        Err(fault) => Err(fault),
    }
}

/// The report of a drill by the networks of its study. All memory that its walk takes is taken before its first line is put.
pub fn report_drill<O: Sink>(
    alloc: Global,
    number: u32,
    study: &Study,
    networks: &StudyNetworks,
    out: &mut O,
) -> Outcome
    requires study { study.now ≡ drill_of number }
    requires networks { AreNetworksOf study.now networks.now }
    ensures { Reports (drilled number) (O.state out.old) (O.state out.new) result }
{
    let scan = drill_scan();
    let nodes = scanned_network(study, networks, &scan).nodes;
    match walk_of::<Span<40>>(alloc, study, networks, &scan) {
        Err(_) => Outcome::NoMemory,
        Ok(mut walk) => match put_drill(number, nodes, &scan, &mut walk, out) {
            Ok(status) => Outcome::Written(status),
            Err(fault) => after_put(fault),
        },
    }
}
