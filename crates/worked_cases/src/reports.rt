// Reports, through the program.
use crate::answers::{Answer, SCAN, joined, shelf_with};
use crate::compare::{assert_answer, assert_long_report, assert_reports};
use crate::{branchwise, curves, networks, phases, studies};
use harm_io::SteadyShelf;
use std::test::Fail;

#[test]
fn reports(rt: HostRuntime) -> Result<(), Fail> {
    let cases = [
        (
            studies::BELOW_ITS_THRESHOLD,
            studies::BELOW_ITS_THRESHOLD_REPORT,
            0,
        ),
        (studies::VARIANTS, studies::BELOW_ITS_THRESHOLD_REPORT, 0),
        (studies::WIDE_PEAKS, studies::WIDE_PEAKS_REPORT, 3),
        (studies::ROUNDED_HERTZ, studies::ROUNDED_HERTZ_REPORT, 3),
        (
            studies::AT_ITS_THRESHOLD,
            studies::AT_ITS_THRESHOLD_REPORT,
            3,
        ),
        (studies::RESONANCE, studies::RESONANCE_REPORT, 3),
        (studies::SHARP_RESONANCE, studies::SHARP_RESONANCE_REPORT, 3),
        (studies::FINE_BAND, studies::FINE_BAND_REPORT, 0),
        (studies::LONG_NAME, studies::LONG_NAME_REPORT, 0),
        (studies::NO_INTERVAL, studies::NO_INTERVAL_REPORT, 4),
        (studies::SIXTY_HERTZ, studies::BELOW_ITS_THRESHOLD_REPORT, 0),
        (studies::NO_SCAN, studies::NO_SCAN_REPORT, 0),
        (studies::ALL_KEYS, studies::ALL_KEYS_REPORT, 0),
        (
            studies::CLEARED_AND_UNDECIDED,
            studies::CLEARED_AND_UNDECIDED_REPORT,
            4,
        ),
        (studies::PEAK_AND_OTHERS, studies::PEAK_AND_OTHERS_REPORT, 3),
        (studies::ZERO_NETWORK, studies::ZERO_NETWORK_REPORT, 0),
        (studies::FINER_SCALE, studies::BELOW_ITS_THRESHOLD_REPORT, 0),
        (studies::MANY_ELEMENTS, studies::MANY_ELEMENTS_REPORT, 3),
        (
            studies::GROUNDED_ELEMENTS,
            studies::GROUNDED_ELEMENTS_REPORT,
            3,
        ),
        (studies::TWO_BUSES, studies::TWO_BUSES_REPORT, 3),
    ];
    for (study, report, status) in cases {
        let mut shelf = SteadyShelf::new(rt.alloc());
        shelf.add_file("study.toml", study.as_bytes())?;
        let answer = Answer {
            status,
            out: report,
            err: "",
        };
        assert_answer(&rt, rt.alloc(), &SCAN, &mut shelf, &answer)?;
    }
    Ok(())
}

#[test]
fn reports_of_lines_transformers_and_filters(rt: HostRuntime) -> Result<(), Fail> {
    let cases = [
        (networks::FILTER, networks::FILTER_REPORT, 3),
        (networks::FAR_BANK, networks::FAR_BANK_REPORT, 4),
        (networks::FAR_BANK_BOTH, networks::FAR_BANK_BOTH_REPORT, 0),
        (networks::EVERY_ELEMENT, networks::EVERY_ELEMENT_REPORT, 3),
        (networks::FULL, studies::NO_SCAN_REPORT, 0),
        (studies::TWO_RESONANCES, studies::TWO_RESONANCES_REPORT, 3),
    ];
    assert_reports(&rt, rt.alloc(), &cases)
}

#[test]
fn reports_of_three_phases(rt: HostRuntime) -> Result<(), Fail> {
    let cases = [
        (phases::NOT_LIVE, phases::NOT_LIVE_REPORT, 4),
        (phases::SOURCE, phases::SOURCE_REPORT, 0),
    ];
    assert_reports(&rt, rt.alloc(), &cases)
}

#[test]
fn reports_of_curves(rt: HostRuntime) -> Result<(), Fail> {
    let cases = [
        (curves::LEVEL, curves::LEVEL_REPORT, 0),
        (curves::RISING, curves::RISING_REPORT, 0),
    ];
    assert_reports(&rt, rt.alloc(), &cases)
}

#[test]
fn an_industrial_plant(rt: HostRuntime) -> Result<(), Fail> {
    let header = networks::INDUSTRIAL_HEADER;
    let study = joined(rt.alloc(), &[header, networks::INDUSTRIAL])?;
    let ends = (networks::INDUSTRIAL_FRONT, networks::INDUSTRIAL_END);
    assert_long_report(&rt, rt.alloc(), &study, ends, 4)?;
    let header = networks::INDUSTRIAL_BOTH_HEADER;
    let study = joined(rt.alloc(), &[header, networks::INDUSTRIAL])?;
    let ends = (
        networks::INDUSTRIAL_BOTH_FRONT,
        networks::INDUSTRIAL_BOTH_END,
    );
    assert_long_report(&rt, rt.alloc(), &study, ends, 0)?;
    Ok(())
}

#[test]
fn reports_branch_by_branch(rt: HostRuntime) -> Result<(), Fail> {
    let cases = [
        (branchwise::COIL_BELOW, branchwise::COIL_BELOW_REPORT, 0),
        (branchwise::COIL_ABOVE, branchwise::COIL_ABOVE_REPORT, 3),
        (
            branchwise::COIL_CROSSING,
            branchwise::COIL_CROSSING_REPORT,
            3,
        ),
        (branchwise::RESONANCE, branchwise::RESONANCE_REPORT, 3),
        (branchwise::SHARP, branchwise::SHARP_REPORT, 3),
        (branchwise::FILTERED, branchwise::FILTERED_REPORT, 3),
        (branchwise::FAR, branchwise::FAR_REPORT, 0),
    ];
    assert_reports(&rt, rt.alloc(), &cases)
}

// Elimination leaves 16 of 534 boxes of the plant undecided.
#[test]
fn the_plant_branch_by_branch(rt: HostRuntime) -> Result<(), Fail> {
    let answer = Answer {
        status: 0,
        out: branchwise::PLANT_REPORT,
        err: "",
    };
    for header in branchwise::PLANT_HEADERS {
        let study = joined(rt.alloc(), &[header, networks::INDUSTRIAL])?;
        let mut shelf = shelf_with(rt.alloc(), study.as_bytes())?;
        assert_answer(&rt, rt.alloc(), &SCAN, &mut shelf, &answer)?;
    }
    Ok(())
}
