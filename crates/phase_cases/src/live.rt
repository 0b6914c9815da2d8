// Where the networks of a study are refused: too large, or a bus without a path to ground.
use crate::expected::study_with;
use phase_network::check_phases;
use std::alloc::Global;
use std::test::Fail;
use study_model::{Key, Place, Section, StudyFault};
use study_reader::read_study;

/// Whether the networks of a study are live. It has no contract, so that no case is proved under what is proved of the answer.
fn live(alloc: Global, entries: &str) -> Result<Result<(), StudyFault>, Fail> {
    let study = study_with(alloc, entries)?;
    Ok(check_phases(alloc, &study))
}

const DEAD: Result<(), StudyFault> = Err(StudyFault::Floating(Place {
    section: Section::Bus,
    entry: 2,
    key: Key::Nothing,
}));

const DEAD_IN_ZERO: Result<(), StudyFault> = Err(StudyFault::PhaseFloating(Place {
    section: Section::Bus,
    entry: 1,
    key: Key::Nothing,
}));

// A source without zero-sequence values leaves its bus dead in the zero network; a bus that is dead in the positive network comes before.
#[test]
fn buses_have_to_be_live_in_both_sequences(rt: HostRuntime) -> Result<(), Fail> {
    let cases = [
        (
            "both live",
            "source = [{ name = \"S1\", bus = \"B1\", r = 0, x = 1, r0 = 0, x0 = 1 }, { name = \"S2\", bus = \"B2\", r = 0, x = 1, r0 = 0, x0 = 1 }]",
            Ok(()),
        ),
        (
            "dead in the zero network",
            "source = [{ name = \"S1\", bus = \"B1\", r = 0, x = 1 }, { name = \"S2\", bus = \"B2\", r = 0, x = 1, r0 = 0, x0 = 1 }]",
            DEAD_IN_ZERO,
        ),
        (
            "dead in the positive network too",
            "source = [{ name = \"S1\", bus = \"B1\", r = 0, x = 1 }]",
            DEAD,
        ),
    ];
    for (label, entries, wanted) in cases {
        let found = live(rt.alloc(), entries)?;
        assert!(rt; found == wanted, "{label}");
    }
    Ok(())
}

// So many buses in a row, each with a grounded bank: the two sequence networks have a node for each bus, the network of three phases three.
fn answer_at(alloc: Global, buses: u32) -> Result<Result<(), StudyFault>, Fail> {
    let mut text = String::from_str(alloc, "study = { version = 1, mva = 100 }\nbus = [")?;
    for bus in 0..buses {
        text.push_str("{ name = \"B")?;
        text.push_str(format!(in alloc; "{bus}")?.as_str())?;
        text.push_str("\", kv = 10 },")?;
    }
    text.push_str("]\nbank = [")?;
    for bus in 0..buses {
        text.push_str(format!(in alloc;
            "{{ name = \"K{bus}\", bus = \"B{bus}\", q = 1, grounded = true }},"
        )?.as_str())?;
    }
    text.push_str("]\n")?;
    let study = read_study(alloc, text.as_bytes())?;
    Ok(check_phases(alloc, &study))
}

const TOO_MANY: Result<(), StudyFault> = Err(StudyFault::TooMany(Place {
    section: Section::Network,
    entry: 0,
    key: Key::Nothing,
}));

#[test]
fn three_nodes_of_each_bus_count(rt: HostRuntime) -> Result<(), Fail> {
    let within = answer_at(rt.alloc(), 133)?;
    assert!(rt; within == Ok(()), "399 nodes");
    let beyond = answer_at(rt.alloc(), 134)?;
    assert!(rt; beyond == TOO_MANY, "402 nodes");
    Ok(())
}
