// The numbers of elements, and whether buses are live.
use crate::expected::{Parts, Value, Values, Wanted, assert_network, network_with, study_with};
use sequence_network::check_live;
use std::alloc::Global;
use std::test::Fail;
use study_model::{Key, Place, Section, Sequence, StudyFault};

const EVERY: &str = r#"
bank = [{ name = "K1", bus = "B2", q = 4 }]
filter = [{ name = "F1", bus = "B2", kind = "single", q = 4, order = 5, quality = 50 }]
load = [{ name = "D1", bus = "B1", model = "series", r = 3, x = 4 }]
transformer = [{ name = "T1", from = "B1", to = "B2", mva = 10, r = 0, x = 10 }]
line = [{ name = "L1", from = "B1", to = "B2", r = 1, x = 1 }]
source = [{ name = "S1", bus = "B1", r = 0, x = 1 }, { name = "S2", bus = "B2", r = 0, x = 1 }]
"#;

const ONE: [Value; 5] = [(0, 1), (0, 1), (1, 1), (1, 1), (0, 1)];

const BOTH: [Value; 5] = [(1, 1), (0, 1), (1, 1), (1, 1), (0, 1)];

const LOAD: [Value; 5] = [(3, 1), (0, 1), (1, 1), (4, 1), (0, 1)];

const FILTER: [Value; 5] = [(1, 10), (0, 1), (1, 1), (1, 1), (25, 1)];

/// Each branch: its element, its first node, its second one, and its law.
const NUMBERED: [(u32, u32, Option<u32>, Values); 7] = [
    (1, 0, None, Values::Series(ONE)),
    (2, 1, None, Values::Series(ONE)),
    (3, 0, Some(1), Values::Series(BOTH)),
    (4, 0, Some(1), Values::Series(ONE)),
    (5, 0, None, Values::Series(LOAD)),
    (6, 1, None, Values::Shunt((4, 100))),
    (7, 1, None, Values::Series(FILTER)),
];

// Sources, lines, transformers, loads, banks, filters.
#[test]
fn elements_stand_in_the_order_of_their_numbers(rt: HostRuntime) -> Result<(), Fail> {
    let mut wanted = Vec::new(rt.alloc());
    for (owner, node, second, values) in NUMBERED {
        wanted.push(Wanted::Other(Parts {
            first: (node, (1, 1)),
            second,
            values,
            owner,
        }))?;
    }
    let network = network_with(rt.alloc(), EVERY, Sequence::Positive)?;
    assert_network(&rt, "every element", &network, 2, &wanted);
    Ok(())
}

/// Whether the networks of a study are live. It has no contract, so that no case is proved under what is proved of the answer.
fn live(alloc: Global, entries: &[&str; 3]) -> Result<Result<(), StudyFault>, Fail> {
    let mut text = String::new(alloc);
    for entry in entries {
        text.push_str(entry)?;
    }
    let study = study_with(alloc, text.as_str())?;
    Ok(check_live(alloc, &study))
}

const OPEN_SOURCE: &str = "source = [{ name = \"S1\", bus = \"B1\", r = 0, x = 1 }]\n";

const SOURCE: &str = "source = [{ name = \"S1\", bus = \"B1\", r = 0, x = 1, r0 = 0, x0 = 1 }]\n";

const FIRST_BANK: &str = "bank = [{ name = \"K1\", bus = \"B1\", q = 1, grounded = true }]\n";

const SECOND_BANK: &str = "bank = [{ name = \"K1\", bus = \"B2\", q = 1, grounded = true }]\n";

const POSITIVE_SCAN: &str =
    "scan = [{ name = \"s1\", bus = \"B1\", from = 1, to = 10, threshold = 1, finest = 1 }]\n";

const ZERO_SCANS: &str =
    "scan = [{ name = \"s1\", bus = \"B1\", from = 1, to = 10, threshold = 1, finest = 1 }, { name = \"s2\", bus = \"B1\", network = \"zero\", from = 1, to = 10, threshold = 1, finest = 1 }]\n";

const DEAD_BUS: Result<(), StudyFault> = Err(StudyFault::Floating(Place {
    section: Section::Bus,
    entry: 2,
    key: Key::Nothing,
}));

const DEAD_SCAN: Result<(), StudyFault> = Err(StudyFault::Floating(Place {
    section: Section::Scan,
    entry: 2,
    key: Key::Bus,
}));

// A source that is open in the zero network leaves its bus dead there; a dead bus comes before a dead scan.
#[test]
fn buses_and_zero_scans_have_to_be_live(rt: HostRuntime) -> Result<(), Fail> {
    let cases = [
        (
            "both live",
            [OPEN_SOURCE, SECOND_BANK, POSITIVE_SCAN],
            Ok(()),
        ),
        ("a dead bus", [SOURCE, FIRST_BANK, ZERO_SCANS], DEAD_BUS),
        (
            "a dead zero scan",
            [OPEN_SOURCE, SECOND_BANK, ZERO_SCANS],
            DEAD_SCAN,
        ),
        (
            "a live zero scan",
            [SOURCE, SECOND_BANK, ZERO_SCANS],
            Ok(()),
        ),
        ("both dead", [OPEN_SOURCE, "", ZERO_SCANS], DEAD_BUS),
    ];
    for (label, entries, wanted) in cases {
        let found = live(rt.alloc(), &entries)?;
        assert!(rt; found == wanted, "{label}");
    }
    Ok(())
}
