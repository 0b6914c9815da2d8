// Studies of docs/recipes.md on candidate banks, tolerances and outages, which a check after the gate compares with the files of examples/ and
// with that page, and their reports, which another program computed (tools/oracle).
use crate::answers::{CANDIDATES, OUTAGES, TOLERANCE};
use crate::variants::assert_reported;
use std::test::Fail;

/// examples/candidates.toml.
const CANDIDATES_STUDY: &str =
    r#"# The works bus of industrial.toml without its bank. Its converters inject at the orders 5, 7, 11 and 13. Which size of a bank keeps the
# impedance at most 40 ohms around all of them?
study = { version = 1, mva = "100" }
bus = [{ name = "WORKS", kv = "11" }]
source = [{ name = "GRID", bus = "WORKS", r = "0.07", x = "0.716" }]
scan = [
  { name = "around-5-and-7", bus = "WORKS", from = "4.5", to = "7.5", threshold = "40", finest = "0.01", locate = "0.4" },
  { name = "around-11-and-13", bus = "WORKS", from = "10.5", to = "13.5", threshold = "40", finest = "0.01", locate = "0.4" },
]
candidate = [
  { scan = "around-5-and-7", sizes = [4, "3.2", "2.4", "1.6"] },
  { scan = "around-11-and-13", sizes = [4, "3.2", "2.4", "1.6"] },
]
"#;

const CANDIDATES_REPORT: &str = "\
candidate,around-5-and-7,WORKS,4.500000,7.500000,40.000000
size,1,4.000000,2,3,0
size,2,3.200000,2,2,0
size,3,2.400000,1,0,0
size,4,1.600000,1,0,0
first,around-5-and-7,2.400000
candidate,around-11-and-13,WORKS,10.500000,13.500000,40.000000
size,1,4.000000,1,0,0
size,2,3.200000,1,0,0
size,3,2.400000,1,0,0
size,4,1.600000,2,3,0
first,around-11-and-13,4.000000
end,0
";

/// examples/tolerance.toml.
const TOLERANCE_STUDY: &str =
    r#"# The works bus of moved.toml, whose bank moved the resonance to 8.4. The values of the grid and of the bank are known to 5 percent. Is the
# impedance at most 40 ohms around the orders 5 and 7, and 11 and 13, whatever the values are?
study = { version = 1, mva = "100", method = "branchwise" }
bus = [{ name = "WORKS", kv = "11" }]
source = [{ name = "GRID", bus = "WORKS", r = "0.07", x = "0.716" }]
bank = [{ name = "C1", bus = "WORKS", q = "2.4" }]
scan = [
  { name = "around-5-and-7", bus = "WORKS", from = "4.5", to = "7.5", threshold = "40", finest = "0.05", locate = "0.4" },
  { name = "around-11-and-13", bus = "WORKS", from = "10.5", to = "13.5", threshold = "40", finest = "0.05", locate = "0.4" },
]
tolerance = [{ element = "GRID", permille = 50 }, { element = "C1", permille = 50 }]
"#;

const TOLERANCE_REPORT: &str = "\
tolerance,2
scan,around-5-and-7,WORKS,positive,4.500000,7.500000,40.000000,branchwise
box,1,4.500000,6.000000,cleared,-,-
box,2,6.000000,6.750000,cleared,-,-
box,3,6.750000,7.125000,cleared,-,-
box,4,7.125000,7.312500,cleared,-,-
box,5,7.312500,7.406250,cleared,-,-
box,6,7.406250,7.453125,undecided,-,-
box,7,7.453125,7.500000,undecided,-,-
region,1,7.406250,7.500000,370.312500,375.000000,0,2,-,-
summary,around-5-and-7,7,5,0,2,1
scan,around-11-and-13,WORKS,positive,10.500000,13.500000,40.000000,branchwise
box,1,10.500000,13.500000,cleared,-,-
summary,around-11-and-13,1,1,0,0,0
end,4
";

/// examples/outages.toml.
const OUTAGES_STUDY: &str =
    r#"# A works that two lines feed from a substation, with a bank and a load. Is the impedance at the works at most 30 ohms around the orders 5 and
# 7 with each of the lines out of service, and without the bank?
study = { version = 1, mva = "100" }
bus = [{ name = "GRID", kv = "11" }, { name = "WORKS", kv = "11" }]
source = [{ name = "S1", bus = "GRID", r = "0.05", x = "0.5" }]
line = [
  { name = "EAST", from = "GRID", to = "WORKS", r = "0.1", x = "0.4" },
  { name = "WEST", from = "GRID", to = "WORKS", r = "0.3", x = "0.9" },
]
load = [{ name = "L1", bus = "WORKS", model = "parallel", p = "1", q = "0.3" }]
bank = [{ name = "C1", bus = "WORKS", q = "1.6" }]
outage = [{ element = "EAST" }, { element = "WEST" }, { element = "C1" }]

[[scan]]
name = "around-5-and-7"
bus = "WORKS"
from = "4.5"
to = "7.5"
threshold = "30"
finest = "0.01"
locate = "0.4"
"#;

const OUTAGES_REPORT: &str = "\
outage,1,EAST,fed
case,1,around-5-and-7,8,4,4,0,7.312500,85.740609
outage,2,WEST,fed
case,2,around-5-and-7,7,7,0,0,-,-
outage,3,C1,fed
case,3,around-5-and-7,4,4,0,0,-,-
envelope,around-5-and-7,3,2,1,0
end,3
";

#[test]
fn recipes_of_variants(rt: HostRuntime) -> Result<(), Fail> {
    let cases = [
        (CANDIDATES, CANDIDATES_STUDY, CANDIDATES_REPORT, 0),
        (TOLERANCE, TOLERANCE_STUDY, TOLERANCE_REPORT, 4),
        (OUTAGES, OUTAGES_STUDY, OUTAGES_REPORT, 3),
    ];
    for (words, study, report, status) in cases {
        assert_reported(&rt, rt.alloc(), &words, study, (report, status))?;
    }
    Ok(())
}
