// The studies of examples/, which a check after the gate compares with those files, and their reports. Those by elimination with one
// threshold were computed by another program too (tools/oracle).
use crate::compare::{assert_long_report, assert_reports};
use std::test::Fail;

const SAFE: &str =
    r#"# The same works bus with a bank of 0.6 MVAr, whose resonance stands far above order 13: nothing between the orders 2 and 13 is above 40 ohms.
[study]
version = 1
mva = "100"

[[bus]]
name = "WORKS"
kv = "11"

[[source]]
name = "GRID"
bus = "WORKS"
r = "0.07"
x = "0.716"

[[bank]]
name = "C1"
bus = "WORKS"
q = "0.6"

[[scan]]
name = "s1"
bus = "WORKS"
from = "2"
to = "13"
threshold = "40"
finest = "0.01"
"#;

const SAFE_REPORT: &str = "\
scan,s1,WORKS,positive,2.000000,13.000000,40.000000,elimination
box,1,2.000000,13.000000,cleared,-,-
summary,s1,1,1,0,0,0
end,0
";

const WORKS: &str =
    r#"# The 11 kV works bus of industrial.toml with the loads of the works, in both sequence networks. The motors and heaters
# damp the resonance: is the impedance still anywhere above 40 ohms? And does the grounded bank resonate in the zero sequence?
study = { version = 1, mva = 100 }
bus = [{ name = "WORKS", kv = 11 }]
source = [{ name = "GRID", bus = "WORKS", r = "0.07", x = "0.716", r0 = "0.2", x0 = "1.8" }]
load = [
    { name = "MOTORS", bus = "WORKS", model = "cigre", p = 3, q = "1.8" },
    { name = "HEATERS", bus = "WORKS", model = "parallel", p = 2, q = 0, grounded = true },
    { name = "OFFICES", bus = "WORKS", model = "series", r = 220, x = 70 },
]
bank = [{ name = "C1", bus = "WORKS", q = 4, grounded = true }]

[[scan]]
name = "positive"
bus = "WORKS"
from = 2
to = 13
threshold = 40
finest = "0.01"
locate = "0.4"

[[scan]]
name = "zero"
bus = "WORKS"
network = "zero"
from = 1
to = 13
threshold = 40
finest = "0.01"
locate = "0.4"
"#;

const WORKS_REPORT: &str = "\
scan,positive,WORKS,positive,2.000000,13.000000,40.000000,elimination
box,1,2.000000,13.000000,cleared,-,-
summary,positive,1,1,0,0,0
scan,zero,WORKS,zero,1.000000,13.000000,40.000000,elimination
box,1,1.000000,2.500000,cleared,-,-
box,2,2.500000,3.250000,cleared,-,-
box,3,3.250000,3.625000,cleared,-,-
box,4,3.625000,4.000000,peak,4.000000,46.705816
box,5,4.000000,4.375000,peak,4.187500,47.884196
region,1,3.625000,4.375000,181.250000,218.750000,2,0,4.187500,47.884196
box,6,4.375000,4.750000,cleared,-,-
box,7,4.750000,5.500000,cleared,-,-
box,8,5.500000,7.000000,cleared,-,-
box,9,7.000000,13.000000,cleared,-,-
summary,zero,9,7,2,0,1
end,3
";

const LOCATE: &str =
    r#"# A 33 kV bus that resonates with a bank of 6 MVAr near order 5.5. `locate` asks for the place: bands above 1500 ohms are split until they are at most 0.02 orders wide.
[study]
version = 1
mva = "100"

[[bus]]
name = "MAIN"
kv = "33"

[[source]]
name = "GRID"
bus = "MAIN"
r = "0.5"
x = "6"

[[bank]]
name = "C1"
bus = "MAIN"
q = "6"

[[scan]]
name = "s1"
bus = "MAIN"
from = "5"
to = "6"
threshold = "1500"
finest = "0.001"
locate = "0.02"
"#;

const LOCATE_REPORT: &str = "\
scan,s1,MAIN,positive,5.000000,6.000000,1500.000000,elimination
box,1,5.000000,5.250000,cleared,-,-
box,2,5.250000,5.375000,cleared,-,-
box,3,5.375000,5.437500,cleared,-,-
box,4,5.437500,5.453125,cleared,-,-
box,5,5.453125,5.468750,peak,5.460937,1586.450756
box,6,5.468750,5.484375,peak,5.476562,1897.524765
box,7,5.484375,5.500000,peak,5.492187,2140.885631
box,8,5.500000,5.515625,peak,5.507812,2140.996825
box,9,5.515625,5.531250,peak,5.523437,1899.485098
box,10,5.531250,5.546875,peak,5.539062,1591.744273
region,1,5.453125,5.546875,272.656250,277.343750,6,0,5.507812,2140.996825
box,11,5.546875,5.562500,cleared,-,-
box,12,5.562500,5.625000,cleared,-,-
box,13,5.625000,5.750000,cleared,-,-
box,14,5.750000,6.000000,cleared,-,-
summary,s1,14,8,6,0,1
end,3
";

const PLANT: &str =
    r#"# A works that is fed at 33 kV: a transformer of 10 MVA, an 11 kV busbar with motors and a capacitor bank, and a cable
# to a workshop with heaters, drives and a filter for their 5th harmonic. Is the impedance of either 11 kV bus above
# 30 ohms at some order up to 25, and does the zero sequence resonate at the busbar?
[study]
version = 1
mva = 10
hz = 50
# Elimination alone gives 4407 boxes, and leaves 83 of them undecided.
method = "branchwise"

[[bus]]
name = "INTAKE"
kv = 33

[[bus]]
name = "MAIN"
kv = 11

[[bus]]
name = "WORKSHOP"
kv = 11

# A short-circuit power of 500 MVA at 33 kV.
[[source]]
name = "GRID"
bus = "INTAKE"
r = "0.22"
x = "2.17"
r0 = "0.6"
x0 = "5.4"

# Delta at 33 kV, and a star at 11 kV whose neutral is grounded by a resistor.
[[transformer]]
name = "T1"
from = "INTAKE"
to = "MAIN"
mva = 10
r = "0.6"
x = 9
from_conn = "delta"
to_conn = "grounded"
to_rn = "6.35"
skin_k = "0.5"
skin_m = 50

# 1.2 km of cable: 0.125 ohms, 0.1 ohms and 110 microsiemens a kilometre.
[[line]]
name = "CABLE"
from = "MAIN"
to = "WORKSHOP"
r = "0.15"
x = "0.12"
b = 132
r0 = "0.75"
x0 = "0.36"
b0 = 132
sections = 2
skin_k = "0.5"
skin_m = 50

[[load]]
name = "MOTORS"
bus = "MAIN"
model = "cigre"
p = 3
q = "1.8"

[[load]]
name = "HEATERS"
bus = "WORKSHOP"
model = "parallel"
p = 1
q = 0
grounded = true

[[load]]
name = "OFFICES"
bus = "MAIN"
model = "series"
r = 220
x = 70
grounded = true

[[bank]]
name = "C1"
bus = "MAIN"
q = "1.5"

[[filter]]
name = "F5"
bus = "WORKSHOP"
kind = "single"
q = "0.8"
order = "4.9"
quality = 40

[[scan]]
name = "busbar"
bus = "MAIN"
from = 1
to = 25
threshold = 30
finest = "0.001"
locate = "0.1"

[[scan]]
name = "workshop"
bus = "WORKSHOP"
from = 1
to = 25
threshold = 30
finest = "0.001"
locate = "0.1"

[[scan]]
name = "zero-sequence"
bus = "MAIN"
network = "zero"
from = 1
to = 25
threshold = 100
finest = "0.001"
locate = "0.1"

# The current of the transformer is judged at the intake: 8750 A of short circuit, and a demand of 90 A.
[[pcc]]
name = "SUPPLY"
bus = "INTAKE"
element = "T1"
isc = 8750
il = 90
"#;

const PLANT_FRONT: &str = "\
scan,busbar,MAIN,positive,1.000000,25.000000,30.000000,branchwise
box,1,1.000000,1.375000,cleared,-,-
box,2,1.375000,1.750000,cleared,-,-
box,3,1.750000,2.500000,cleared,-,-
";

const PLANT_END: &str = "\
box,6,13.000000,25.000000,cleared,-,-
summary,zero-sequence,6,6,0,0,0
end,3
";

/// examples/both.toml.
const BOTH: &str =
    r#"# A bank at the end of a cable, seen from the intake. Near order 16 the bank and the cable are in resonance behind the
# intake, and elimination divides by an interval that holds zero. Both methods are asked: the certified inverse clears what
# elimination leaves undecided, and in fewer boxes.
study = { version = 1, mva = "100", method = "both" }
bus = [{ name = "INTAKE", kv = "11" }, { name = "WORKS", kv = "11" }]
source = [{ name = "GRID", bus = "INTAKE", r = "0.07", x = "0.716" }]
line = [{ name = "CABLE", from = "INTAKE", to = "WORKS", r = "0.08", x = "0.12" }]
bank = [{ name = "C1", bus = "WORKS", q = "4" }]

[[scan]]
name = "s1"
bus = "INTAKE"
from = "10"
to = "25"
threshold = "50"
finest = "1"
locate = "4"
"#;

const BOTH_REPORT: &str = "\
scan,s1,INTAKE,positive,10.000000,25.000000,50.000000,both
box,1,10.000000,10.937500,cleared,-,-
box,2,10.937500,11.875000,cleared,-,-
box,3,11.875000,13.750000,cleared,-,-
box,4,13.750000,17.500000,cleared,-,-
box,5,17.500000,25.000000,cleared,-,-
summary,s1,5,5,0,0,0
end,0
";

/// examples/curve.toml.
const CURVE: &str =
    r#"# The 11 kV works bus of industrial.toml. The planner allows 40 ohms up to order 5 and 160 ohms from order 7 on, with a
# straight line between. Where is the impedance above that?
study = { version = 2, mva = "100" }
bus = [{ name = "WORKS", kv = "11" }]
source = [{ name = "GRID", bus = "WORKS", r = "0.07", x = "0.716" }]
bank = [{ name = "C1", bus = "WORKS", q = "4" }]

[[scan]]
name = "s1"
bus = "WORKS"
from = "2"
to = "13"
curve_at = ["2", "5", "7", "13"]
curve_ohms = ["40", "40", "160", "160"]
finest = "0.01"
locate = "0.1"
"#;

const CURVE_REPORT: &str = "\
scan,s1,WORKS,positive,2.000000,13.000000,curve,elimination
box,1,2.000000,4.750000,cleared,-,-
box,2,4.750000,6.125000,cleared,-,-
box,3,6.125000,6.296875,cleared,-,-
box,4,6.296875,6.339843,cleared,-,-
box,5,6.339843,6.382812,cleared,-,-
box,6,6.382812,6.468750,peak,6.425781,169.700485
box,7,6.468750,6.554687,peak,6.511718,300.788350
box,8,6.554687,6.640625,peak,6.597656,139.216184
region,1,6.382812,6.640625,319.140600,332.031250,3,0,6.511718,300.788350
box,9,6.640625,6.812500,cleared,-,-
box,10,6.812500,7.500000,cleared,-,-
box,11,7.500000,13.000000,cleared,-,-
summary,s1,11,8,3,0,1
end,3
";

#[test]
fn examples(rt: HostRuntime) -> Result<(), Fail> {
    let cases = [
        (SAFE, SAFE_REPORT, 0),
        (WORKS, WORKS_REPORT, 3),
        (LOCATE, LOCATE_REPORT, 3),
        (BOTH, BOTH_REPORT, 0),
        (CURVE, CURVE_REPORT, 3),
    ];
    assert_reports(&rt, rt.alloc(), &cases)
}

/// The report has 120 lines, of which the first and the last ones are compared, and its length.
#[test]
fn the_plant(rt: HostRuntime) -> Result<(), Fail> {
    let length = assert_long_report(&rt, rt.alloc(), PLANT, (PLANT_FRONT, PLANT_END), 3)?;
    assert_eq!(rt; length, 5_026);
    Ok(())
}
