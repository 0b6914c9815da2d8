// Reports on plants, as another program computed them from the definitions: one of six buses with the currents of a twelve-pulse converter, and
// the study of examples/plant.toml with its spectrum and its planning levels.
use crate::answers::{Case, assert_cases};
use std::test::Fail;

const PLANT: &str = r#"[study]
version = 1
mva = "100"
[[bus]]
name = "GRID"
kv = "132"
[[bus]]
name = "MAIN"
kv = "33"
[[bus]]
name = "F1"
kv = "33"
[[bus]]
name = "F2"
kv = "33"
[[bus]]
name = "F3"
kv = "33"
[[bus]]
name = "F4"
kv = "33"
[[source]]
name = "UTIL"
bus = "GRID"
r = "2"
x = "20"
[[transformer]]
name = "T1"
from = "GRID"
to = "MAIN"
mva = "60"
r = "0.5"
x = "12"
ratio = "1.025"
from_conn = "grounded"
to_conn = "delta"
[[line]]
name = "L1"
from = "MAIN"
to = "F1"
r = "0.6"
x = "1.8"
b = "40"
sections = 2
skin_k = "0.5"
skin_m = "50"
[[line]]
name = "L2"
from = "MAIN"
to = "F2"
r = "0.6"
x = "1.8"
b = "40"
sections = 2
skin_k = "0.5"
skin_m = "50"
[[line]]
name = "L3"
from = "MAIN"
to = "F3"
r = "0.6"
x = "1.8"
b = "40"
sections = 2
skin_k = "0.5"
skin_m = "50"
[[line]]
name = "L4"
from = "MAIN"
to = "F4"
r = "0.6"
x = "1.8"
b = "40"
sections = 2
skin_k = "0.5"
skin_m = "50"
[[load]]
name = "D1"
bus = "F1"
model = "cigre"
p = "6"
q = "2"
[[load]]
name = "D2"
bus = "F2"
model = "cigre"
p = "4"
q = "2"
[[bank]]
name = "K1"
bus = "F3"
q = "5"
[[filter]]
name = "X1"
bus = "F4"
kind = "single"
q = "4"
order = "11"
quality = "40"
[[scan]]
name = "s1"
bus = "F3"
from = "1"
to = "50"
threshold = "400"
finest = "0.01"
locate = "0.05"
[[pcc]]
name = "P1"
bus = "MAIN"
element = "T1"
isc = "6000"
il = "200"
"#;

const TWELVE_PULSES: &str = "\
order,bus,re,im
11,F4,12,0
13,F4,9.5,0
23,F4,4,-1.5
25,F4,3.5,0
35,F4,1.8,0
37,F4,1.6,0.2
47,F4,0.9,0
49,F4,0.8,0
";

/// 48 voltages, 6 totals, 8 currents and the total of the point.
const REPORT: &str = "\
voltage,GRID,s,11,0.0005,0.0006,1.5000,pass
voltage,MAIN,s,11,0.0015,0.0016,3.0000,pass
voltage,F1,s,11,0.0014,0.0015,3.0000,pass
voltage,F2,s,11,0.0014,0.0015,3.0000,pass
voltage,F3,s,11,0.0381,0.0382,3.0000,pass
voltage,F4,s,11,0.0388,0.0389,3.0000,pass
voltage,GRID,s,13,0.0229,0.0230,1.5000,pass
voltage,MAIN,s,13,0.0632,0.0633,3.0000,pass
voltage,F1,s,13,0.0587,0.0588,3.0000,pass
voltage,F2,s,13,0.0598,0.0599,3.0000,pass
voltage,F3,s,13,0.1567,0.1568,3.0000,pass
voltage,F4,s,13,0.3233,0.3234,3.0000,pass
voltage,GRID,s,23,0.0689,0.0690,1.5000,pass
voltage,MAIN,s,23,0.1903,0.1904,3.0000,pass
voltage,F1,s,23,0.1733,0.1734,3.0000,pass
voltage,F2,s,23,0.1785,0.1786,3.0000,pass
voltage,F3,s,23,0.0564,0.0565,3.0000,pass
voltage,F4,s,23,0.5534,0.5535,3.0000,pass
voltage,GRID,s,25,0.0651,0.0652,1.5000,pass
voltage,MAIN,s,25,0.1798,0.1799,3.0000,pass
voltage,F1,s,25,0.1637,0.1638,3.0000,pass
voltage,F2,s,25,0.1688,0.1689,3.0000,pass
voltage,F3,s,25,0.0432,0.0433,3.0000,pass
voltage,F4,s,25,0.5101,0.5102,3.0000,pass
voltage,GRID,s,35,0.0566,0.0567,1.5000,pass
voltage,MAIN,s,35,0.1564,0.1565,3.0000,pass
voltage,F1,s,35,0.1437,0.1438,3.0000,pass
voltage,F2,s,35,0.1487,0.1488,3.0000,pass
voltage,F3,s,35,0.0172,0.0173,3.0000,pass
voltage,F4,s,35,0.4062,0.4063,3.0000,pass
voltage,GRID,s,37,0.0553,0.0554,1.5000,pass
voltage,MAIN,s,37,0.1527,0.1528,3.0000,pass
voltage,F1,s,37,0.1407,0.1408,3.0000,pass
voltage,F2,s,37,0.1458,0.1459,3.0000,pass
voltage,F3,s,37,0.0149,0.0150,3.0000,pass
voltage,F4,s,37,0.3902,0.3903,3.0000,pass
voltage,GRID,s,47,0.0456,0.0457,1.5000,pass
voltage,MAIN,s,47,0.1260,0.1261,3.0000,pass
voltage,F1,s,47,0.1190,0.1191,3.0000,pass
voltage,F2,s,47,0.1235,0.1236,3.0000,pass
voltage,F3,s,47,0.0074,0.0075,3.0000,pass
voltage,F4,s,47,0.2957,0.2958,3.0000,pass
voltage,GRID,s,49,0.0437,0.0438,1.5000,pass
voltage,MAIN,s,49,0.1207,0.1208,3.0000,pass
voltage,F1,s,49,0.1146,0.1147,3.0000,pass
voltage,F2,s,49,0.1190,0.1191,3.0000,pass
voltage,F3,s,49,0.0065,0.0066,3.0000,pass
voltage,F4,s,49,0.2778,0.2779,3.0000,pass
thd,GRID,s,0.1406,0.1407,2.5000,pass
thd,MAIN,s,0.3884,0.3885,5.0000,pass
thd,F1,s,0.3578,0.3579,5.0000,pass
thd,F2,s,0.3699,0.3700,5.0000,pass
thd,F3,s,0.1780,0.1781,5.0000,pass
thd,F4,s,1.0745,1.0746,5.0000,pass
current,P1,s,11,0.0040,0.0041,3.5000,pass
current,P1,s,13,0.1376,0.1377,3.5000,pass
current,P1,s,23,0.2341,0.2342,1.0000,pass
current,P1,s,25,0.2035,0.2036,1.0000,pass
current,P1,s,35,0.1264,0.1265,0.5000,pass
current,P1,s,37,0.1167,0.1168,0.5000,pass
current,P1,s,47,0.0758,0.0759,0.5000,pass
current,P1,s,49,0.0697,0.0698,0.5000,pass
tdd,P1,s,0.3942,0.3943,8.0000,pass
summary,limits,63,0,0
end,0
";

#[test]
fn a_plant(rt: HostRuntime) -> Result<(), Fail> {
    let case = Case {
        study: PLANT,
        spectrum: TWELVE_PULSES,
        levels: None,
        answer: (0, REPORT, ""),
    };
    assert_cases(&rt, rt.alloc(), &[case])
}

const WORKS: &str =
    r#"# A works that is fed at 33 kV: a transformer of 10 MVA, an 11 kV busbar with motors and a capacitor bank, and a cable
# to a workshop with heaters, drives and a filter for their 5th harmonic. Is the impedance of either 11 kV bus above
# 30 ohms at some order up to 25, and does the zero sequence resonate at the busbar?
[study]
version = 1
mva = 10
hz = 50
# Elimination alone gives 4407 boxes, and leaves 83 of them undecided.
method = "branchwise"

[[bus]]
name = "INTAKE"
kv = 33

[[bus]]
name = "MAIN"
kv = 11

[[bus]]
name = "WORKSHOP"
kv = 11

# A short-circuit power of 500 MVA at 33 kV.
[[source]]
name = "GRID"
bus = "INTAKE"
r = "0.22"
x = "2.17"
r0 = "0.6"
x0 = "5.4"

# Delta at 33 kV, and a star at 11 kV whose neutral is grounded by a resistor.
[[transformer]]
name = "T1"
from = "INTAKE"
to = "MAIN"
mva = 10
r = "0.6"
x = 9
from_conn = "delta"
to_conn = "grounded"
to_rn = "6.35"
skin_k = "0.5"
skin_m = 50

# 1.2 km of cable: 0.125 ohms, 0.1 ohms and 110 microsiemens a kilometre.
[[line]]
name = "CABLE"
from = "MAIN"
to = "WORKSHOP"
r = "0.15"
x = "0.12"
b = 132
r0 = "0.75"
x0 = "0.36"
b0 = 132
sections = 2
skin_k = "0.5"
skin_m = 50

[[load]]
name = "MOTORS"
bus = "MAIN"
model = "cigre"
p = 3
q = "1.8"

[[load]]
name = "HEATERS"
bus = "WORKSHOP"
model = "parallel"
p = 1
q = 0
grounded = true

[[load]]
name = "OFFICES"
bus = "MAIN"
model = "series"
r = 220
x = 70
grounded = true

[[bank]]
name = "C1"
bus = "MAIN"
q = "1.5"

[[filter]]
name = "F5"
bus = "WORKSHOP"
kind = "single"
q = "0.8"
order = "4.9"
quality = 40

[[scan]]
name = "busbar"
bus = "MAIN"
from = 1
to = 25
threshold = 30
finest = "0.001"
locate = "0.1"

[[scan]]
name = "workshop"
bus = "WORKSHOP"
from = 1
to = 25
threshold = 30
finest = "0.001"
locate = "0.1"

[[scan]]
name = "zero-sequence"
bus = "MAIN"
network = "zero"
from = 1
to = 25
threshold = 100
finest = "0.001"
locate = "0.1"

# The current of the transformer is judged at the intake: 8750 A of short circuit, and a demand of 90 A.
[[pcc]]
name = "SUPPLY"
bus = "INTAKE"
element = "T1"
isc = 8750
il = 90
"#;

const DRIVES: &str = "\
order,bus,re,im
3,WORKSHOP,1.2,0
5,WORKSHOP,9.5,-2.5
7,WORKSHOP,5.2,3.1
11,WORKSHOP,2.4,0
13,WORKSHOP,1.6,-0.9
17,WORKSHOP,0.9,0
19,WORKSHOP,0.7,0
";

const WORKS_LEVELS: &str = "\
bus,order,percent
MAIN,5,1.5
MAIN,7,1
MAIN,thd,3
WORKSHOP,5,1.5
WORKSHOP,7,1.2
";

const WORKS_REPORT: &str = "\
voltage,INTAKE,s,3,0.0000,0.0000,3.0000,pass
voltage,MAIN,s,3,0.3195,0.3196,3.0000,pass
voltage,WORKSHOP,s,3,0.3359,0.3360,3.0000,pass
voltage,INTAKE,s,5,0.0330,0.0331,3.0000,pass
voltage,MAIN,s,5,0.1825,0.1826,1.5000,pass
voltage,WORKSHOP,s,5,0.1958,0.1959,1.5000,pass
voltage,INTAKE,s,7,0.1821,0.1822,3.0000,pass
voltage,MAIN,s,7,1.0050,1.0051,1.0000,fail
voltage,WORKSHOP,s,7,1.0459,1.0460,1.2000,pass
voltage,INTAKE,s,11,0.1696,0.1697,3.0000,pass
voltage,MAIN,s,11,0.9358,0.9359,3.0000,pass
voltage,WORKSHOP,s,11,0.8800,0.8801,3.0000,pass
voltage,INTAKE,s,13,0.0686,0.0687,3.0000,pass
voltage,MAIN,s,13,0.3788,0.3789,3.0000,pass
voltage,WORKSHOP,s,13,0.3303,0.3304,3.0000,pass
voltage,INTAKE,s,17,0.0177,0.0178,3.0000,pass
voltage,MAIN,s,17,0.0977,0.0978,3.0000,pass
voltage,WORKSHOP,s,17,0.0682,0.0683,3.0000,pass
voltage,INTAKE,s,19,0.0112,0.0113,3.0000,pass
voltage,MAIN,s,19,0.0622,0.0623,3.0000,pass
voltage,WORKSHOP,s,19,0.0369,0.0370,3.0000,pass
thd,INTAKE,s,0.2612,0.2613,5.0000,pass
thd,MAIN,s,1.4759,1.4760,3.0000,pass
thd,WORKSHOP,s,1.4611,1.4612,5.0000,pass
current,SUPPLY,s,3,0.0000,0.0000,10.0000,pass
current,SUPPLY,s,5,0.6455,0.6456,10.0000,pass
current,SUPPLY,s,7,2.5388,2.5389,10.0000,pass
current,SUPPLY,s,11,1.5045,1.5046,4.5000,pass
current,SUPPLY,s,13,0.5153,0.5154,4.5000,pass
current,SUPPLY,s,17,0.1016,0.1017,4.0000,pass
current,SUPPLY,s,19,0.0579,0.0580,4.0000,pass
tdd,SUPPLY,s,3.0668,3.0669,12.0000,pass
summary,limits,31,1,0
end,3
";

/// The voltage of order 7 passes the limit of its class, and fails the planning level of the works.
#[test]
fn the_example(rt: HostRuntime) -> Result<(), Fail> {
    let case = Case {
        study: WORKS,
        spectrum: DRIVES,
        levels: Some(WORKS_LEVELS),
        answer: (3, WORKS_REPORT, ""),
    };
    assert_cases(&rt, rt.alloc(), &[case])
}
