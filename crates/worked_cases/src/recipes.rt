// The studies of docs/recipes.md, which a check after the gate compares with the files of examples/ and with that page, and their reports,
// which another program computed (tools/oracle).
use crate::compare::assert_reports;
use std::test::Fail;

/// examples/moved.toml.
pub const MOVED: &str =
    r#"# The works bus of industrial.toml with a bank of 2.4 MVAr in the place of 4. The six-pulse converters of the works inject at the
# orders 5, 7, 11 and 13. Is the impedance at most 40 ohms around each of them?
study = { version = 1, mva = "100" }
bus = [{ name = "WORKS", kv = "11" }]
source = [{ name = "GRID", bus = "WORKS", r = "0.07", x = "0.716" }]
bank = [{ name = "C1", bus = "WORKS", q = "2.4" }]
scan = [
  { name = "around-5-and-7", bus = "WORKS", from = "4.5", to = "7.5", threshold = "40", finest = "0.01", locate = "0.4" },
  { name = "around-11-and-13", bus = "WORKS", from = "10.5", to = "13.5", threshold = "40", finest = "0.01", locate = "0.4" },
]
"#;

pub const MOVED_REPORT: &str = "\
scan,around-5-and-7,WORKS,positive,4.500000,7.500000,40.000000,elimination
box,1,4.500000,7.500000,cleared,-,-
summary,around-5-and-7,1,1,0,0,0
scan,around-11-and-13,WORKS,positive,10.500000,13.500000,40.000000,elimination
box,1,10.500000,13.500000,cleared,-,-
summary,around-11-and-13,1,1,0,0,0
end,0
";

/// examples/voltage.toml.
const VOLTAGE: &str =
    r#"# The works bus of industrial.toml. Its converters inject at most 6 A at order 5, 4.2 A at order 7, 2.7 A at order 11 and 2.1 A at
# order 13, and each voltage may be 3 percent of the phase voltage, which is 190.525 V. So the impedance may be 31.754, 45.363, 70.564
# and 90.726 ohms there, and between two of these orders what lies on the straight line.
study = { version = 2, mva = "100" }
bus = [{ name = "WORKS", kv = "11" }]
source = [{ name = "GRID", bus = "WORKS", r = "0.07", x = "0.716" }]
bank = [{ name = "C1", bus = "WORKS", q = "4" }]

[[scan]]
name = "s1"
bus = "WORKS"
from = "5"
to = "13"
curve_at = ["5", "7", "11", "13"]
curve_ohms = ["31.754", "45.363", "70.564", "90.726"]
finest = "0.01"
locate = "0.4"
"#;

const VOLTAGE_REPORT: &str = "\
scan,s1,WORKS,positive,5.000000,13.000000,curve,elimination
box,1,5.000000,6.000000,cleared,-,-
box,2,6.000000,6.250000,peak,6.250000,58.284809
box,3,6.250000,6.500000,peak,6.375000,111.836409
box,4,6.500000,6.750000,peak,6.625000,113.547511
box,5,6.750000,7.000000,peak,6.750000,60.435355
region,1,6.000000,7.000000,300.000000,350.000000,4,0,6.625000,113.547511
box,6,7.000000,9.000000,cleared,-,-
box,7,9.000000,13.000000,cleared,-,-
summary,s1,7,3,4,0,1
end,3
";

/// examples/tuned.toml.
const TUNED: &str =
    r#"# The works bus of industrial.toml with a filter of 4 MVAr that is tuned to order 5, in the place of the plain bank.
study = { version = 1, mva = "100" }
bus = [{ name = "WORKS", kv = "11" }]
source = [{ name = "GRID", bus = "WORKS", r = "0.07", x = "0.716" }]
filter = [{ name = "F5", bus = "WORKS", kind = "single", q = "4", order = "5", quality = "30" }]

[[scan]]
name = "s1"
bus = "WORKS"
from = "2"
to = "13"
threshold = "20"
finest = "0.01"
locate = "0.2"
"#;

const TUNED_REPORT: &str = "\
scan,s1,WORKS,positive,2.000000,13.000000,20.000000,elimination
box,1,2.000000,3.375000,cleared,-,-
box,2,3.375000,3.718750,cleared,-,-
box,3,3.718750,3.890625,peak,3.890625,21.886083
box,4,3.890625,4.062500,peak,3.976562,28.863023
region,1,3.718750,4.062500,185.937500,203.125000,2,0,3.976562,28.863023
box,5,4.062500,4.750000,cleared,-,-
box,6,4.750000,5.437500,cleared,-,-
box,7,5.437500,6.125000,cleared,-,-
box,8,6.125000,7.500000,cleared,-,-
box,9,7.500000,13.000000,cleared,-,-
summary,s1,9,7,2,0,1
end,3
";

/// examples/detuned.toml.
const DETUNED: &str =
    r#"# The works bus of industrial.toml with a filter of 4 MVAr that is detuned: its reactor of 7 percent sets it to order 3.78, below every order that is injected.
study = { version = 1, mva = "100" }
bus = [{ name = "WORKS", kv = "11" }]
source = [{ name = "GRID", bus = "WORKS", r = "0.07", x = "0.716" }]
filter = [{ name = "F378", bus = "WORKS", kind = "single", q = "4", order = "3.78", quality = "30" }]

[[scan]]
name = "s1"
bus = "WORKS"
from = "2"
to = "13"
threshold = "20"
finest = "0.01"
locate = "0.2"
"#;

const DETUNED_REPORT: &str = "\
scan,s1,WORKS,positive,2.000000,13.000000,20.000000,elimination
box,1,2.000000,2.687500,cleared,-,-
box,2,2.687500,3.031250,cleared,-,-
box,3,3.031250,3.203125,cleared,-,-
box,4,3.203125,3.246093,cleared,-,-
box,5,3.246093,3.289062,cleared,-,-
box,6,3.289062,3.375000,cleared,-,-
box,7,3.375000,4.062500,cleared,-,-
box,8,4.062500,4.750000,cleared,-,-
box,9,4.750000,7.500000,cleared,-,-
box,10,7.500000,13.000000,cleared,-,-
summary,s1,10,10,0,0,0
end,0
";

/// examples/section.toml.
const SECTION: &str = r#"# A cable of 40 km to a works at 132 kV, as one section.
study = { version = 1, mva = "100", method = "branchwise" }
bus = [{ name = "GRID", kv = "132" }, { name = "WORKS", kv = "132" }]
source = [{ name = "S1", bus = "GRID", r = "0.8", x = "8" }]
line = [{ name = "CABLE", from = "GRID", to = "WORKS", r = "2", x = "5.2", b = "3000" }]

[[scan]]
name = "s1"
bus = "WORKS"
from = "2"
to = "25"
threshold = "300"
finest = "0.02"
locate = "0.5"
"#;

const SECTION_REPORT: &str = "\
scan,s1,WORKS,positive,2.000000,25.000000,300.000000,branchwise
box,1,2.000000,3.437500,cleared,-,-
box,2,3.437500,4.875000,cleared,-,-
box,3,4.875000,5.234375,peak,5.234375,300.835475
box,4,5.234375,5.593750,peak,5.414062,411.194247
box,5,5.593750,5.953125,peak,5.773437,1302.890413
box,6,5.953125,6.312500,peak,6.132812,984.061789
box,7,6.312500,6.671875,peak,6.492187,390.838303
box,8,6.671875,7.031250,peak,6.671875,300.719185
region,1,4.875000,7.031250,243.750000,351.562500,6,0,5.773437,1302.890413
box,9,7.031250,7.750000,cleared,-,-
box,10,7.750000,10.625000,cleared,-,-
box,11,10.625000,13.500000,cleared,-,-
box,12,13.500000,16.375000,cleared,-,-
box,13,16.375000,17.093750,cleared,-,-
box,14,17.093750,17.453125,peak,17.273437,445.808941
box,15,17.453125,17.812500,peak,17.632812,493.998881
box,16,17.812500,18.171875,peak,17.812500,319.363001
region,2,17.093750,18.171875,854.687500,908.593750,3,0,17.632812,493.998881
box,17,18.171875,18.531250,cleared,-,-
box,18,18.531250,19.250000,cleared,-,-
box,19,19.250000,25.000000,cleared,-,-
summary,s1,19,10,9,0,2
end,3
";

/// examples/sections.toml.
const SECTIONS: &str = r#"# A cable of 40 km to a works at 132 kV, as a cascade of eight sections.
study = { version = 1, mva = "100", method = "branchwise" }
bus = [{ name = "GRID", kv = "132" }, { name = "WORKS", kv = "132" }]
source = [{ name = "S1", bus = "GRID", r = "0.8", x = "8" }]
line = [{ name = "CABLE", from = "GRID", to = "WORKS", r = "2", x = "5.2", b = "3000", sections = 8 }]

[[scan]]
name = "s1"
bus = "WORKS"
from = "2"
to = "25"
threshold = "300"
finest = "0.02"
locate = "0.5"
"#;

const SECTIONS_REPORT: &str = "\
scan,s1,WORKS,positive,2.000000,25.000000,300.000000,branchwise
box,1,2.000000,3.437500,cleared,-,-
box,2,3.437500,4.875000,cleared,-,-
box,3,4.875000,5.234375,peak,5.234375,319.194484
box,4,5.234375,5.593750,peak,5.414062,456.765778
box,5,5.593750,5.953125,peak,5.773437,2030.043644
box,6,5.953125,6.312500,peak,6.132812,649.159014
box,7,6.312500,6.671875,peak,6.492187,305.074168
region,1,4.875000,6.671875,243.750000,333.593750,5,0,5.773437,2030.043644
box,8,6.671875,7.031250,cleared,-,-
box,9,7.031250,7.750000,cleared,-,-
box,10,7.750000,13.500000,cleared,-,-
box,11,13.500000,19.250000,cleared,-,-
box,12,19.250000,22.125000,cleared,-,-
box,13,22.125000,25.000000,cleared,-,-
summary,s1,13,8,5,0,1
end,3
";

/// examples/zero.toml.
const ZERO: &str =
    r#"# A works behind a transformer whose delta winding looks to the grid, with a grounded bank. In the zero sequence the grid isn't seen:
# the bank is in resonance with the transformer alone.
study = { version = 1, mva = "100" }
bus = [{ name = "GRID", kv = "110" }, { name = "WORKS", kv = "20" }]
source = [{ name = "S1", bus = "GRID", r = "0.6", x = "12", r0 = "1", x0 = "24" }]
transformer = [{ name = "T1", from = "GRID", to = "WORKS", mva = "25", r = "0.5", x = "11", from_conn = "delta", to_conn = "grounded" }]
bank = [{ name = "C1", bus = "WORKS", q = "2", grounded = true }]
scan = [
  { name = "positive", bus = "WORKS", from = "2", to = "13", threshold = "200", finest = "0.01", locate = "0.7" },
  { name = "zero", bus = "WORKS", network = "zero", from = "2", to = "13", threshold = "200", finest = "0.01", locate = "0.7" },
]
"#;

const ZERO_REPORT: &str = "\
scan,positive,WORKS,positive,2.000000,13.000000,200.000000,elimination
box,1,2.000000,3.375000,cleared,-,-
box,2,3.375000,4.750000,cleared,-,-
box,3,4.750000,6.125000,cleared,-,-
box,4,6.125000,7.500000,cleared,-,-
box,5,7.500000,8.187500,cleared,-,-
box,6,8.187500,8.875000,cleared,-,-
box,7,8.875000,9.562500,peak,9.218750,237.571833
box,8,9.562500,10.250000,peak,9.906250,365.635384
region,1,8.875000,10.250000,443.750000,512.500000,2,0,9.906250,365.635384
box,9,10.250000,10.593750,cleared,-,-
box,10,10.593750,10.937500,cleared,-,-
box,11,10.937500,11.625000,cleared,-,-
box,12,11.625000,13.000000,cleared,-,-
summary,positive,12,10,2,0,1
scan,zero,WORKS,zero,2.000000,13.000000,200.000000,elimination
box,1,2.000000,7.500000,cleared,-,-
box,2,7.500000,8.875000,cleared,-,-
box,3,8.875000,9.562500,cleared,-,-
box,4,9.562500,10.250000,peak,10.250000,238.748850
box,5,10.250000,10.937500,peak,10.593750,1423.095343
box,6,10.937500,11.625000,peak,10.937500,363.790378
region,1,9.562500,11.625000,478.125000,581.250000,3,0,10.593750,1423.095343
box,7,11.625000,13.000000,cleared,-,-
summary,zero,7,4,3,0,1
end,3
";

/// examples/open.toml.
const OPEN: &str =
    r#"# The study of both.toml by elimination alone: near order 16 the bank and the cable are in resonance behind the intake, elimination
# divides by an interval that holds zero, and one box stays undecided.
study = { version = 1, mva = "100" }
bus = [{ name = "INTAKE", kv = "11" }, { name = "WORKS", kv = "11" }]
source = [{ name = "GRID", bus = "INTAKE", r = "0.07", x = "0.716" }]
line = [{ name = "CABLE", from = "INTAKE", to = "WORKS", r = "0.08", x = "0.12" }]
bank = [{ name = "C1", bus = "WORKS", q = "4" }]

[[scan]]
name = "s1"
bus = "INTAKE"
from = "10"
to = "25"
threshold = "50"
finest = "1"
locate = "4"
"#;

const OPEN_REPORT: &str = "\
scan,s1,INTAKE,positive,10.000000,25.000000,50.000000,elimination
box,1,10.000000,10.937500,cleared,-,-
box,2,10.937500,11.875000,cleared,-,-
box,3,11.875000,13.750000,cleared,-,-
box,4,13.750000,14.687500,cleared,-,-
box,5,14.687500,15.625000,undecided,-,-
region,1,14.687500,15.625000,734.375000,781.250000,0,1,-,-
box,6,15.625000,16.562500,cleared,-,-
box,7,16.562500,17.500000,cleared,-,-
box,8,17.500000,25.000000,cleared,-,-
summary,s1,8,7,0,1,1
end,4
";

/// examples/branchwise.toml.
const BRANCHWISE: &str =
    r#"# The study of open.toml, branch by branch: near order 16 the bank and the cable are in resonance behind the intake, and nothing of it
# is seen at the intake itself.
study = { version = 1, mva = "100", method = "branchwise" }
bus = [{ name = "INTAKE", kv = "11" }, { name = "WORKS", kv = "11" }]
source = [{ name = "GRID", bus = "INTAKE", r = "0.07", x = "0.716" }]
line = [{ name = "CABLE", from = "INTAKE", to = "WORKS", r = "0.08", x = "0.12" }]
bank = [{ name = "C1", bus = "WORKS", q = "4" }]

[[scan]]
name = "s1"
bus = "INTAKE"
from = "10"
to = "25"
threshold = "50"
finest = "1"
locate = "4"
"#;

const BRANCHWISE_REPORT: &str = "\
scan,s1,INTAKE,positive,10.000000,25.000000,50.000000,branchwise
box,1,10.000000,25.000000,cleared,-,-
summary,s1,1,1,0,0,0
end,0
";

/// examples/feeder.toml.
const FEEDER: &str =
    r#"# A feeder of 11 kV in three phases: its line couples them unequally, and a capacitor bank of 0.8 MVAr stands in phase b alone.
# Where is the impedance at its end above 30 ohms?
[study]
version = 1
mva = 10
model = "phases"

[[bus]]
name = "HV"
kv = 33
[[bus]]
name = "MV"
kv = 11
[[bus]]
name = "END"
kv = 11

[[source]]
name = "GRID"
bus = "HV"
r = "0.4"
x = "4.1"
r0 = "0.6"
x0 = "5.2"

[[transformer]]
name = "T1"
from = "HV"
to = "MV"
mva = 10
r = "0.6"
x = 8
from_conn = "delta"
to_conn = "grounded"
to_rn = 1

[[line]]
name = "L1"
from = "MV"
to = "END"
r = "1.1"
x = "1.5"
b = 18
r0 = "2.1"
x0 = "4.8"
b0 = 9
xab = "1.2"
xbc = "1.2"
xca = "0.9"

[[load]]
name = "D1"
bus = "END"
model = "parallel"
p = 1
q = "0.3"
grounded = true

[[bank]]
name = "K1"
bus = "END"
q = "0.8"
phase = "b"
grounded = true

[[scan]]
name = "a"
bus = "END"
phase = "a"
from = "3.6"
to = "3.7"
threshold = 30
finest = "0.005"

[[scan]]
name = "b"
bus = "END"
phase = "b"
from = 3
to = "4.5"
threshold = 30
finest = "0.005"
locate = "0.2"
"#;

const FEEDER_REPORT: &str = "\
scan,a,END,a,3.600000,3.700000,30.000000,elimination
box,1,3.600000,3.606250,cleared,-,-
box,2,3.606250,3.612500,cleared,-,-
box,3,3.612500,3.618750,cleared,-,-
box,4,3.618750,3.625000,cleared,-,-
box,5,3.625000,3.631250,cleared,-,-
box,6,3.631250,3.637500,cleared,-,-
box,7,3.637500,3.643750,cleared,-,-
box,8,3.643750,3.650000,cleared,-,-
box,9,3.650000,3.656250,cleared,-,-
box,10,3.656250,3.662500,cleared,-,-
box,11,3.662500,3.668750,cleared,-,-
box,12,3.668750,3.675000,cleared,-,-
box,13,3.675000,3.681250,cleared,-,-
box,14,3.681250,3.687500,cleared,-,-
box,15,3.687500,3.693750,cleared,-,-
box,16,3.693750,3.700000,cleared,-,-
summary,a,16,16,0,0,0
scan,b,END,b,3.000000,4.500000,30.000000,elimination
box,1,3.000000,3.187500,peak,3.093750,30.268599
box,2,3.187500,3.375000,peak,3.281250,36.671012
box,3,3.375000,3.562500,peak,3.468750,42.791390
box,4,3.562500,3.750000,peak,3.656250,45.845287
box,5,3.750000,3.937500,peak,3.843750,44.081648
box,6,3.937500,4.125000,peak,4.031250,39.269536
box,7,4.125000,4.312500,peak,4.218750,33.979350
box,8,4.312500,4.500000,peak,4.312500,31.568291
region,1,3.000000,4.500000,150.000000,225.000000,8,0,3.656250,45.845287
summary,b,8,0,8,0,1
end,3
";

#[test]
fn recipes(rt: HostRuntime) -> Result<(), Fail> {
    let cases = [
        (MOVED, MOVED_REPORT, 0),
        (VOLTAGE, VOLTAGE_REPORT, 3),
        (TUNED, TUNED_REPORT, 3),
        (DETUNED, DETUNED_REPORT, 0),
        (SECTION, SECTION_REPORT, 3),
        (SECTIONS, SECTIONS_REPORT, 3),
        (ZERO, ZERO_REPORT, 3),
        (OPEN, OPEN_REPORT, 4),
        (BRANCHWISE, BRANCHWISE_REPORT, 0),
        (FEEDER, FEEDER_REPORT, 3),
    ];
    assert_reports(&rt, rt.alloc(), &cases)
}
