// Studies with lines, transformers and filters, and the reports of their scans.

/// A filter that is tuned to order 5: there the impedance is small, and below it the filter and the source resonate.
pub const FILTER: &str = r#"[study]
version = 1
mva = "100"
[[bus]]
name = "B1"
kv = "10"
[[source]]
name = "S1"
bus = "B1"
r = "0"
x = "1"
[[filter]]
name = "F1"
bus = "B1"
kind = "single"
q = "4"
order = "5"
quality = "50"
[[scan]]
name = "s1"
bus = "B1"
from = "4.8"
to = "5.2"
threshold = "2"
finest = "0.001"
[[scan]]
name = "s2"
bus = "B1"
from = "3.4"
to = "3.6"
threshold = "20"
finest = "0.001"
locate = "0.2"
"#;

pub const FILTER_REPORT: &str = r"scan,s1,B1,positive,4.800000,5.200000,2.000000,elimination
box,1,4.800000,5.200000,cleared,-,-
summary,s1,1,1,0,0,0
scan,s2,B1,positive,3.400000,3.600000,20.000000,elimination
box,1,3.400000,3.600000,peak,3.500000,73.143992
region,1,3.400000,3.600000,170.000000,180.000000,1,0,3.500000,73.143992
summary,s2,1,0,1,0,1
end,3
";

/// A bank at the far end of a line, with which the line resonates at order 5: over the band no value comes of the reduction.
pub const FAR_BANK: &str = r#"[study]
version = 1
mva = "100"
[[bus]]
name = "A"
kv = "10"
[[bus]]
name = "K"
kv = "10"
[[source]]
name = "S1"
bus = "K"
r = "0"
x = "1"
[[line]]
name = "L1"
from = "A"
to = "K"
r = "0"
x = "1"
[[bank]]
name = "K1"
bus = "A"
q = "4"
[[scan]]
name = "s1"
bus = "K"
from = "4.99"
to = "5.01"
threshold = "20"
finest = "0.02"
"#;

pub const FAR_BANK_REPORT: &str = r"scan,s1,K,positive,4.990000,5.010000,20.000000,elimination
box,1,4.990000,5.010000,undecided,-,-
region,1,4.990000,5.010000,249.500000,250.500000,0,1,-,-
summary,s1,1,0,0,1,1
end,4
";

/// The same with both methods: the inverse clears the box.
pub const FAR_BANK_BOTH: &str = r#"[study]
version = 1
mva = "100"
method = "both"
[[bus]]
name = "A"
kv = "10"
[[bus]]
name = "K"
kv = "10"
[[source]]
name = "S1"
bus = "K"
r = "0"
x = "1"
[[line]]
name = "L1"
from = "A"
to = "K"
r = "0"
x = "1"
[[bank]]
name = "K1"
bus = "A"
q = "4"
[[scan]]
name = "s1"
bus = "K"
from = "4.99"
to = "5.01"
threshold = "20"
finest = "0.02"
"#;

pub const FAR_BANK_BOTH_REPORT: &str = r"scan,s1,K,positive,4.990000,5.010000,20.000000,both
box,1,4.990000,5.010000,cleared,-,-
summary,s1,1,1,0,0,0
end,0
";

/// Every kind of element, in both networks. Its report was computed by another program.
pub const EVERY_ELEMENT: &str = r#"study = { version = 1, mva = "10" }
bus = [{ name = "INTAKE", kv = "33" }, { name = "MAIN", kv = "11" }, { name = "SHOP", kv = "11" }]
source = [{ name = "GRID", bus = "INTAKE", r = "0.22", x = "2.17", r0 = "0.6", x0 = "5.4" }]
load = [{ name = "D1", bus = "MAIN", model = "cigre", p = 3, q = "1.8" }]

[[line]]
name = "CABLE"
from = "MAIN"
to = "SHOP"
r = "0.15"
x = "0.12"
b = 132
r0 = "0.75"
x0 = "0.36"
b0 = 120
sections = 2
skin_k = "0.5"
skin_m = 50

[[transformer]]
name = "T1"
from = "INTAKE"
to = "MAIN"
mva = 8
r = "0.6"
x = 9
ratio = "1.025"
from_conn = "delta"
to_conn = "grounded"
to_rn = "0.635"
to_xn = "0.1"
skin_k = "0.5"
skin_m = 50

[[filter]]
name = "F5"
bus = "SHOP"
kind = "ctype"
q = "0.8"
order = "4.9"
quality = 2
grounded = true

[[filter]]
name = "F11"
bus = "MAIN"
kind = "highpass"
q = "0.5"
order = 11
quality = 3

[[filter]]
name = "F7"
bus = "MAIN"
kind = "single"
q = "0.4"
order = 7
quality = 30
grounded = true

[[scan]]
name = "shop"
bus = "SHOP"
from = "3.96"
to = "4.02"
threshold = 10
finest = "0.01"
locate = "0.015"

[[scan]]
name = "ground"
bus = "MAIN"
network = "zero"
from = 4
to = "4.03"
threshold = "9.9"
finest = "0.01"
locate = "0.01"

[[scan]]
name = "clear"
bus = "MAIN"
from = 7
to = "7.04"
threshold = 20
finest = "0.01"
"#;

pub const EVERY_ELEMENT_REPORT: &str =
    r"scan,shop,SHOP,positive,3.960000,4.020000,10.000000,elimination
box,1,3.960000,3.967500,undecided,-,-
box,2,3.967500,3.975000,undecided,-,-
box,3,3.975000,3.982500,undecided,-,-
box,4,3.982500,3.990000,undecided,-,-
box,5,3.990000,4.005000,peak,3.997500,10.007842
box,6,4.005000,4.020000,peak,4.012500,10.066202
region,1,3.960000,4.020000,198.000000,201.000000,2,4,4.012500,10.066202
summary,shop,6,0,2,4,1
scan,ground,MAIN,zero,4.000000,4.030000,9.900000,elimination
box,1,4.000000,4.007500,peak,4.003750,9.935897
box,2,4.007500,4.015000,peak,4.011250,9.941557
box,3,4.015000,4.022500,peak,4.018750,9.946545
box,4,4.022500,4.030000,peak,4.026250,9.950857
region,1,4.000000,4.030000,200.000000,201.500000,4,0,4.026250,9.950857
summary,ground,4,0,4,0,1
scan,clear,MAIN,positive,7.000000,7.040000,20.000000,elimination
box,1,7.000000,7.040000,cleared,-,-
summary,clear,1,1,0,0,0
end,3
";

/// An industrial plant behind a transformer, after the header of its study: four feeders, loads, a bank and a filter.
pub const INDUSTRIAL: &str = r#"[[bus]]
name = "GRID"
kv = "132"
[[bus]]
name = "MAIN"
kv = "33"
[[bus]]
name = "F1"
kv = "33"
[[bus]]
name = "F2"
kv = "33"
[[bus]]
name = "F3"
kv = "33"
[[bus]]
name = "F4"
kv = "33"
[[source]]
name = "UTIL"
bus = "GRID"
r = "2"
x = "20"
[[transformer]]
name = "T1"
from = "GRID"
to = "MAIN"
mva = "60"
r = "0.5"
x = "12"
ratio = "1.025"
from_conn = "grounded"
to_conn = "delta"
[[line]]
name = "L1"
from = "MAIN"
to = "F1"
r = "0.6"
x = "1.8"
b = "40"
sections = 2
skin_k = "0.5"
skin_m = "50"
[[line]]
name = "L2"
from = "MAIN"
to = "F2"
r = "0.6"
x = "1.8"
b = "40"
sections = 2
skin_k = "0.5"
skin_m = "50"
[[line]]
name = "L3"
from = "MAIN"
to = "F3"
r = "0.6"
x = "1.8"
b = "40"
sections = 2
skin_k = "0.5"
skin_m = "50"
[[line]]
name = "L4"
from = "MAIN"
to = "F4"
r = "0.6"
x = "1.8"
b = "40"
sections = 2
skin_k = "0.5"
skin_m = "50"
[[load]]
name = "D1"
bus = "F1"
model = "cigre"
p = "6"
q = "2"
[[load]]
name = "D2"
bus = "F2"
model = "cigre"
p = "4"
q = "2"
[[bank]]
name = "K1"
bus = "F3"
q = "5"
[[filter]]
name = "X1"
bus = "F4"
kind = "single"
q = "4"
order = "11"
quality = "40"
[[scan]]
name = "s1"
bus = "F3"
from = "1"
to = "50"
threshold = "400"
finest = "0.01"
locate = "0.05"
[[pcc]]
name = "P1"
bus = "MAIN"
element = "T1"
isc = "6000"
il = "200"
"#;

/// Its headers, with each method, and how its report begins and ends. The numbers of its boxes were computed by two other programs.
pub const INDUSTRIAL_HEADER: &str = "study = { version = 1, mva = 100 }\n";

pub const INDUSTRIAL_FRONT: &str =
    "scan,s1,F3,positive,1.000000,50.000000,400.000000,elimination\nbox,1,1.000000,1.005981,undecided,-,-\n";

pub const INDUSTRIAL_END: &str = "summary,s1,534,518,0,16,1\nend,4\n";

pub const INDUSTRIAL_BOTH_HEADER: &str = "study = { version = 1, mva = 100, method = \"both\" }\n";

pub const INDUSTRIAL_BOTH_FRONT: &str =
    "scan,s1,F3,positive,1.000000,50.000000,400.000000,both\nbox,1,1.000000,1.";

pub const INDUSTRIAL_BOTH_END: &str = "summary,s1,502,502,0,0,0\nend,0\n";

/// Six lines of 64 sections and one of 21: 400 nodes, as many as a network may have.
pub const FULL: &str = r#"study = { version = 1, mva = 100 }
bus = [{ name = "A", kv = 10 }, { name = "K", kv = 10 }]
source = [{ name = "S1", bus = "K", r = 0, x = 1 }]
line = [{ name = "L1", from = "A", to = "K", r = 0, x = 1, sections = 64 }, { name = "L2", from = "A", to = "K", r = 0, x = 1, sections = 64 }, { name = "L3", from = "A", to = "K", r = 0, x = 1, sections = 64 }, { name = "L4", from = "A", to = "K", r = 0, x = 1, sections = 64 }, { name = "L5", from = "A", to = "K", r = 0, x = 1, sections = 64 }, { name = "L6", from = "A", to = "K", r = 0, x = 1, sections = 64 }, { name = "L7", from = "A", to = "K", r = 0, x = 1, sections = 21 }]
"#;
