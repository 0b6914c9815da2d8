// Studies of one bus and the reports of their scans, worked by hand.

/// A source's reactance alone stays below the threshold.
pub const BELOW_ITS_THRESHOLD: &str = r#"[study]
version = 1
mva = "100"
[[bus]]
name = "B1"
kv = "10"
[[source]]
name = "S1"
bus = "B1"
r = "0"
x = "1"
[[scan]]
name = "s1"
bus = "B1"
from = "1"
to = "10"
threshold = "20"
finest = "0.001"
"#;

pub const BELOW_ITS_THRESHOLD_REPORT: &str =
    r"scan,s1,B1,positive,1.000000,10.000000,20.000000,elimination
box,1,1.000000,10.000000,cleared,-,-
summary,s1,1,1,0,0,0
end,0
";

/// The same beside a candidate, a tolerance and an outage, which a scan doesn't use, though no bus is live without the source.
pub const VARIANTS: &str = r#"[study]
version = 1
mva = "100"
[[bus]]
name = "B1"
kv = "10"
[[source]]
name = "S1"
bus = "B1"
r = "0"
x = "1"
[[scan]]
name = "s1"
bus = "B1"
from = "1"
to = "10"
threshold = "20"
finest = "0.001"
[[candidate]]
scan = "s1"
sizes = ["0.000001", 4]
[[tolerance]]
element = "S1"
permille = 500
[[outage]]
element = "S1"
"#;

/// Both halves are above a low threshold and at most `locate` wide.
pub const WIDE_PEAKS: &str = r#"[study]
version = 1
mva = "100"
[[bus]]
name = "B1"
kv = "10"
[[source]]
name = "S1"
bus = "B1"
r = "0"
x = "1"
[[scan]]
name = "s1"
bus = "B1"
from = "1"
to = "10"
threshold = "0.5"
finest = "0.001"
locate = "5"
"#;

pub const WIDE_PEAKS_REPORT: &str = r"scan,s1,B1,positive,1.000000,10.000000,0.500000,elimination
box,1,1.000000,5.500000,peak,3.250000,3.249999
box,2,5.500000,10.000000,peak,7.750000,7.749999
region,1,1.000000,10.000000,50.000000,500.000000,2,0,7.750000,7.749999
summary,s1,2,0,2,0,1
end,3
";

/// The same at a frequency with six places, from and to orders with six: hertz are rounded down at a region's low end and up at its high end.
pub const ROUNDED_HERTZ: &str = r#"[study]
version = 1
mva = "100"
hz = "50.000001"
[[bus]]
name = "B1"
kv = "10"
[[source]]
name = "S1"
bus = "B1"
r = "0"
x = "1"
[[scan]]
name = "s1"
bus = "B1"
from = "1.000001"
to = "9.999999"
threshold = "0.5"
finest = "0.001"
locate = "5"
"#;

pub const ROUNDED_HERTZ_REPORT: &str = r"scan,s1,B1,positive,1.000001,9.999999,0.500000,elimination
box,1,1.000001,5.500000,peak,3.250000,3.249999
box,2,5.500000,9.999999,peak,7.749999,7.749998
region,1,1.000001,9.999999,50.000051,499.999960,2,0,7.749999,7.749998
summary,s1,2,0,2,0,1
end,3
";

/// At order 5 the impedance is the threshold itself, which no interval tells from one above it.
pub const AT_ITS_THRESHOLD: &str = r#"[study]
version = 1
mva = "100"
[[bus]]
name = "B1"
kv = "10"
[[source]]
name = "S1"
bus = "B1"
r = "0"
x = "1"
[[scan]]
name = "s1"
bus = "B1"
from = "1"
to = "9"
threshold = "5"
finest = "1"
"#;

pub const AT_ITS_THRESHOLD_REPORT: &str =
    r"scan,s1,B1,positive,1.000000,9.000000,5.000000,elimination
box,1,1.000000,3.000000,cleared,-,-
box,2,3.000000,4.000000,cleared,-,-
box,3,4.000000,5.000000,undecided,-,-
box,4,5.000000,6.000000,peak,5.500000,5.499999
box,5,6.000000,7.000000,peak,6.500000,6.499999
box,6,7.000000,8.000000,peak,7.500000,7.499999
box,7,8.000000,9.000000,peak,8.500000,8.499999
region,1,4.000000,9.000000,200.000000,450.000000,4,1,8.500000,8.499999
summary,s1,7,2,4,1,1
end,3
";

/// A bank resonates with the source at order 5, damped by the source's resistance.
pub const RESONANCE: &str = r#"[study]
version = 1
mva = "100"
[[bus]]
name = "B1"
kv = "10"
[[source]]
name = "S1"
bus = "B1"
r = "0.1"
x = "1"
[[bank]]
name = "K1"
bus = "B1"
q = "4"
[[scan]]
name = "s1"
bus = "B1"
from = "3"
to = "7"
threshold = "20"
finest = "0.125"
locate = "0.5"
"#;

pub const RESONANCE_REPORT: &str = r"scan,s1,B1,positive,3.000000,7.000000,20.000000,elimination
box,1,3.000000,4.000000,cleared,-,-
box,2,4.000000,4.500000,peak,4.500000,23.584458
box,3,4.500000,5.000000,peak,4.750000,47.829051
box,4,5.000000,5.500000,peak,5.250000,50.186343
box,5,5.500000,6.000000,peak,5.500000,26.052232
region,1,4.000000,6.000000,200.000000,300.000000,4,0,5.250000,50.186343
box,6,6.000000,7.000000,cleared,-,-
summary,s1,6,2,4,0,1
end,3
";

/// A second bank behind a line: a report of two regions, with cleared boxes between them. Its report was computed by another program.
pub const TWO_RESONANCES: &str = r#"study = { version = 1, mva = "100" }
bus = [{ name = "B1", kv = "10" }, { name = "B2", kv = "10" }]
source = [{ name = "S1", bus = "B1", r = "0.1", x = "1" }]
line = [{ name = "L1", from = "B1", to = "B2", r = "0.1", x = "2" }]
bank = [{ name = "K1", bus = "B1", q = "4" }, { name = "K2", bus = "B2", q = "6" }]
scan = [{ name = "s1", bus = "B1", from = "2", to = "12", threshold = "20", finest = "0.125", locate = "0.5" }]
"#;

pub const TWO_RESONANCES_REPORT: &str =
    r"scan,s1,B1,positive,2.000000,12.000000,20.000000,elimination
box,1,2.000000,2.078125,cleared,-,-
box,2,2.078125,2.156250,undecided,-,-
box,3,2.156250,2.312500,peak,2.234375,25.717775
box,4,2.312500,2.390625,undecided,-,-
region,1,2.078125,2.390625,103.906250,119.531250,1,2,2.234375,25.717775
box,5,2.390625,2.468750,cleared,-,-
box,6,2.468750,2.625000,cleared,-,-
box,7,2.625000,2.781250,cleared,-,-
box,8,2.781250,2.859375,cleared,-,-
box,9,2.859375,2.937500,cleared,-,-
box,10,2.937500,3.250000,cleared,-,-
box,11,3.250000,4.500000,cleared,-,-
box,12,4.500000,5.750000,cleared,-,-
box,13,5.750000,6.062500,peak,5.906250,22.514059
box,14,6.062500,6.375000,peak,6.218750,66.948738
box,15,6.375000,6.687500,peak,6.531250,74.396307
box,16,6.687500,7.000000,peak,6.843750,25.701695
region,2,5.750000,7.000000,287.500000,350.000000,4,0,6.531250,74.396307
box,17,7.000000,12.000000,cleared,-,-
summary,s1,17,10,5,2,2
end,3
";

/// Its lines, by their numbers.
pub const TWO_RESONANCES_LINES: [(u32, &str); 22] = [
    (
        1,
        "scan,s1,B1,positive,2.000000,12.000000,20.000000,elimination\n",
    ),
    (2, "box,1,2.000000,2.078125,cleared,-,-\n"),
    (3, "box,2,2.078125,2.156250,undecided,-,-\n"),
    (4, "box,3,2.156250,2.312500,peak,2.234375,25.717775\n"),
    (5, "box,4,2.312500,2.390625,undecided,-,-\n"),
    (
        6,
        "region,1,2.078125,2.390625,103.906250,119.531250,1,2,2.234375,25.717775\n",
    ),
    (7, "box,5,2.390625,2.468750,cleared,-,-\n"),
    (8, "box,6,2.468750,2.625000,cleared,-,-\n"),
    (9, "box,7,2.625000,2.781250,cleared,-,-\n"),
    (10, "box,8,2.781250,2.859375,cleared,-,-\n"),
    (11, "box,9,2.859375,2.937500,cleared,-,-\n"),
    (12, "box,10,2.937500,3.250000,cleared,-,-\n"),
    (13, "box,11,3.250000,4.500000,cleared,-,-\n"),
    (14, "box,12,4.500000,5.750000,cleared,-,-\n"),
    (15, "box,13,5.750000,6.062500,peak,5.906250,22.514059\n"),
    (16, "box,14,6.062500,6.375000,peak,6.218750,66.948738\n"),
    (17, "box,15,6.375000,6.687500,peak,6.531250,74.396307\n"),
    (18, "box,16,6.687500,7.000000,peak,6.843750,25.701695\n"),
    (
        19,
        "region,2,5.750000,7.000000,287.500000,350.000000,4,0,6.531250,74.396307\n",
    ),
    (20, "box,17,7.000000,12.000000,cleared,-,-\n"),
    (21, "summary,s1,17,10,5,2,2\n"),
    (22, "end,3\n"),
];

/// The same without resistance: the impedance has a pole at order 5.
pub const SHARP_RESONANCE: &str = r#"[study]
version = 1
mva = "100"
[[bus]]
name = "B1"
kv = "10"
[[source]]
name = "S1"
bus = "B1"
r = "0"
x = "1"
[[bank]]
name = "K1"
bus = "B1"
q = "4"
[[scan]]
name = "s1"
bus = "B1"
from = "4.1"
to = "6.3"
threshold = "1000"
finest = "0.01"
locate = "0.03"
"#;

pub const SHARP_RESONANCE_REPORT: &str =
    r"scan,s1,B1,positive,4.100000,6.300000,1000.000000,elimination
box,1,4.100000,4.650000,cleared,-,-
box,2,4.650000,4.925000,cleared,-,-
box,3,4.925000,4.959375,cleared,-,-
box,4,4.959375,4.976562,cleared,-,-
box,5,4.976562,4.993750,peak,4.993750,1998.749215
box,6,4.993750,5.010937,peak,5.002343,5336.290115
box,7,5.010937,5.028125,peak,5.010937,1144.158018
region,1,4.976562,5.028125,248.828100,251.406250,3,0,5.002343,5336.290115
box,8,5.028125,5.062500,cleared,-,-
box,9,5.062500,5.200000,cleared,-,-
box,10,5.200000,6.300000,cleared,-,-
summary,s1,10,7,3,0,1
end,3
";

/// Boxes of one micro-order, of which the first test clears all.
pub const FINE_BAND: &str = r#"[study]
version = 1
mva = "100"
[[bus]]
name = "B1"
kv = "10"
[[source]]
name = "S1"
bus = "B1"
r = "0"
x = "1"
[[scan]]
name = "s1"
bus = "B1"
from = "1"
to = "1.065536"
threshold = "20"
finest = "0.000001"
"#;

pub const FINE_BAND_REPORT: &str = r"scan,s1,B1,positive,1.000000,1.065536,20.000000,elimination
box,1,1.000000,1.065536,cleared,-,-
summary,s1,1,1,0,0,0
end,0
";

/// A bus whose name has as many bytes as one may have.
pub const LONG_NAME: &str = r#"[study]
version = 1
mva = "100"
[[bus]]
name = "NNNNNNNNNNNNNNNNNNNNNNNNNNNNNNNN"
kv = "10"
[[source]]
name = "S1"
bus = "NNNNNNNNNNNNNNNNNNNNNNNNNNNNNNNN"
r = "0"
x = "1"
[[scan]]
name = "s1"
bus = "NNNNNNNNNNNNNNNNNNNNNNNNNNNNNNNN"
from = "1"
to = "10"
threshold = "20"
finest = "0.001"
"#;

pub const LONG_NAME_REPORT: &str =
    r"scan,s1,NNNNNNNNNNNNNNNNNNNNNNNNNNNNNNNN,positive,1.000000,10.000000,20.000000,elimination
box,1,1.000000,10.000000,cleared,-,-
summary,s1,1,1,0,0,0
end,0
";

/// A source whose impedance in per unit is below one raw unit: nothing is known of it.
pub const NO_INTERVAL: &str = r#"[study]
version = 1
mva = "0.001"
[[bus]]
name = "B1"
kv = "2000"
[[source]]
name = "S1"
bus = "B1"
r = "0"
x = "0.000001"
[[scan]]
name = "s1"
bus = "B1"
from = "1"
to = "2"
threshold = "20"
finest = "1"
"#;

pub const NO_INTERVAL_REPORT: &str = r"scan,s1,B1,positive,1.000000,2.000000,20.000000,elimination
box,1,1.000000,2.000000,undecided,-,-
region,1,1.000000,2.000000,50.000000,100.000000,0,1,-,-
summary,s1,1,0,0,1,1
end,4
";

/// A frequency of 60 Hz changes no order.
pub const SIXTY_HERTZ: &str = r#"[study]
version = 1
mva = "100"
hz = "60"
[[bus]]
name = "B1"
kv = "10"
[[source]]
name = "S1"
bus = "B1"
r = "0"
x = "1"
[[scan]]
name = "s1"
bus = "B1"
from = "1"
to = "10"
threshold = "20"
finest = "0.001"
"#;

/// No scan.
pub const NO_SCAN: &str = r#"[study]
version = 1
mva = "100"
[[bus]]
name = "B1"
kv = "10"
[[source]]
name = "S1"
bus = "B1"
r = "0"
x = "1"
"#;

pub const NO_SCAN_REPORT: &str = "end,0\n";

/// All keys of the study's header, sections that are empty, decimals as whole numbers, and a point of common coupling.
pub const ALL_KEYS: &str = r#"line = []
load = []
filter = []
transformer = []
bank = [{ name = "K1", bus = "B1", q = 4, grounded = true }]
scan = [{ name = "s1", bus = "B1", network = "positive", from = 3, to = 4, threshold = 20, finest = "0.125", locate = "0.5" }]
pcc = [{ name = "P1", bus = "B1", element = "K1", isc = 6000, il = 200 }]

[study]
version = 1
mva = 100
hz = 50
model = "sequence"
scale = 40
method = "elimination"
root3 = "1.732051"

[[bus]]
name = "B1"
kv = 10

[[source]]
name = "S1"
bus = "B1"
r = "0.1"
x = 1
r0 = 0
x0 = 1
skin_k = 0
skin_m = 1
"#;

pub const ALL_KEYS_REPORT: &str = r"scan,s1,B1,positive,3.000000,4.000000,20.000000,elimination
box,1,3.000000,4.000000,cleared,-,-
summary,s1,1,1,0,0,0
end,0
";

/// A scan that is cleared, and one that is undecided: at order 5 the impedance is the threshold itself.
pub const CLEARED_AND_UNDECIDED: &str = r#"study = { version = 1, mva = "100" }
bus = [{ name = "B1", kv = "10" }]
source = [{ name = "S1", bus = "B1", r = "0", x = "1" }]
scan = [
    { name = "s1", bus = "B1", from = "1", to = "3", threshold = "5", finest = "1" },
    { name = "s2", bus = "B1", from = "4", to = "5", threshold = "5", finest = "1" },
]
"#;

pub const CLEARED_AND_UNDECIDED_REPORT: &str =
    r"scan,s1,B1,positive,1.000000,3.000000,5.000000,elimination
box,1,1.000000,3.000000,cleared,-,-
summary,s1,1,1,0,0,0
scan,s2,B1,positive,4.000000,5.000000,5.000000,elimination
box,1,4.000000,5.000000,undecided,-,-
region,1,4.000000,5.000000,200.000000,250.000000,0,1,-,-
summary,s2,1,0,0,1,1
end,4
";

/// A scan with a peak before one that is undecided and one that is cleared.
pub const PEAK_AND_OTHERS: &str = r#"study = { version = 1, mva = "100" }
bus = [{ name = "B1", kv = "10" }]
source = [{ name = "S1", bus = "B1", r = "0", x = "1" }]
scan = [
    { name = "s1", bus = "B1", from = "5", to = "6", threshold = "5", finest = "1" },
    { name = "s2", bus = "B1", from = "4", to = "5", threshold = "5", finest = "1" },
    { name = "s3", bus = "B1", from = "1", to = "3", threshold = "5", finest = "1" },
]
"#;

pub const PEAK_AND_OTHERS_REPORT: &str =
    r"scan,s1,B1,positive,5.000000,6.000000,5.000000,elimination
box,1,5.000000,6.000000,peak,5.500000,5.499999
region,1,5.000000,6.000000,250.000000,300.000000,1,0,5.500000,5.499999
summary,s1,1,0,1,0,1
scan,s2,B1,positive,4.000000,5.000000,5.000000,elimination
box,1,4.000000,5.000000,undecided,-,-
region,1,4.000000,5.000000,200.000000,250.000000,0,1,-,-
summary,s2,1,0,0,1,1
scan,s3,B1,positive,1.000000,3.000000,5.000000,elimination
box,1,1.000000,3.000000,cleared,-,-
summary,s3,1,1,0,0,0
end,3
";

/// The zero network, in which the source has its own reactance.
pub const ZERO_NETWORK: &str = r#"[study]
version = 1
mva = "100"
[[bus]]
name = "B1"
kv = "10"
[[source]]
name = "S1"
bus = "B1"
r = "0"
x = "1"
r0 = "0"
x0 = "1"
[[scan]]
name = "s1"
bus = "B1"
from = "1"
to = "10"
threshold = "20"
finest = "0.001"
network = "zero"
"#;

pub const ZERO_NETWORK_REPORT: &str = r"scan,s1,B1,zero,1.000000,10.000000,20.000000,elimination
box,1,1.000000,10.000000,cleared,-,-
summary,s1,1,1,0,0,0
end,0
";

/// The finer scale.
pub const FINER_SCALE: &str = r#"[study]
version = 1
mva = "100"
scale = 48
[[bus]]
name = "B1"
kv = "10"
[[source]]
name = "S1"
bus = "B1"
r = "0"
x = "1"
[[scan]]
name = "s1"
bus = "B1"
from = "1"
to = "10"
threshold = "20"
finest = "0.001"
"#;

/// Two sources, one with skin effect, a load of each model, and a bank. The reports from here on were computed by another program.
pub const MANY_ELEMENTS: &str = r#"study = { version = 1, mva = "100" }
bus = [{ name = "B1", kv = "10" }]
source = [
    { name = "S1", bus = "B1", r = "0.1", x = "1" },
    { name = "S2", bus = "B1", r = "0.2", x = "2", skin_k = "0.5", skin_m = "50" },
]
load = [
    { name = "D1", bus = "B1", model = "cigre", p = "4", q = "2" },
    { name = "D2", bus = "B1", model = "parallel", p = "10", q = "5" },
    { name = "D3", bus = "B1", model = "series", r = "50", x = "20" },
]
bank = [{ name = "K1", bus = "B1", q = "4" }]
scan = [
    { name = "s1", bus = "B1", from = "3", to = "9", threshold = "4", finest = "0.125", locate = "0.5" },
]
"#;

pub const MANY_ELEMENTS_REPORT: &str = r"scan,s1,B1,positive,3.000000,9.000000,4.000000,elimination
box,1,3.000000,4.500000,cleared,-,-
box,2,4.500000,4.875000,peak,4.687500,4.215876
box,3,4.875000,5.250000,peak,5.062500,4.869766
box,4,5.250000,5.625000,peak,5.437500,5.570402
box,5,5.625000,6.000000,peak,5.812500,6.259314
box,6,6.000000,6.375000,peak,6.187500,6.834627
box,7,6.375000,6.750000,peak,6.562500,7.177857
box,8,6.750000,7.125000,peak,6.937500,7.220206
box,9,7.125000,7.500000,peak,7.312500,6.989944
box,10,7.500000,7.875000,peak,7.687500,6.584443
box,11,7.875000,8.250000,peak,8.062500,6.105589
box,12,8.250000,8.625000,peak,8.437500,5.623007
box,13,8.625000,9.000000,peak,8.812500,5.172439
region,1,4.500000,9.000000,225.000000,450.000000,12,0,6.937500,7.220206
summary,s1,13,1,12,0,1
end,3
";

/// In the zero network a load that isn't grounded is open, and so is a source without r0 and x0.
pub const GROUNDED_ELEMENTS: &str = r#"study = { version = 1, mva = "100" }
bus = [{ name = "B1", kv = "10" }]
source = [
    { name = "S1", bus = "B1", r = "0.1", x = "1", r0 = "0.3", x0 = "3" },
    { name = "S2", bus = "B1", r = "0.2", x = "2" },
]
load = [
    { name = "D1", bus = "B1", model = "cigre", p = "4", q = "2", grounded = true },
    { name = "D2", bus = "B1", model = "parallel", p = "10", q = "5" },
]
bank = [{ name = "K1", bus = "B1", q = "4", grounded = true }]
scan = [
    { name = "s1", bus = "B1", network = "zero", from = "1", to = "6", threshold = "15", finest = "0.125", locate = "0.5" },
]
"#;

pub const GROUNDED_ELEMENTS_REPORT: &str = r"scan,s1,B1,zero,1.000000,6.000000,15.000000,elimination
box,1,1.000000,2.250000,cleared,-,-
box,2,2.250000,2.562500,cleared,-,-
box,3,2.562500,2.875000,peak,2.875000,16.154796
box,4,2.875000,3.187500,peak,3.031250,19.123869
box,5,3.187500,3.500000,peak,3.343750,24.264940
box,6,3.500000,3.812500,peak,3.656250,23.167592
box,7,3.812500,4.125000,peak,3.968750,18.403755
box,8,4.125000,4.437500,peak,4.125000,16.252985
region,1,2.562500,4.437500,128.125000,221.875000,6,0,3.343750,24.264940
box,9,4.437500,4.750000,cleared,-,-
box,10,4.750000,6.000000,cleared,-,-
summary,s1,10,4,6,0,1
end,3
";

/// Two buses of different voltages, each with its own source, and a scan at each.
pub const TWO_BUSES: &str = r#"study = { version = 1, mva = "100" }
bus = [{ name = "B1", kv = "10" }, { name = "MAIN", kv = "33" }]
source = [
    { name = "S1", bus = "B1", r = "0", x = "1" },
    { name = "S2", bus = "MAIN", r = "0.5", x = "6" },
]
bank = [{ name = "K1", bus = "MAIN", q = "6" }]
scan = [
    { name = "s1", bus = "B1", from = "1", to = "10", threshold = "20", finest = "0.001" },
    { name = "s2", bus = "MAIN", from = "5", to = "6", threshold = "1500", finest = "0.001", locate = "0.02" },
]
"#;

pub const TWO_BUSES_REPORT: &str = r"scan,s1,B1,positive,1.000000,10.000000,20.000000,elimination
box,1,1.000000,10.000000,cleared,-,-
summary,s1,1,1,0,0,0
scan,s2,MAIN,positive,5.000000,6.000000,1500.000000,elimination
box,1,5.000000,5.250000,cleared,-,-
box,2,5.250000,5.375000,cleared,-,-
box,3,5.375000,5.437500,cleared,-,-
box,4,5.437500,5.453125,cleared,-,-
box,5,5.453125,5.468750,peak,5.460937,1586.450756
box,6,5.468750,5.484375,peak,5.476562,1897.524765
box,7,5.484375,5.500000,peak,5.492187,2140.885631
box,8,5.500000,5.515625,peak,5.507812,2140.996825
box,9,5.515625,5.531250,peak,5.523437,1899.485098
box,10,5.531250,5.546875,peak,5.539062,1591.744273
region,1,5.453125,5.546875,272.656250,277.343750,6,0,5.507812,2140.996825
box,11,5.546875,5.562500,cleared,-,-
box,12,5.562500,5.625000,cleared,-,-
box,13,5.625000,5.750000,cleared,-,-
box,14,5.750000,6.000000,cleared,-,-
summary,s2,14,8,6,0,1
end,3
";

/// A source with resistance and a band in which a bank may resonate with it.
pub const NO_BANK: &str = r#"study = { version = 1, mva = "100" }
bus = [{ name = "B1", kv = "10" }]
source = [{ name = "S1", bus = "B1", r = "0.1", x = "1" }]
scan = [{ name = "s1", bus = "B1", from = "3", to = "7", threshold = "20", finest = "0.125", locate = "0.5" }]
"#;

/// Two sizes of a bank there.
pub const TWO_SIZES: &str = "candidate = [{ scan = \"s1\", sizes = [\"4\", \"0.5\"] }]\n";

pub const TWO_SIZES_LINES: [(u32, &str); 5] = [
    (1, "candidate,s1,B1,3.000000,7.000000,20.000000\n"),
    (2, "size,1,4.000000,2,4,0\n"),
    (3, "size,2,0.500000,1,0,0\n"),
    (4, "first,s1,0.500000\n"),
    (5, "end,0\n"),
];

/// A source whose reactance alone stays below a threshold by a twentieth.
pub const TOLERANT: &str = r#"study = { version = 1, mva = "100" }
bus = [{ name = "B1", kv = "10" }]
source = [{ name = "S1", bus = "B1", r = "0", x = "1" }]
scan = [{ name = "s1", bus = "B1", from = "1", to = "10", threshold = "10.5", finest = "9" }]
tolerance = [{ element = "S1", permille = 100 }]
"#;

/// Within a tenth it doesn't.
pub const TOLERANT_LINES: [(u32, &str); 6] = [
    (1, "tolerance,1\n"),
    (
        2,
        "scan,s1,B1,positive,1.000000,10.000000,10.500000,elimination\n",
    ),
    (3, "box,1,1.000000,10.000000,undecided,-,-\n"),
    (
        4,
        "region,1,1.000000,10.000000,50.000000,500.000000,0,1,-,-\n",
    ),
    (5, "summary,s1,1,0,0,1,1\n"),
    (6, "end,4\n"),
];

/// A source and a bank, each of which feeds the bus alone.
pub const TWO_OUTAGES: &str = r#"study = { version = 1, mva = "100" }
bus = [{ name = "B1", kv = "10" }]
source = [{ name = "S1", bus = "B1", r = "0.1", x = "1" }]
bank = [{ name = "K1", bus = "B1", q = "4" }]
scan = [{ name = "s1", bus = "B1", from = "3", to = "7", threshold = "20", finest = "0.125", locate = "0.5" }]
outage = [{ element = "K1" }, { element = "S1" }]
"#;

pub const TWO_OUTAGES_LINES: [(u32, &str); 6] = [
    (1, "outage,1,K1,fed\n"),
    (2, "case,1,s1,1,1,0,0,-,-\n"),
    (3, "outage,2,S1,fed\n"),
    (4, "case,2,s1,1,1,0,0,-,-\n"),
    (5, "envelope,s1,2,2,0,0\n"),
    (6, "end,0\n"),
];

/// The three rows of the drill 7. Another program computed the summary.
pub const DRILL_7_LINES: [(u32, &str); 3] = [
    (1, "drill,7,120\n"),
    (2, "summary,s1,256,0,0,256,1\n"),
    (3, "end,4\n"),
];
