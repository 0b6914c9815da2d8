// Studies of version 2 and the reports of their scans, worked by hand.

/// The same threshold at both ends of the band: the boxes are those of a study of version 1.
pub const LEVEL: &str = r#"[study]
version = 2
mva = "100"
[[bus]]
name = "B1"
kv = "10"
[[source]]
name = "S1"
bus = "B1"
r = "0"
x = "1"
[[scan]]
name = "s1"
bus = "B1"
from = "1"
to = "10"
curve_at = ["1", "10"]
curve_ohms = ["20", "20"]
finest = "0.001"
"#;

pub const LEVEL_REPORT: &str = r"scan,s1,B1,positive,1.000000,10.000000,curve,elimination
box,1,1.000000,10.000000,cleared,-,-
summary,s1,1,1,0,0,0
end,0
";

/// A threshold of twice the order, where the impedance is the order: a box is cleared where its high end is at most twice its low end.
pub const RISING: &str = r#"[study]
version = 2
mva = "100"
[[bus]]
name = "B1"
kv = "10"
[[source]]
name = "S1"
bus = "B1"
r = "0"
x = "1"
[[scan]]
name = "s1"
bus = "B1"
from = "1"
to = "10"
curve_at = ["1", "10"]
curve_ohms = ["2", "20"]
finest = "0.001"
"#;

pub const RISING_REPORT: &str = r"scan,s1,B1,positive,1.000000,10.000000,curve,elimination
box,1,1.000000,1.562500,cleared,-,-
box,2,1.562500,2.125000,cleared,-,-
box,3,2.125000,3.250000,cleared,-,-
box,4,3.250000,5.500000,cleared,-,-
box,5,5.500000,10.000000,cleared,-,-
summary,s1,5,5,0,0,0
end,0
";
