// Studies of three phases, with reports that another program computed.

/// A load in phase a alone, and a scan of phase b, whose node nothing ties to ground: there no test passes.
pub const NOT_LIVE: &str = r#"study = { version = 1, mva = 100, model = "phases" }
bus = [{ name = "B1", kv = 10 }]
load = [{ name = "D1", bus = "B1", model = "cigre", p = 1, q = 1, phase = "a" }]
scan = [{ name = "s1", bus = "B1", phase = "b", from = 1, to = 2, threshold = 20, finest = 1 }]
"#;

pub const NOT_LIVE_REPORT: &str = r"scan,s1,B1,b,1.000000,2.000000,20.000000,elimination
box,1,1.000000,2.000000,undecided,-,-
region,1,1.000000,2.000000,50.000000,100.000000,0,1,-,-
summary,s1,1,0,0,1,1
end,4
";

/// A source alone: three coupled phases to ground.
pub const SOURCE: &str = r#"study = { version = 1, mva = 100, model = "phases" }
bus = [{ name = "B1", kv = 10 }]
source = [{ name = "S1", bus = "B1", r = 0, x = 1, r0 = 0, x0 = 1 }]
scan = [{ name = "s1", bus = "B1", phase = "a", from = 1, to = 10, threshold = 20, finest = "0.001" }]
"#;

pub const SOURCE_REPORT: &str = r"scan,s1,B1,a,1.000000,10.000000,20.000000,elimination
box,1,1.000000,10.000000,cleared,-,-
summary,s1,1,1,0,0,0
end,0
";
