// Studies by the method branchwise, with reports that two other programs computed.

/// A coil of h ohms, below its threshold throughout.
pub const COIL_BELOW: &str = r#"study = { version = 1, mva = 100, method = "branchwise" }
bus = [{ name = "B1", kv = 10 }]
source = [{ name = "S1", bus = "B1", r = 0, x = 1 }]
scan = [{ name = "s1", bus = "B1", from = 1, to = 10, threshold = 20, finest = "0.001" }]
"#;

pub const COIL_BELOW_REPORT: &str = r"scan,s1,B1,positive,1.000000,10.000000,20.000000,branchwise
box,1,1.000000,10.000000,cleared,-,-
summary,s1,1,1,0,0,0
end,0
";

/// The same coil, above it throughout.
pub const COIL_ABOVE: &str = r#"study = { version = 1, mva = 100, method = "branchwise" }
bus = [{ name = "B1", kv = 10 }]
source = [{ name = "S1", bus = "B1", r = 0, x = 1 }]
scan = [{ name = "s1", bus = "B1", from = 1, to = 10, threshold = "0.5", finest = "0.001", locate = 5 }]
"#;

pub const COIL_ABOVE_REPORT: &str = r"scan,s1,B1,positive,1.000000,10.000000,0.500000,branchwise
box,1,1.000000,5.500000,peak,3.250000,3.249999
box,2,5.500000,10.000000,peak,7.750000,7.749999
region,1,1.000000,10.000000,50.000000,500.000000,2,0,7.750000,7.749999
summary,s1,2,0,2,0,1
end,3
";

/// And on both sides of it.
pub const COIL_CROSSING: &str = r#"study = { version = 1, mva = 100, method = "branchwise" }
bus = [{ name = "B1", kv = 10 }]
source = [{ name = "S1", bus = "B1", r = 0, x = 1 }]
scan = [{ name = "s1", bus = "B1", from = 1, to = 9, threshold = 5, finest = 1 }]
"#;

pub const COIL_CROSSING_REPORT: &str = r"scan,s1,B1,positive,1.000000,9.000000,5.000000,branchwise
box,1,1.000000,3.000000,cleared,-,-
box,2,3.000000,4.000000,cleared,-,-
box,3,4.000000,5.000000,undecided,-,-
box,4,5.000000,6.000000,peak,5.500000,5.499999
box,5,6.000000,7.000000,peak,6.500000,6.499999
box,6,7.000000,8.000000,peak,7.500000,7.499999
box,7,8.000000,9.000000,peak,8.500000,8.499999
region,1,4.000000,9.000000,200.000000,450.000000,4,1,8.500000,8.499999
summary,s1,7,2,4,1,1
end,3
";

/// A coil with a bank, which resonate at the order 5.
pub const RESONANCE: &str = r#"study = { version = 1, mva = 100, method = "branchwise" }
bus = [{ name = "B1", kv = 10 }]
source = [{ name = "S1", bus = "B1", r = "0.1", x = 1 }]
bank = [{ name = "K1", bus = "B1", q = 4 }]
scan = [{ name = "s1", bus = "B1", from = 3, to = 7, threshold = 20, finest = "0.125", locate = "0.5" }]
"#;

pub const RESONANCE_REPORT: &str = r"scan,s1,B1,positive,3.000000,7.000000,20.000000,branchwise
box,1,3.000000,4.000000,cleared,-,-
box,2,4.000000,4.500000,peak,4.500000,23.584458
box,3,4.500000,5.000000,peak,4.750000,47.829051
box,4,5.000000,5.500000,peak,5.250000,50.186343
box,5,5.500000,6.000000,peak,5.500000,26.052232
region,1,4.000000,6.000000,200.000000,300.000000,4,0,5.250000,50.186343
box,6,6.000000,7.000000,cleared,-,-
summary,s1,6,2,4,0,1
end,3
";

/// The same without a resistance, in narrower boxes.
pub const SHARP: &str = r#"study = { version = 1, mva = 100, method = "branchwise" }
bus = [{ name = "B1", kv = 10 }]
source = [{ name = "S1", bus = "B1", r = 0, x = 1 }]
bank = [{ name = "K1", bus = "B1", q = 4 }]
scan = [{ name = "s1", bus = "B1", from = "4.1", to = "6.3", threshold = 1000, finest = "0.01", locate = "0.03" }]
"#;

pub const SHARP_REPORT: &str = r"scan,s1,B1,positive,4.100000,6.300000,1000.000000,branchwise
box,1,4.100000,4.650000,cleared,-,-
box,2,4.650000,4.925000,cleared,-,-
box,3,4.925000,4.959375,cleared,-,-
box,4,4.959375,4.976562,cleared,-,-
box,5,4.976562,4.993750,peak,4.993750,1998.749215
box,6,4.993750,5.010937,peak,5.002343,5336.290115
box,7,5.010937,5.028125,peak,5.010937,1144.158018
region,1,4.976562,5.028125,248.828100,251.406250,3,0,5.002343,5336.290115
box,8,5.028125,5.062500,cleared,-,-
box,9,5.062500,5.200000,cleared,-,-
box,10,5.200000,6.300000,cleared,-,-
summary,s1,10,7,3,0,1
end,3
";

/// A filter, about the order to which it is tuned, and where it resonates with the source.
pub const FILTERED: &str = r#"study = { version = 1, mva = 100, method = "branchwise" }
bus = [{ name = "B1", kv = 10 }]
source = [{ name = "S1", bus = "B1", r = 0, x = 1 }]
filter = [{ name = "F1", bus = "B1", kind = "single", q = 4, order = 5, quality = 50 }]
scan = [{ name = "s1", bus = "B1", from = "4.8", to = "5.2", threshold = 2, finest = "0.001" }, { name = "s2", bus = "B1", from = "3.4", to = "3.6", threshold = 20, finest = "0.001", locate = "0.2" }]
"#;

pub const FILTERED_REPORT: &str = r"scan,s1,B1,positive,4.800000,5.200000,2.000000,branchwise
box,1,4.800000,5.200000,cleared,-,-
summary,s1,1,1,0,0,0
scan,s2,B1,positive,3.400000,3.600000,20.000000,branchwise
box,1,3.400000,3.600000,peak,3.500000,73.143992
region,1,3.400000,3.600000,170.000000,180.000000,1,0,3.500000,73.143992
summary,s2,1,0,1,0,1
end,3
";

/// A bank behind a line: at the order 5 the admittance at node A is zero.
pub const FAR: &str = r#"study = { version = 1, mva = 100, method = "branchwise" }
bus = [{ name = "A", kv = 10 }, { name = "K", kv = 10 }]
source = [{ name = "S1", bus = "K", r = 0, x = 1 }]
line = [{ name = "L1", from = "A", to = "K", r = 0, x = 1 }]
bank = [{ name = "K1", bus = "A", q = 4 }]
scan = [{ name = "s1", bus = "K", from = "4.99", to = "5.01", threshold = 20, finest = "0.02" }]
"#;

pub const FAR_REPORT: &str = r"scan,s1,K,positive,4.990000,5.010000,20.000000,branchwise
box,1,4.990000,5.010000,cleared,-,-
summary,s1,1,1,0,0,0
end,0
";

/// The headers of the industrial plant of `networks`, at each scale, and its report at both.
pub const PLANT_HEADERS: [&str; 2] = [
    "study = { version = 1, mva = 100, method = \"branchwise\" }\n",
    "study = { version = 1, mva = 100, scale = 48, method = \"branchwise\" }\n",
];

pub const PLANT_REPORT: &str = r"scan,s1,F3,positive,1.000000,50.000000,400.000000,branchwise
box,1,1.000000,1.765625,cleared,-,-
box,2,1.765625,2.531250,cleared,-,-
box,3,2.531250,4.062500,cleared,-,-
box,4,4.062500,4.828125,cleared,-,-
box,5,4.828125,5.019531,cleared,-,-
box,6,5.019531,5.210937,cleared,-,-
box,7,5.210937,5.402343,cleared,-,-
box,8,5.402343,5.593750,cleared,-,-
box,9,5.593750,6.359375,cleared,-,-
box,10,6.359375,7.125000,cleared,-,-
box,11,7.125000,8.656250,cleared,-,-
box,12,8.656250,9.039062,cleared,-,-
box,13,9.039062,9.134765,cleared,-,-
box,14,9.134765,9.230468,cleared,-,-
box,15,9.230468,9.326171,cleared,-,-
box,16,9.326171,9.421875,cleared,-,-
box,17,9.421875,9.517578,cleared,-,-
box,18,9.517578,9.613281,cleared,-,-
box,19,9.613281,9.804687,cleared,-,-
box,20,9.804687,10.187500,cleared,-,-
box,21,10.187500,10.570312,cleared,-,-
box,22,10.570312,10.761718,cleared,-,-
box,23,10.761718,10.953125,cleared,-,-
box,24,10.953125,11.144531,cleared,-,-
box,25,11.144531,11.335937,cleared,-,-
box,26,11.335937,11.718750,cleared,-,-
box,27,11.718750,13.250000,cleared,-,-
box,28,13.250000,19.375000,cleared,-,-
box,29,19.375000,25.500000,cleared,-,-
box,30,25.500000,37.750000,cleared,-,-
box,31,37.750000,50.000000,cleared,-,-
summary,s1,31,31,0,0,0
end,0
";
