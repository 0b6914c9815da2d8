// Studies and spectra of the cases.

/// A coil of one ohm at a bus of 10 kV: one ohm is one per unit.
pub const COIL: &str = r#"study = { version = 1, mva = 100 }
bus = [{ name = "B1", kv = 10 }]
source = [{ name = "S1", bus = "B1", r = 0, x = 1 }]
"#;

/// The same coil with a tenth of an ohm, and a point of common coupling whose ratio of currents is just below 20.
pub const BELOW_20: &str = r#"study = { version = 1, mva = 100 }
bus = [{ name = "B1", kv = 10 }]
source = [{ name = "S1", bus = "B1", r = 0, x = "0.1" }]
pcc = [{ name = "P1", bus = "B1", element = "S1", isc = "49997.5", il = 2500 }]
"#;

/// The same point with a ratio of exactly 20.
pub const AT_20: &str = r#"study = { version = 1, mva = 100 }
bus = [{ name = "B1", kv = 10 }]
source = [{ name = "S1", bus = "B1", r = 0, x = "0.1" }]
pcc = [{ name = "P1", bus = "B1", element = "S1", isc = 50000, il = 2500 }]
"#;

/// A bus behind a delta: the zero sequence has no path there.
pub const BEHIND_A_DELTA: &str = r#"study = { version = 1, mva = 100 }
bus = [{ name = "HV", kv = 10 }, { name = "LV", kv = 10 }]
source = [{ name = "S1", bus = "HV", r = 0, x = 1, r0 = 0, x0 = 1 }]
transformer = [{ name = "T1", from = "HV", to = "LV", mva = 10, r = 0, x = 10, from_conn = "grounded", to_conn = "delta" }]
"#;

pub const NO_TOML: &str = "[study";

/// 100 amperes of order 5.
pub const FIFTH: &str = "order,bus,re,im\n5,B1,100,0\n";

/// The same coil in each of three phases, uncoupled.
pub const COILS: &str = r#"study = { version = 1, mva = 100, model = "phases" }
bus = [{ name = "B1", kv = 10 }]
source = [{ name = "S1", bus = "B1", r = 0, x = 1, r0 = 0, x0 = 1 }]
"#;

/// A load in phase a alone: the other two nodes have no path to ground.
pub const PHASE_A: &str = r#"study = { version = 1, mva = 100, model = "phases" }
bus = [{ name = "B1", kv = 10 }]
load = [{ name = "D1", bus = "B1", model = "cigre", p = 1, q = 1, phase = "a" }]
"#;
