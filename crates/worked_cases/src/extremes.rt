// Studies of values at both ends of their ranges, and their reports, which were computed by another program too (tools/oracle).
use crate::compare::assert_reports;
use std::test::Fail;

/// As many ohms as there may be at the least voltage, on the largest base: no interval holds them.
const MOST_OHMS: &str = r#"study = { version = 1, mva = 10000 }
bus = [{ name = "B1", kv = "0.1" }]
source = [{ name = "S1", bus = "B1", r = 0, x = "999999.999999" }]
scan = [{ name = "s1", bus = "B1", from = 1, to = 2, threshold = "999999.999999", finest = 1 }]
"#;

const MOST_OHMS_REPORT: &str = r"scan,s1,B1,positive,1.000000,2.000000,999999.999999,elimination
box,1,1.000000,2.000000,undecided,-,-
region,1,1.000000,2.000000,50.000000,100.000000,0,1,-,-
summary,s1,1,0,0,1,1
end,4
";

/// The same ohms at the greatest voltage, on the least base, over the whole range of orders.
const ALL_ORDERS: &str = r#"study = { version = 1, mva = "0.001", hz = 1000 }
bus = [{ name = "B1", kv = 2000 }]
source = [{ name = "S1", bus = "B1", r = 0, x = "999999.999999" }]
scan = [{ name = "s1", bus = "B1", from = "0.1", to = 100, threshold = "999999.999999", finest = 100 }]
"#;

const ALL_ORDERS_REPORT: &str = r"scan,s1,B1,positive,0.100000,100.000000,999999.999999,elimination
box,1,0.100000,100.000000,peak,50.050000,50049999.827023
region,1,0.100000,100.000000,100.000000,100000.000000,1,0,50.050000,50049999.827023
summary,s1,1,0,1,0,1
end,3
";

/// A threshold of one micro-ohm, whose inverse is below the greatest end of an interval.
const LEAST_THRESHOLD: &str = r#"study = { version = 1, mva = 100 }
bus = [{ name = "B1", kv = 10 }]
source = [{ name = "S1", bus = "B1", r = 0, x = 1 }]
scan = [{ name = "s1", bus = "B1", from = 1, to = 2, threshold = "0.000001", finest = 1 }]
"#;

const LEAST_THRESHOLD_REPORT: &str = r"scan,s1,B1,positive,1.000000,2.000000,0.000001,elimination
box,1,1.000000,2.000000,peak,1.500000,1.499999
region,1,1.000000,2.000000,50.000000,100.000000,1,0,1.500000,1.499999
summary,s1,1,0,1,0,1
end,3
";

/// The same at the finer scale, where it isn't.
const NO_THRESHOLD: &str = r#"study = { version = 1, mva = 100, scale = 48 }
bus = [{ name = "B1", kv = 10 }]
source = [{ name = "S1", bus = "B1", r = 0, x = 1 }]
scan = [{ name = "s1", bus = "B1", from = 1, to = 2, threshold = "0.000001", finest = 1 }]
"#;

const NO_THRESHOLD_REPORT: &str = r"scan,s1,B1,positive,1.000000,2.000000,0.000001,elimination
box,1,1.000000,2.000000,undecided,-,-
region,1,1.000000,2.000000,50.000000,100.000000,0,1,-,-
summary,s1,1,0,0,1,1
end,4
";

#[test]
fn values_at_the_ends_of_their_ranges(rt: HostRuntime) -> Result<(), Fail> {
    let cases = [
        (MOST_OHMS, MOST_OHMS_REPORT, 4),
        (ALL_ORDERS, ALL_ORDERS_REPORT, 3),
        (LEAST_THRESHOLD, LEAST_THRESHOLD_REPORT, 3),
        (NO_THRESHOLD, NO_THRESHOLD_REPORT, 4),
    ];
    assert_reports(&rt, rt.alloc(), &cases)
}
