// The ends of the ranges of a study's decimals.
use fixed_decimal::Decimal;
use study_model::Range;

#[test]
fn ends_of_ranges(rt: HostRuntime) {
    let table = [
        (Range::ORDINARY, "0", "999999.999999"),
        (Range::ABOVE_ZERO, "0.000001", "999999.999999"),
        (Range::BASE_MVA, "0.001", "10000"),
        (Range::HERTZ, "1", "1000"),
        (Range::ROOT3, "1.7", "1.8"),
        (Range::BUS_KV, "0.1", "2000"),
        (Range::SKIN_K, "0", "100"),
        (Range::SKIN_M, "0.000001", "5000"),
        (Range::RESISTANCE_PERCENT, "0", "100"),
        (Range::REACTANCE_PERCENT, "0.000001", "100"),
        (Range::RATIO, "0.5", "2"),
        (Range::TUNED_ORDER, "1.000001", "100"),
        (Range::QUALITY, "0.1", "1000"),
        (Range::BAND, "0.1", "100"),
        (Range::FINEST, "0.000001", "100"),
        (Range::LOCATE, "0", "100"),
        (Range::AMPERES, "1", "999999.999999"),
    ];
    for (range, low, high) in table {
        let ends = (Decimal::parse(low), Decimal::parse(high));
        let wanted = (
            Ok(Decimal {
                millionths: range.low,
            }),
            Ok(Decimal {
                millionths: range.high,
            }),
        );
        assert_eq!(rt; ends, wanted, "{low} to {high}");
    }
}
