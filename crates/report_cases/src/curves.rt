// Curves of points.
use study_model::{Curve, CurvePoint};

#[test]
fn curves_of_points(rt: HostRuntime) {
    let low = CurvePoint {
        at: 100_000,
        ohms: 7,
    };
    let high = CurvePoint {
        at: 100_000_000,
        ohms: 7,
    };
    let flat = Curve::flat(7);
    assert_eq!(rt; flat.as_points(), &[low, high][..]);
    assert_eq!(rt; flat, Curve::of_points(&[low, high]));
    let places = (flat.len, flat.points[2], flat.points[15]);
    assert_eq!(rt; places, (2, CurvePoint::NONE, CurvePoint::NONE));
    let full = Curve::of_points(&[high; 16]);
    assert_eq!(rt; (full.len, full.points[15]), (16, high));
}
