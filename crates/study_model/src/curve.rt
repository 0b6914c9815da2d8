// The threshold of a scan over the orders.
ghost use Rattle.study_model.specs.Curve.{curve_points, curve_of, flat_points, IsLaidOut};

/// The most points of a curve, which has at least two.
pub const MAX_CURVE_POINTS: usize = 16;

/// A point of a threshold curve: an order, and the ohms at it, both in millionths.
#[derive(Clone, Copy, Debug, PartialEq, Eq)]
pub struct CurvePoint {
    pub at: u32,
    pub ohms: u64,
}

impl CurvePoint {
    /// What stands in the places of a curve that have no point.
    pub const NONE: CurvePoint = CurvePoint { at: 0, ohms: 0 };
}

/// A threshold over the orders: its first `len` points, with straight lines between them, and none after them.
#[derive(Clone, Copy, Debug, PartialEq, Eq)]
pub struct Curve {
    pub len: u8,
    pub points: [CurvePoint; MAX_CURVE_POINTS],
}

impl Curve {
    ghost use Rattle.std.specs.Prelude.{◌≡◌, ◌≤◌, length};

    /// The curve's points.
    pub fn as_points(&self) -> &[CurvePoint]
        requires { IsLaidOut self.now }
        ensures { result.now ≡ curve_points self.now }
    {
        &self.points[..self.len as usize]
    }

    /// The curve of these points.
    #[tactic(auto, using(crate::proofs::Curves::none_left))]
    pub fn of_points(points: &[CurvePoint]) -> Curve
        requires { length points.now ≤ MAX_CURVE_POINTS }
        ensures { result ≡ curve_of points.now }
    {
        let mut places = [CurvePoint::NONE; MAX_CURVE_POINTS];
        places[..points.len()].copy_from_slice(points);
        Curve {
            len: points.len() as u8,
            points: places,
        }
    }

    /// The curve with the same ohms, in millionths, at every order of a band: from 0.1 to 100.
    pub fn flat(ohms: u64) -> Curve
        ensures is { result ≡ curve_of (flat_points ohms) }
        ensures laid_out { IsLaidOut result }
        ensures points { curve_points result ≡ flat_points ohms }
    {
        Curve::of_points(&[
            CurvePoint { at: 100_000, ohms },
            CurvePoint {
                at: 100_000_000,
                ohms,
            },
        ])
    }
}
