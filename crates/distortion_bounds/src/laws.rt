// What bounds say of distortion, as contracts. No program calls these functions.
ghost use Rattle.distortion_bounds.specs.Laws.{VoltageIsBounded, CurrentIsBounded, TotalVoltageIsBounded, TotalCurrentIsBounded};

/// The distortion of a voltage or of a current whose squares are held lies between its bounds, and the total distortion of several between those
/// of the total.
pub fn distortion_is_bounded()
    ensures voltage { VoltageIsBounded }
    ensures current { CurrentIsBounded }
    ensures total_voltage { TotalVoltageIsBounded }
    ensures total_current { TotalCurrentIsBounded }
{}
