// What the least of a curve says, as contracts. No program calls this function, and it takes no memory.
ghost use Rattle.threshold_curve.specs.Laws.{LeastIsBelow, LeastIsReached, FlatIsFlat};

/// From one order to another the least of a curve is at most its value at each order, and is its value at one of them. A
/// flat curve has one value.
pub fn least_of_a_curve()
    ensures below { LeastIsBelow }
    ensures reached { LeastIsReached }
    ensures flat { FlatIsFlat }
{}
