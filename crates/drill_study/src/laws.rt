// A drill that another program drew, as a contract. No program calls this function, and it takes no memory.
ghost use Rattle.drill_study.specs.Worked.{WorkedDrill};

/// The drill of number 7 has what another program drew for it.
pub fn worked_drill()
    ensures law { WorkedDrill }
{}
