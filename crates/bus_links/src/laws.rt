//! Laws of plans by links, as functions: what each ensures is the law.
ghost use Rattle.bus_links.specs.Laws.{NoCycleIsLeft};

/// With the relaxed links out no cycle is left.
pub fn no_cycle_is_left()
    ensures { NoCycleIsLeft }
{}
