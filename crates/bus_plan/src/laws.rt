ghost use Rattle.bus_plan.specs.Laws.{PlanTextIsReadBack, LateDriverIsLawful, LateDriverKeeps};

/// Costs nothing: tells a caller's proof that the text of each plan is read as the same plan.
pub fn plan_text_is_read_back()
    ensures { PlanTextIsReadBack }
{}

/// Costs nothing: tells a caller's proof that a lawful plan stays lawful when a driver comes late.
pub fn late_driver_is_lawful()
    ensures { LateDriverIsLawful }
{}

/// Costs nothing: tells a caller's proof what a driver that comes late leaves as it was.
pub fn late_driver_keeps()
    ensures { LateDriverKeeps }
{}
