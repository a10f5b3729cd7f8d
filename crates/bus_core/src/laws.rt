//! The laws of the bus, over all plans, states and events.

ghost use Rattle.bus_core.specs.Laws.{EventsKeepHistory, DriversStay, HistoryStays, LeastGrows, QuietIsLeast, SuppliersComeFirst, QuietReportIsTheEnd, EndReportIsOne, ReplayIsAfter, ReplayKeepsHistory, ReplayGoesOn, ReplayStops};

/// Every list of begins, finishes, abandons and late drivers leads to a history of the sequential bus.
pub fn events_keep_history()
    ensures { EventsKeepHistory }
{}

/// No device gets two drivers: one that it has stays, whatever begins, finishes, is abandoned or is registered.
pub fn drivers_stay()
    ensures { DriversStay }
{}

/// A history of the sequential bus stays one when a driver comes late.
pub fn history_stays()
    ensures { HistoryStays }
{}

/// The least set after a late driver has each device of the least set before it.
pub fn least_grows()
    ensures { LeastGrows }
{}

/// Where nothing is due or in flight after a history of the sequential bus, the bound devices are the least set that is
/// closed under matching with all suppliers bound.
pub fn quiet_is_least()
    ensures { QuietIsLeast }
{}

/// In a history of the sequential bus the suppliers of a device are bound before it.
pub fn suppliers_come_first()
    ensures { SuppliersComeFirst }
{}

/// Where nothing is due or in flight after a history of the sequential bus, the report is the end report of the plan.
pub fn quiet_report_is_the_end()
    ensures { QuietReportIsTheEnd }
{}

/// All end reports of a plan are one text.
pub fn end_report_is_one()
    ensures { EndReportIsOne }
{}

/// A replay that isn't refused leads where the library's events lead, each finish by the ticket of its device's flight.
pub fn replay_is_after()
    ensures { ReplayIsAfter }
{}

/// The settled devices of a replay are a history of the sequential bus.
pub fn replay_keeps_history()
    ensures { ReplayKeepsHistory }
{}

/// One event more is the step of that event, or is refused as that event is.
pub fn replay_goes_on()
    ensures { ReplayGoesOn }
{}

/// A refused replay stays refused, by the same event.
pub fn replay_stops()
    ensures { ReplayStops }
{}
