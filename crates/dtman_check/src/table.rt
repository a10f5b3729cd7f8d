//! dtc's checks as one table: names, severities, prerequisites; what each finds; which are made and what they tell.

mod check;
mod finding;
mod finding_all;
mod looking;
mod near;
mod reference;
mod rule;
mod run;
mod selection;
mod subject;
mod table;
mod units;
mod unknown;

pub use check::{Among, Check, Finds, Listed, Severity};
pub use finding::Finding;
pub use finding_all::find;
pub use near::is_near;
pub use reference::{BadReference, Reference, Row, RowRange, list_of};
pub use rule::{LinkRule, PropertyRule, Rule};
pub use run::{Report, run_checks};
pub use selection::{Change, Kind, Least, Level, Selection};
pub use subject::Subject;
pub use table::{CHECK_COUNT, DTC_COUNT, UNKNOWN_PROPERTY, check_at};
pub use units::{Counted, find_units};
pub use unknown::find_unknown;
