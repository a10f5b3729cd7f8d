//! What the commands `why`, `needs`, `drivers` and `trace` answer, from the bytes of files to text.
#![tactic(auto)]

mod answers;
mod boots;
mod built_in;
mod by_links;
mod causes;
mod chain_text;
mod disabled;
mod end;
mod installed;
mod late;
mod late_waits;
mod link_reasons;
mod order_text;
mod pictures;
mod reasons;
mod rules;
mod shown;
mod waits;
mod without;

pub use answers::{Asked, BoardAnswer, board_answer};
pub use boots::{Boot, boot_bytes};
pub use end::end_of;
pub use installed::{Installed, installed_drivers};
pub use order_text::needs_text;
pub use pictures::{Form, Picture};
pub use reasons::{NoReasons, Reasons};
pub use rules::{Rules, Timeout};
pub use waits::{Waits, why_text};
pub use without::without_driver;
