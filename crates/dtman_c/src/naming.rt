//! The names of faults.
ghost use Rattle.dtman_c.specs.Naming.{IsNameGiven};

use crate::answer::{Answer, put, unnamed};
use dtman_engine::explain;

/// The name of the fault with a number.
#[unsafe(no_mangle)]
pub extern "C" fn dtman_name(number: u32, out: &mut [u8]) -> Answer
    ensures { IsNameGiven number out.old out.new result }
{
    if number > 255 {
        return unnamed();
    }
    match explain(number as u8) {
        Some(explanation) => put(explanation.name.as_bytes(), out),
        None => unnamed(),
    }
}
