//! What a settle brings with it.

ghost use Rattle.std.specs.Prelude.{◌≡◌, ◌≤◌, ◌+◌, ◌++◌, [], if◌then◌else◌, length, vec_len, vec_capacity};
ghost use Rattle.bus_core.specs.History.{outcome_by, is_bound};
ghost use Rattle.bus_core.specs.Step.{settled_reply};

use bus_core::{Outcome, Reply};
use bus_plan::{Device, Verdict};

/// The outcome of a device that saw all of its suppliers bound.
pub fn outcome_by(verdict: Verdict) -> Outcome
    ensures { result ≡ outcome_by verdict }
{
    match verdict {
        Verdict::Binds => Outcome::Bound,
        Verdict::Fails => Outcome::Failed,
    }
}

/// What the settle is answered with.
pub fn reply_of(outcome: Outcome) -> Reply
    ensures { result ≡ settled_reply outcome }
{
    match outcome {
        Outcome::Bound => Reply::Bound,
        Outcome::Failed => Reply::Failed,
    }
}

/// Owes these consumers, where their supplier is bound.
pub fn owe(owed: &mut Vec<Device>, outcome: Outcome, consumers: &[Device])
    requires { vec_len owed.old + length consumers.now ≤ vec_capacity owed.old }
    ensures items { owed.new.items ≡ owed.old.items ++ (if is_bound outcome then consumers.now else []) }
{
    match outcome {
        Outcome::Bound => {
            for consumer in consumers {
                owed.push_reserved(*consumer);
            }
        }
        Outcome::Failed => {}
    }
}
