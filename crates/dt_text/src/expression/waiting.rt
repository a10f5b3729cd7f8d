//! Operators that wait for their second operand while what binds more tightly is read.
ghost use Rattle.std.specs.Prelude.{◌≡◌, ◌≢◌, ◌≤◌, ◌-◌};
ghost use Rattle.dt_text.specs.Expression.ReadingOperators.{joined, joined_up_to, NothingUpTo, SameWait, Waits};

use crate::expression::value::both;
use crate::lexeme::{Fault, Lexeme};

/// An operator, and the value of what stands before it.
#[derive(Clone, Copy)]
pub(crate) struct Begun {
    pub(crate) operator: Lexeme,
    pub(crate) left: Result<u64, Fault>,
}

fn joined(begun: Option<Begun>, right: Result<u64, Fault>) -> Result<u64, Fault>
    ensures { result ≡ joined begun right }
{
    match begun {
        Some(begun) => both(begun.operator, begun.left, right),
        None => right,
    }
}

/// The operators that wait: one of a rank at most, since each ends those before it that bind as tightly or more.
#[derive(Clone, Copy)]
pub(crate) struct Waiting {
    pub(crate) of_rank: [Option<Begun>; 10],
}

impl Waiting {
    pub(crate) fn none() -> Waiting
        ensures { NothingUpTo result.of_rank 10 }
    {
        Waiting {
            of_rank: [None; 10],
        }
    }

    /// Ends those up to this rank with the operand behind them, the tightest first.
    pub(crate) fn end_up_to(&mut self, rank: u8, operand: Result<u64, Fault>) -> Result<u64, Fault>
        requires { rank ≤ 10 }
        ensures value { result ≡ joined_up_to self.old.of_rank rank operand }
        ensures ended { NothingUpTo self.new.of_rank rank }
        ensures others { SameWait (λ k. rank ≤ k) self.old.of_rank self.new.of_rank }
    {
        let mut value = operand;
        for place in 0..rank as usize {
            value = joined(self.of_rank[place], value);
            self.of_rank[place] = None;
        }
        value
    }

    /// Has an operator of this rank wait.
    pub(crate) fn put(&mut self, rank: u8, operator: Lexeme, left: Result<u64, Fault>)
        requires some { 1 ≤ rank }
        requires most { rank ≤ 10 }
        ensures begun { Waits self.new.of_rank (rank - 1) (record { operator = operator; left = left }) }
        ensures others { SameWait (λ k. k ≢ rank - 1) self.old.of_rank self.new.of_rank }
    {
        self.of_rank[rank as usize - 1] = Some(Begun { operator, left });
    }
}
