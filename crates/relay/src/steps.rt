ghost use Rattle.std.specs.Prelude.{◌≡◌, OnErr, Some};
ghost use Rattle.relay.specs.Texts.{step_text};
ghost use Rattle.relay.specs.Runs.{outcome_of, lines_after};

use exchange::{Exchange, Line, Message, Refusal};
use std::fmt;

/// One call on an exchange. Steps are data, since a log keeps and prints them; a closure could only be called.
#[derive(Clone, Copy, PartialEq, Eq, Debug)]
pub enum Step {
    Put(Line, Message),
    Take(Line),
}

/// What became of a step: a take has a message, a put has none.
pub type Outcome = Result<Option<Message>, Refusal>;

impl Step {
    /// Makes the step, and answers what became of it.
    pub fn make<E: Exchange<Message = Message>>(self, exchange: &mut E) -> Outcome
        ensures outcome { result ≡ outcome_of (E.lines exchange.old) self }
        ensures lines { E.lines exchange.new ≡ lines_after (E.lines exchange.old) self }
        ensures refused { OnErr result (exchange.new ≡ exchange.old) }
    {
        match self {
            Step::Put(line, message) => {
                exchange.put(line, message)?;
                Ok(None)
            }
            Step::Take(line) => Ok(Some(exchange.take(line)?)),
        }
    }
}

impl fmt::Display for Step {
    ghost output = { λ s. Some (step_text s) };

    fn fmt<W: fmt::Write>(&self, f: &mut fmt::Formatter<W>) -> fmt::Result {
        match *self {
            Step::Put(line, message) => write!(f, "put {line} {message}"),
            Step::Take(line) => write!(f, "take {line}"),
        }
    }
}
