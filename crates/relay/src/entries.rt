ghost use Rattle.std.specs.Prelude.{◌≡◌, map, IfOk, Some, Err};
ghost use Rattle.exchange.specs.declared.refusals.Refusal.{Refusal};
ghost use Rattle.relay.specs.Runs.{pending, made_on, lines_after};
ghost use Rattle.relay.specs.Texts.{entry_text};

use crate::steps::{Outcome, Step};
use exchange::{Exchange, Message};
use std::alloc::{AllocError, Global};
use std::fmt;

/// An entry of the relay's log: a step, and what became of it once it has been made.
#[derive(Clone, Copy, PartialEq, Eq, Debug)]
pub struct Entry {
    pub step: Step,
    pub outcome: Option<Outcome>,
}

impl Entry {
    /// A log of steps that have not been made.
    pub fn log(heap: Global, steps: &[Step]) -> Result<Vec<Entry>, AllocError>
        ensures { IfOk result (λ v. v.items ≡ map pending steps.now) }
    {
        steps.iter().copied().map(Entry::from).collect(heap)
    }

    /// Makes the step, and notes what became of it.
    pub fn make<E: Exchange<Message = Message>>(&mut self, exchange: &mut E)
        ensures entry { self.new ≡ made_on (E.lines exchange.old) self.old }
        ensures lines { E.lines exchange.new ≡ lines_after (E.lines exchange.old) self.old.step }
        ensures refused { (e : Refusal) → self.new.outcome ≡ Some (Err e) → exchange.new ≡ exchange.old }
    {
        self.outcome = Some(self.step.make(exchange));
    }
}

/// The entry of a step that has not been made.
impl From<Step> for Entry {
    ghost from_gives = { λ step entry. entry ≡ pending step };

    fn from(step: Step) -> Entry {
        Entry {
            step,
            outcome: None,
        }
    }
}

impl fmt::Display for Entry {
    ghost output = { λ e. Some (entry_text e) };

    fn fmt<W: fmt::Write>(&self, f: &mut fmt::Formatter<W>) -> fmt::Result {
        match self.outcome {
            None => write!(f, "{}: not made", self.step),
            Some(Ok(None)) => write!(f, "{}: ok", self.step),
            Some(Ok(Some(message))) => write!(f, "{}: {message}", self.step),
            Some(Err(refusal)) => write!(f, "{}: refused {refusal}", self.step),
        }
    }
}
