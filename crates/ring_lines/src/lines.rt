ghost use Rattle.std.specs.Prelude.{◌≡◌, ◌≤◌, ◌-◌, ◌*◌};
ghost use Rattle.bank.specs.Meaning.{queues_of};
ghost use Rattle.ring_lines.specs.declared.lines.TheConstants.{MOST_BAYS};

use bank::Bank;
use exchange::{Exchange, Line, Refusal};

/// The smallest number of bays.
pub const FEWEST_BAYS: u16 = 2;

/// The largest number of bays.
pub const MOST_BAYS: u16 = 12;

/// Lines for every ordered pair of different bays, each a queue of one bank.
#[derive(Drop)]
pub struct RingLines<'a, K: Copy> {
    bank: Bank<'a, K>,
    bays: u16,
    // no more bays than the making allows
    ghost few: { bays ≤ MOST_BAYS },
    // each pair of different bays has a queue
    ghost pairs: { queues_of bank ≡ bays * (bays - 1) },
}

impl<'a, K: Copy> RingLines<'a, K> {
    ghost use Rattle.std.specs.Prelude.{◌≡◌, ◌≢◌, ◌≤◌, [], length, Ok, Err};
    ghost use Rattle.bank.specs.Meaning.{lender_of, memory_of};
    ghost use Rattle.bank.specs.Answers.{made};
    ghost use Rattle.exchange.specs.Answers.{check_answer, on_line};
    ghost use Rattle.exchange.specs.declared.lines.Line.{Line};
    ghost use Rattle.exchange.specs.declared.refusals.Refusal.TheVariants.{Bays};
    ghost use Rattle.ring_lines.specs.Meaning.{bank_of, queue_of, ring_lines};
    ghost use Rattle.ring_lines.specs.declared.lines.TheConstants.{FEWEST_BAYS, MOST_BAYS};

    // Two numbers and no struct of them, which would be built for `check` and `make` alone.

    /// Whether lines of so many places can be made for so many bays in the memory.
    pub fn check(memory: &[K], bays: u16, places: u16) -> Result<(), Refusal>
        ensures answer { result ≡ check_answer (length memory.now) bays places }
        ensures allowed { FEWEST_BAYS ≤ bays → bays ≤ MOST_BAYS → result ≢ Err Bays }
    {
        if !(FEWEST_BAYS..=MOST_BAYS).contains(&bays) {
            return Err(Refusal::Bays);
        }
        Ok(Bank::check(memory, bays * (bays - 1), places)?)
    }

    /// Empty lines, which leave the memory as it is. From what `check` refuses: no bays and no places.
    pub fn make(memory: &'a mut [K], bays: u16, places: u16) -> Self
        ensures bays { (ring_lines result).bays ≡ made (check_answer (length memory.old) bays places) bays }
        ensures places { (ring_lines result).places ≡ made (check_answer (length memory.old) bays places) places }
        ensures lender { lender_of (bank_of result) ≡ memory.entry.ghost_name }
        ensures memory { memory_of (bank_of result) ≡ memory.old }
        ensures empty { (line : Line) → (ring_lines result).at line ≡ [] }
    {
        // a making never refuses, so refused numbers become none
        let bays = match RingLines::check(memory, bays, places) {
            Ok(()) => bays,
            Err(_) => 0,
        };
        let bank = Bank::make(memory, bays * bays.saturating_sub(1), places);
        RingLines { bank, bays }
    }

    // The queue of a line, or why there is no such line.
    fn queue(&self, line: Line) -> Result<u16, Refusal>
        ensures { result ≡ on_line (ring_lines self.now) line (Ok (queue_of (ring_lines self.now).bays line)) }
    {
        let Line { from, to } = line;
        if from >= self.bays || to >= self.bays {
            return Err(Refusal::NoBay);
        }
        if from == to {
            return Err(Refusal::SameBay);
        }
        let column = if to < from { to } else { to - 1 };
        Ok(from * (self.bays - 1) + column)
    }
}

impl<'a, K: Copy> Exchange for RingLines<'a, K> {
    ghost use Rattle.std.specs.Prelude.{◌≡◌, OnOk, OnErr};
    ghost use Rattle.bank.specs.Changes.{Added, Removed};
    ghost use Rattle.exchange.specs.Lines.{with_put, with_take};
    ghost use Rattle.exchange.specs.Answers.{put_answer, take_answer};
    ghost use Rattle.ring_lines.specs.Meaning.{bank_of, queue_of, ring_lines};
    ghost use Rattle.ring_lines.specs.Laws.{ring_short, ring_outside};

    type Message = K;

    ghost lines = { ring_lines };

    fn bays(&self) -> u16 {
        self.bays
    }

    fn places(&self) -> u16 {
        self.bank.places()
    }

    #[tactic(auto, using(crate::proofs::Found::refused, crate::proofs::Found::count_is))]
    fn count(&self, line: Line) -> Result<u16, Refusal> {
        let q = self.queue(line)?;
        Ok(self.bank.count(q)?)
    }

    // The line's queue gets the message, and no other queue changes. (An `impl` that adds a clause says the trait's again.)
    #[tactic(auto, using(crate::proofs::Found::refused, crate::proofs::Found::put_is, crate::proofs::Found::kept))]
    fn put(&mut self, line: Line, message: K) -> Result<(), Refusal>
        ensures answer { result ≡ put_answer (ring_lines self.old) line }
        ensures refused { OnErr result (self.new ≡ self.old) }
        ensures after { OnOk result (ring_lines self.new ≡ with_put (ring_lines self.old) line message) }
        ensures bank { OnOk result (Added (bank_of self.old) (bank_of self.new) (queue_of (ring_lines self.old).bays line) message) }
    {
        let q = self.queue(line)?;
        Ok(self.bank.put(q, message)?)
    }

    // The line's queue loses its oldest message, and no other queue changes.
    #[tactic(auto, using(crate::proofs::Found::refused, crate::proofs::Found::take_is, crate::proofs::Found::kept))]
    fn take(&mut self, line: Line) -> Result<K, Refusal>
        ensures answer { result ≡ take_answer (ring_lines self.old) line }
        ensures refused { OnErr result (self.new ≡ self.old) }
        ensures after { OnOk result (ring_lines self.new ≡ with_take (ring_lines self.old) line) }
        ensures bank { OnOk result (Removed (bank_of self.old) (bank_of self.new) (queue_of (ring_lines self.old).bays line)) }
    {
        let q = self.queue(line)?;
        Ok(self.bank.take(q)?)
    }

    ghost short = { ring_short };

    ghost outside = { ring_outside };
}
