ghost use Rattle.std.specs.Prelude.{◌≡◌, ◌≤◌, false, [], length, OnOk, OnErr};
ghost use Rattle.exchange.specs.Lines.{Lines, joins, with_put, with_take};
ghost use Rattle.exchange.specs.Answers.{put_answer, take_answer, count_answer};
ghost use Rattle.exchange.specs.declared.lines.Line.{Line};

use crate::lines::Line;
use crate::refusals::Refusal;

/// The calls of an exchange. All that is said of them is said of the lines that the exchange stands for, so what is
/// built on an exchange is proved once, for every make of it.
pub trait Exchange {
    /// The kind of message that the lines carry.
    type Message: Copy;

    // What the exchange stands for.
    ghost lines: { Self → Lines Self.Message };

    /// How many bays there are.
    fn bays(&self) -> u16
        ensures { result ≡ (lines self.now).bays };

    /// How many places each line has.
    fn places(&self) -> u16
        ensures { result ≡ (lines self.now).places };

    /// How many messages wait on a line.
    fn count(&self, line: Line) -> Result<u16, Refusal>
        ensures { result ≡ count_answer (lines self.now) line };

    /// Adds a message at the end of a line.
    fn put(&mut self, line: Line, message: Self::Message) -> Result<(), Refusal>
        ensures answer { result ≡ put_answer (lines self.old) line }
        ensures refused { OnErr result (self.new ≡ self.old) }
        ensures after { OnOk result (lines self.new ≡ with_put (lines self.old) line message) };

    /// Removes the oldest message of a line and answers it.
    fn take(&mut self, line: Line) -> Result<Self::Message, Refusal>
        ensures answer { result ≡ take_answer (lines self.old) line }
        ensures refused { OnErr result (self.new ≡ self.old) }
        ensures after { OnOk result (lines self.new ≡ with_take (lines self.old) line) };

    // No list is longer than its line has places.
    ghost short: { (x : Self) (line : Line) → length ((lines x).at line) ≤ (lines x).places };

    // Where no line leads, nothing waits.
    ghost outside: { (x : Self) (line : Line) → joins (lines x) line ≡ false → (lines x).at line ≡ [] };
}
