ghost use Rattle.std.specs.Prelude.{◌≡◌};
ghost use Rattle.bank.specs.Answers.{number};

/// Why a bank refuses a call: each with its number in the table of docs/RULES.md.
#[derive(Clone, Copy, PartialEq, Eq, Debug)]
pub enum Refusal {
    Queues = 1,
    Places = 2,
    Memory = 3,
    NoQueue = 4,
    Full = 6,
    Empty = 7,
}

impl Refusal {
    // Once for each layer's enum: a trait of it would be written out in each all the same.

    /// The refusal's number in the table.
    pub fn number(self) -> u8
        ensures { result ≡ number self }
    {
        self as u8
    }
}
