ghost use Rattle.std.specs.Prelude.{◌≡◌, Some};
ghost use Rattle.bank.specs.Answers.{number as bank_number};
ghost use Rattle.exchange.specs.Answers.{number, line_refusal};
ghost use Rattle.exchange.specs.Texts.{reason, refusal_text};

use std::error::Error;
use std::fmt;

/// Why an exchange refuses a call: each with its number in the table of docs/RULES.md.
#[derive(Clone, Copy, PartialEq, Eq, Debug)]
pub enum Refusal {
    Bays = 1,
    Places = 2,
    Memory = 3,
    NoBay = 4,
    SameBay = 5,
    Full = 6,
    Empty = 7,
}

impl Refusal {
    // Once for each layer's enum: a trait of it would be written out in each all the same.

    /// The refusal's number in the table.
    pub fn number(self) -> u8
        ensures { result ≡ number self }
    {
        self as u8
    }

    // The words alone, by a `match` as `Display` would have it; what a derive of the crate `thiserror` writes has no contract.

    /// Why, in words.
    pub fn reason(self) -> &'static str
        ensures { result.now ≡ reason self }
    {
        match self {
            Refusal::Bays => "number of bays out of range",
            Refusal::Places => "number of places out of range",
            Refusal::Memory => "too little memory for the lines",
            Refusal::NoBay => "no such bay",
            Refusal::SameBay => "no line leads from a bay to itself",
            Refusal::Full => "the line is full",
            Refusal::Empty => "the line is empty",
        }
    }
}

/// What the refusal of a bank is called where its queues are lines. Its number stays.
impl From<bank::Refusal> for Refusal {
    ghost from_gives = { λ b r. r ≡ line_refusal b };

    fn from(refusal: bank::Refusal) -> Refusal
        ensures named { result ≡ line_refusal refusal }
        ensures numbered { number result ≡ bank_number refusal }
    {
        match refusal {
            bank::Refusal::Queues => Refusal::Bays,
            bank::Refusal::Places => Refusal::Places,
            bank::Refusal::Memory => Refusal::Memory,
            bank::Refusal::NoQueue => Refusal::NoBay,
            bank::Refusal::Full => Refusal::Full,
            bank::Refusal::Empty => Refusal::Empty,
        }
    }
}

impl fmt::Display for Refusal {
    ghost output = { λ e. Some (refusal_text e) };

    fn fmt<W: fmt::Write>(&self, f: &mut fmt::Formatter<W>) -> fmt::Result {
        write!(f, "{}, {}", self.number(), self.reason())
    }
}

// A refusal goes up by `?` like any other error.
impl Error for Refusal {}
