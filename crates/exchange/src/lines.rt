ghost use Rattle.std.specs.Prelude.{Some};
ghost use Rattle.exchange.specs.Texts.{line_text};

use std::fmt;

/// The line from one bay to another: the pair of their numbers, whether or not there are such bays.
#[derive(Clone, Copy, PartialEq, Eq, Debug)]
pub struct Line {
    pub from: u16,
    pub to: u16,
}

impl fmt::Display for Line {
    ghost output = { λ line. Some (line_text line) };

    fn fmt<W: fmt::Write>(&self, f: &mut fmt::Formatter<W>) -> fmt::Result {
        write!(f, "{}->{}", self.from, self.to)
    }
}
