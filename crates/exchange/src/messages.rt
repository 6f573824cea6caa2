ghost use Rattle.std.specs.Prelude.{Some};
ghost use Rattle.exchange.specs.Texts.{message_text};

use std::fmt;

/// What one bay sends another.
#[derive(Clone, Copy, PartialEq, Eq, Debug)]
pub enum Message {
    /// the sender asks for the receiver's power stack
    Request,
    /// the sender has let go of what the receiver asked for
    Answer,
    /// the search of that number, begun by that bay, has come along a wait
    Probe { bay: u8, search: u16 },
    /// the wait of the one bay for the other stands on a ring, or leads to one
    Notice { waiter: u8, awaited: u8 },
}

impl fmt::Display for Message {
    ghost output = { λ m. Some (message_text m) };

    fn fmt<W: fmt::Write>(&self, f: &mut fmt::Formatter<W>) -> fmt::Result {
        match *self {
            Message::Request => write!(f, "request"),
            Message::Answer => write!(f, "answer"),
            Message::Probe { bay, search } => write!(f, "probe of bay {bay}, search {search}"),
            Message::Notice { waiter, awaited } => write!(f, "notice of wait {waiter}->{awaited}"),
        }
    }
}
