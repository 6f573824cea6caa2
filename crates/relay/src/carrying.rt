ghost use Rattle.std.specs.Prelude.{◌≡◌};
ghost use Rattle.relay.specs.Runs.{log_of, lines_after_all, InOrder};

use crate::entries::Entry;
use exchange::{Exchange, Message};

/// Makes the steps of the log one after another, and notes what became of each.
pub fn carry<E: Exchange<Message = Message>>(exchange: &mut E, log: &mut [Entry])
    ensures log { log.new ≡ log_of (E.lines exchange.old) log.old }
    ensures lines { E.lines exchange.new ≡ lines_after_all (E.lines exchange.old) log.old }
    ensures in_order { InOrder (E.lines exchange.old) log.new (E.lines exchange.new) }
{
    for entry in log.iter_mut() {
        entry.make(exchange);
    }
}
