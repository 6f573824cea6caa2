use crate::steps::Step;
use exchange::{Line, Message};

const PROBE_OF_0: Message = Message::Probe { bay: 0, search: 1 };

const PROBE_OF_1: Message = Message::Probe { bay: 1, search: 1 };

const WAIT_2_0: Message = Message::Notice {
    waiter: 2,
    awaited: 0,
};

const WAIT_1_2: Message = Message::Notice {
    waiter: 1,
    awaited: 2,
};

/// For three bays and lines of four places: messages of all four kinds, put on all six lines and taken off in an order that jumps
/// between them, with every refusal that a put or a take can get.
pub const STEPS: [Step; 30] = [
    Step::Put(Line { from: 0, to: 1 }, Message::Request),
    Step::Put(Line { from: 1, to: 2 }, Message::Request),
    Step::Put(Line { from: 0, to: 1 }, PROBE_OF_0),
    Step::Put(Line { from: 1, to: 2 }, PROBE_OF_0),
    Step::Put(Line { from: 2, to: 0 }, Message::Request),
    Step::Put(Line { from: 2, to: 0 }, PROBE_OF_0),
    Step::Put(Line { from: 0, to: 1 }, PROBE_OF_1),
    Step::Put(Line { from: 0, to: 2 }, WAIT_2_0),
    Step::Put(Line { from: 2, to: 1 }, WAIT_1_2),
    Step::Put(Line { from: 0, to: 1 }, WAIT_2_0),
    // a fifth message for a line of four places
    Step::Put(Line { from: 0, to: 1 }, Message::Answer),
    Step::Put(Line { from: 1, to: 0 }, Message::Answer),
    // no such bay, though the last 8 bits of its number are a bay's; and no line from a bay to itself
    Step::Put(Line { from: 0, to: 257 }, Message::Request),
    Step::Put(Line { from: 1, to: 1 }, Message::Request),
    Step::Take(Line { from: 2, to: 0 }),
    Step::Take(Line { from: 0, to: 1 }),
    Step::Take(Line { from: 1, to: 2 }),
    // the full line has a place again
    Step::Put(Line { from: 0, to: 1 }, Message::Answer),
    Step::Take(Line { from: 0, to: 1 }),
    Step::Take(Line { from: 2, to: 0 }),
    Step::Take(Line { from: 0, to: 2 }),
    Step::Take(Line { from: 1, to: 2 }),
    Step::Take(Line { from: 0, to: 1 }),
    Step::Take(Line { from: 0, to: 1 }),
    Step::Take(Line { from: 0, to: 1 }),
    // the line is empty now
    Step::Take(Line { from: 0, to: 1 }),
    Step::Take(Line { from: 1, to: 0 }),
    Step::Take(Line { from: 2, to: 1 }),
    // no such bay, and no line from a bay to itself
    Step::Take(Line { from: 3, to: 0 }),
    Step::Take(Line { from: 2, to: 2 }),
];
