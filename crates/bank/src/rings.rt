/// Where a queue's oldest record lies among the queue's places, and how many records wait from there on, round the end.
#[derive(Clone, Copy, PartialEq, Eq, Default, Debug)]
pub struct Ring {
    pub first: u16,
    pub waiting: u16,
}
