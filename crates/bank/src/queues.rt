ghost use Rattle.std.specs.Prelude.{◌≡◌, ℕ, ◌≤◌, ◌*◌, length};
ghost use Rattle.bank.specs.Rings.{ring_of};
ghost use Rattle.bank.specs.declared.queues.TheConstants.{MOST_QUEUES};

use crate::refusals::Refusal;
use crate::rings::Ring;

/// The largest number of queues.
pub const MOST_QUEUES: u16 = 132;

/// The largest number of places in each.
pub const MOST_PLACES: u16 = 1024;

/// Many queues in one borrowed memory. Queue q has the places q * places up to (q + 1) * places of the memory, and
/// its records lie in them as in a ring.
#[derive(Drop)]
pub struct Bank<'a, T: Copy> {
    // lent memory, and a table of fixed size with the number of rings that count, since a charger has no heap
    memory: &'a mut [T],
    queues: u16,
    places: u16,
    rings: [Ring; MOST_QUEUES as usize],
    // the table has a ring for each queue
    ghost few: { queues ≤ MOST_QUEUES },
    // the memory has all the queues' places
    ghost room: { queues * places ≤ length memory.now },
    // no queue holds more records than it has places
    ghost short: { (q : ℕ) → (ring_of rings q).waiting ≤ places },
}

impl<'a, T: Copy> Bank<'a, T> {
    ghost use Rattle.std.specs.Prelude.{◌≡◌, ℕ, ◌<◌, [], length, OnOk, OnErr, Some, slice_get};
    ghost use Rattle.bank.specs.Meaning.{lender_of, memory_of, queues_of, places_of, queue, place_of};
    ghost use Rattle.bank.specs.Answers.{check_answer, made, put_answer, take_answer, count_answer};
    ghost use Rattle.bank.specs.Changes.{Added, Removed};

    // `check` and `make` take two numbers and no struct of them, which would be built for these two calls alone.

    /// Whether so many queues of so many places can be made in the memory.
    pub fn check(memory: &[T], queues: u16, places: u16) -> Result<(), Refusal>
        ensures { result ≡ check_answer (length memory.now) queues places }
    {
        if !(1..=MOST_QUEUES).contains(&queues) {
            return Err(Refusal::Queues);
        }
        if !(1..=MOST_PLACES).contains(&places) {
            return Err(Refusal::Places);
        }
        if memory.len() < queues as usize * places as usize {
            return Err(Refusal::Memory);
        }
        Ok(())
    }

    /// A bank of empty queues, which leaves the memory as it is. From what `check` refuses: no queues and no places.
    pub fn make(memory: &'a mut [T], queues: u16, places: u16) -> Self
        ensures queues { queues_of result ≡ made (check_answer (length memory.old) queues places) queues }
        ensures places { places_of result ≡ made (check_answer (length memory.old) queues places) places }
        ensures lender { lender_of result ≡ memory.entry.ghost_name }
        ensures memory { memory_of result ≡ memory.old }
        ensures empty { (q : ℕ) → queue result q ≡ [] }
    {
        // a making never refuses, so refused numbers become none
        let (queues, places) = match Bank::check(memory, queues, places) {
            Ok(()) => (queues, places),
            Err(_) => (0, 0),
        };
        Bank {
            memory,
            queues,
            places,
            rings: [Ring::default(); MOST_QUEUES as usize],
        }
    }

    /// How many queues there are.
    pub fn queues(&self) -> u16
        ensures { result ≡ queues_of self.now }
    {
        self.queues
    }

    /// How many places each queue has.
    pub fn places(&self) -> u16
        ensures { result ≡ places_of self.now }
    {
        self.places
    }

    /// How many records wait in queue q.
    #[tactic(auto, using(crate::proofs::Banks::length_queue))]
    pub fn count(&self, q: u16) -> Result<u16, Refusal>
        ensures { result ≡ count_answer self.now q }
    {
        if q >= self.queues {
            return Err(Refusal::NoQueue);
        }
        Ok(self.rings[q as usize].waiting)
    }

    // The private calls below require that there is a queue q: a line in each, for the test that `put` or `take` has made.

    // The place of the k-th record of queue q, counted from its oldest.
    fn place(&self, q: u16, k: u16) -> usize
        requires queue { q < queues_of self.now }
        requires within { k < places_of self.now }
        ensures value { result ≡ place_of self.now q k }
        ensures bound { result < length (memory_of self.now) }
    {
        let places = self.places as usize;
        q as usize * places + (self.rings[q as usize].first as usize + k as usize) % places
    }

    /// Adds the item as the newest record of queue q.
    pub fn put(&mut self, q: u16, item: T) -> Result<(), Refusal>
        ensures answer { result ≡ put_answer self.old q }
        ensures refused { OnErr result (self.new ≡ self.old) }
        ensures accepted { OnOk result (Added self.old self.new q item) }
    {
        if self.count(q)? >= self.places {
            return Err(Refusal::Full);
        }
        self.append(q, item);
        Ok(())
    }

    // Writes the item to the place behind the newest record of queue q.
    #[tactic(auto, using(crate::proofs::Banks::length_queue))]
    fn append(&mut self, q: u16, item: T)
        requires queue { q < queues_of self.old }
        requires room { length (queue self.old q) < places_of self.old }
        ensures { Added self.old self.new q item }
    {
        let n = self.rings[q as usize].waiting;
        let at = self.place(q, n);
        self.memory[at] = item;
        self.rings[q as usize].waiting += 1;
    }

    /// Removes the oldest record of queue q and answers it.
    pub fn take(&mut self, q: u16) -> Result<T, Refusal>
        ensures answer { result ≡ take_answer self.old q }
        ensures refused { OnErr result (self.new ≡ self.old) }
        ensures accepted { OnOk result (Removed self.old self.new q) }
    {
        if self.count(q)? == 0 {
            return Err(Refusal::Empty);
        }
        Ok(self.remove_oldest(q))
    }

    // Steps the ring of queue q over its oldest record.
    #[tactic(auto, using(crate::proofs::Banks::length_queue, crate::proofs::Banks::queue_short))]
    fn remove_oldest(&mut self, q: u16) -> T
        requires queue { q < queues_of self.old }
        requires waiting { 0 < length (queue self.old q) }
        ensures answer { Some result ≡ slice_get (queue self.old q) 0 }
        ensures removed { Removed self.old self.new q }
    {
        let at = self.place(q, 0);
        let item = self.memory[at];
        let places = self.places as usize;
        let ring = &mut self.rings[q as usize];
        ring.first = ((ring.first as usize + 1) % places) as u16;
        ring.waiting -= 1;
        item
    }
}
