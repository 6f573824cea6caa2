//! Carries a fixed list of messages over the lines of a small depot, and prints what became of each.
#![tactic(auto)]

mod carrying;
mod entries;
mod list;
mod steps;

use crate::carrying::carry;
use crate::entries::Entry;
use crate::list::STEPS;
use exchange::{Exchange, Message};
use ring_lines::RingLines;
use std::alloc::Global;

const BAYS: u16 = 3;

const PLACES: u16 = 4;

// A record for each place of each line.
const RECORDS: usize = BAYS as usize * (BAYS as usize - 1) * PLACES as usize;

fn main(rt: HostRuntime) -> anyhow::Result<()> {
    run(&rt, rt.alloc())
}

fn run(rt: &impl Print, heap: Global) -> anyhow::Result<()> {
    let mut memory = [Message::Request; RECORDS];
    RingLines::check(&memory, BAYS, PLACES)?;
    let mut lines = RingLines::make(&mut memory, BAYS, PLACES);
    println!(rt;
        "ring lines for {} bays, {} places in a line",
        lines.bays(),
        lines.places()
    )?;
    let mut log = Entry::log(heap, &STEPS)?;
    carry(&mut lines, &mut log);
    for (i, entry) in log.iter().enumerate() {
        println!(rt; "{} {entry}", i + 1)?;
    }
    Ok(())
}
