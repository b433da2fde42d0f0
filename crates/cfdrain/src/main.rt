//! `cfdrain`: drains the core on standard input, one instruction after another, and prints each.
#![tactic(auto)]

use bounded_log::Log;
use effect::{Action, Retirement};
use fields::Refusal;
use pipes::Drain;
use retiring::drain_core;
use std::io::Read;
use unit::WholeNumber;

// How much this program takes. The programs are alike, but each has its own call and its own
// first line, and no program can call into another.
const MOST_BYTES: u64 = 65536;

const MOST_DRAINS: usize = 2000;

const WORDS: usize = 256;

fn run(rt: &HostRuntime) -> anyhow::Result<()> {
    let heap = rt.alloc();
    let mut bytes = Vec::new(heap);
    rt.stdin().take(MOST_BYTES).read_to_end(&mut bytes)?;
    let mut words = vec![in heap; 0u32; WORDS]?;
    let none = Retirement {
        place: 0,
        action: Action::Nothing,
    };
    let mut places = vec![in heap; Drain {
        moves: 0,
        retirement: none
    }; MOST_DRAINS]?;
    let mut log = Log::new(&mut places);
    match drain_core(&bytes, &WholeNumber, &mut words, &mut log) {
        Ok(core) => println!(rt; "CFP {} {}\n{log}END {core}", core.records, core.stages)?,
        Err(fault) => println!(rt; "{}", Refusal::from(fault))?,
    }
    Ok(())
}

fn main(rt: HostRuntime) -> anyhow::Result<()> {
    run(&rt)
}
