//! `cfstep`: executes the image on standard input, one instruction at a time, and prints each step.
#![tactic(auto)]

use bounded_log::Log;
use effect::{Action, Retirement};
use execution::execute;
use fields::Refusal;
use std::alloc::Global;
use std::io::Read;
use unit::WholeNumber;

// How much this program takes. The programs are alike, but each has its own call and its own
// first line, and no program can call into another.
const MOST_BYTES: u64 = 65536;

const MOST_STEPS: usize = 2000;

const WORDS: usize = 256;

fn run(rt: &HostRuntime) -> anyhow::Result<()> {
    let heap = rt.alloc();
    let mut bytes = Vec::new(heap);
    rt.stdin().take(MOST_BYTES).read_to_end(&mut bytes)?;
    let mut words = vec![in heap; 0u32; WORDS]?;
    let mut places = vec![in heap; Retirement {
        place: 0,
        action: Action::Nothing
    }; MOST_STEPS]?;
    let mut log = Log::new(&mut places);
    match execute(&bytes, &WholeNumber, &mut words, &mut log) {
        Ok(answer) => println!(rt; "CFP {}\n{log}END {answer}", answer.records)?,
        Err(fault) => println!(rt; "{}", Refusal::from(fault))?,
    }
    Ok(())
}

fn main(rt: HostRuntime) -> anyhow::Result<()> {
    run(&rt)
}
