//! `cfcheck`: checks the job on standard input, and prints whether it can be run.
#![tactic(auto)]

use checking::check_job;
use fields::Refusal;
use std::io::Read;
use unit::WholeNumber;

// How much this program takes. The programs are alike, but each has its own call and its own
// first line, and no program can call into another.
const MOST_BYTES: u64 = 65536;

fn run(rt: &HostRuntime) -> anyhow::Result<()> {
    let mut bytes = Vec::new(rt.alloc());
    rt.stdin().take(MOST_BYTES).read_to_end(&mut bytes)?;
    match check_job::<WholeNumber>(&bytes) {
        Ok(figures) => println!(rt; "OK {figures}")?,
        Err(fault) => println!(rt; "{}", Refusal::from(fault))?,
    }
    Ok(())
}

fn main(rt: HostRuntime) -> anyhow::Result<()> {
    run(&rt)
}
