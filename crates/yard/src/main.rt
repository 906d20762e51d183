//! Reads call lines from standard input, and prints each line's number and answer.
#![tactic(auto)]

mod arguments;
mod input;
mod meaning;
mod output;

use arguments::{Wanted, read_arguments};
use input::next_line;
use lines::obey;
use monitor::Monitor;
use output::Output;
use std::io::BufReader;

const HELP: &str =
    "yard reads call lines from standard input and prints each line's number and answer.

    yard [--docket FILE] [--explain]

    --docket FILE   write the docket of the run to FILE, which must not exist yet
    --explain       add to each refusal what it means
    --help          print this
    --version       print the version
";

const VERSION: &str = "yard 0.1.0";

fn run(rt: &HostRuntime, mut output: Output) -> anyhow::Result<()> {
    let mut input = BufReader::new(rt.alloc(), rt.stdin())?;
    let mut monitor = Monitor::new();
    let mut line = Vec::new(rt.alloc());
    // the lines' numbers are the count that a loop over input needs
    for number in 1..u64::MAX {
        // nothing is left to read at once, so whoever waits for answers gets them now
        if input.buffer().is_empty() {
            output.flush()?;
        }
        if !next_line(&mut input, &mut line)? {
            break;
        }
        let answer = obey(&mut monitor, line.as_slice());
        output.note(number, line.as_slice(), answer)?;
    }
    output.flush()?;
    Ok(())
}

fn start(rt: &HostRuntime) -> anyhow::Result<()> {
    match read_arguments(rt)? {
        Wanted::Help => print!(rt; "{HELP}")?,
        Wanted::Version => println!(rt; "{VERSION}")?,
        Wanted::Run { docket, explain } => {
            let output = Output::open(rt, docket, explain)?;
            run(rt, output)?;
        }
    }
    Ok(())
}

fn main(rt: HostRuntime) -> anyhow::Result<()> {
    start(&rt)
}
