//! Prints a docket file, one entry a line: its place, the kind, the task, the record, the answer and
//! the new formula. Where the bytes are damaged it says where and by which question, and stops.
#![tactic(auto)]

use anyhow::anyhow;
use docket::{Found, read_entry};
use std::io::Write;
use std::{env, fs};

const HELP: &str = "docketview prints docket files, one entry a line:

    docketview FILE...

    PLACE KIND TASK RECORD ANSWER FORMULA

Where the bytes are damaged it prints PLACE damaged QUESTION, stops, and ends with status 1.
";

/// Adds each entry of the docket, and answers whether it could be read to its end.
fn add_docket(text: &mut Vec<u8>, bytes: &[u8]) -> anyhow::Result<bool> {
    let mut place = 0;
    loop {
        match read_entry(bytes, place) {
            Ok(Some(Found { entry, next })) => {
                writeln!(text, "{place} {entry}")?;
                place = next;
            }
            Ok(None) => return Ok(true),
            Err(refusal) => {
                let question = refusal.number();
                writeln!(text, "{place} damaged {question}")?;
                return Ok(false);
            }
        }
    }
}

fn show_file(rt: &HostRuntime, name: &str) -> anyhow::Result<()> {
    let bytes = fs::read(rt, name)?;
    let mut text = Vec::new(rt.alloc());
    let whole = add_docket(&mut text, bytes.as_slice())?;
    rt.stdout().write_all(text.as_slice())?;
    if whole {
        Ok(())
    } else {
        Err(anyhow!("the docket is damaged"))
    }
}

fn start(rt: &HostRuntime) -> anyhow::Result<()> {
    let mut names = env::args(rt)?.skip(1).peekable();
    if names.peek().is_none() {
        return Err(anyhow!("docketview wants the name of a docket file"));
    }
    for name in names {
        if name.as_str() == "--help" {
            print!(rt; "{HELP}")?;
            return Ok(());
        }
        show_file(rt, name.as_str())?;
    }
    Ok(())
}

fn main(rt: HostRuntime) -> anyhow::Result<()> {
    start(&rt)
}
