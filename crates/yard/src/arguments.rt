use anyhow::{anyhow, bail};
use std::env;

/// What the arguments ask for.
#[derive(Drop)]
pub enum Wanted {
    Help,
    Version,
    Run {
        docket: Option<String>,
        explain: bool,
    },
}

/// Reads the arguments.
pub fn read_arguments(rt: &HostRuntime) -> anyhow::Result<Wanted> {
    let mut docket = None;
    let mut explain = false;
    let mut args = env::args(rt)?.skip(1);
    while let Some(arg) = args.next() {
        match arg.as_str() {
            "--docket" => match args.next() {
                Some(name) => docket = Some(name),
                None => bail!("--docket wants a file's name"),
            },
            "--explain" => explain = true,
            "--help" => return Ok(Wanted::Help),
            "--version" => return Ok(Wanted::Version),
            _ => bail!("unknown argument; --help prints what there is"),
        }
    }
    Ok(Wanted::Run { docket, explain })
}
