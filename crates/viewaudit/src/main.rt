#![tactic(auto)]

use audit::run::run;
use std::io::{Read, Write};
use std::{env, fs};

// The script: of the file that is named, or else of standard input.
fn input(rt: &HostRuntime) -> anyhow::Result<Vec<u8>> {
    match env::args(rt)?.nth(1) {
        Some(path) => Ok(fs::read(rt, path.as_str())?),
        None => {
            let mut script = Vec::new(rt.alloc());
            rt.stdin().read_to_end(&mut script)?;
            Ok(script)
        }
    }
}

fn main(rt: HostRuntime) -> anyhow::Result<()> {
    let script = input(&rt)?;
    let report = run(rt.alloc(), script.as_slice())?;
    rt.stdout().write_all(report.as_slice())?;
    Ok(())
}
