// The program intake: reads sheets, judges each and prints what it found.
#![tactic(auto)]

mod fault;
mod report;
mod survey;

use report::said;
use std::io::Read;
use std::{env, fs};

// The bytes of a file, or of standard input where the name is `-`.
fn bytes_of(rt: &HostRuntime, name: &str) -> anyhow::Result<Vec<u8>> {
    if name == "-" {
        let mut text = Vec::new(rt.alloc());
        let _ = rt.stdin().read_to_end(&mut text)?;
        return Ok(text);
    }
    Ok(fs::read(rt, name)?)
}

// Prints what is found in a text.
fn print_found(rt: &HostRuntime, text: &[u8]) -> anyhow::Result<()> {
    rt.print(said(rt.alloc(), text)?)?;
    Ok(())
}

// Prints what is found in each file that is named, or in standard input where none is.
fn run(rt: &HostRuntime) -> anyhow::Result<()> {
    let mut names = env::args(rt)?.skip(1).peekable();
    if names.peek().is_none() {
        return print_found(rt, &bytes_of(rt, "-")?);
    }
    for name in names {
        // read first: of a file that cannot be read, not even the name is printed
        let text = bytes_of(rt, name.as_str())?;
        println!(rt; "==> {name} <==")?;
        print_found(rt, &text)?;
    }
    Ok(())
}

fn main(rt: HostRuntime) -> anyhow::Result<()> {
    run(&rt)
}
