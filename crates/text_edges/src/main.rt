//! Runs the readers of text over a table of edge cases: standard input has a reader's name and a text on each line.
#![tactic(auto)]

use anyhow::{Context, anyhow};
use keys::kind::WrittenKey;
use keys::named::NamedKey;
use keys::numbered::NumberedKey;
use std::fmt::Display;
use std::io;
use survey::entry::read_entry;
use survey::station::read_station;
use text::field::{Mark, cut_at};
use text::number::read_number;

/// Prints what was read, or that the text is broken.
fn tell<T: Display + Drop>(
    rt: &HostRuntime,
    reader: &str,
    text: &str,
    read: Option<T>,
) -> anyhow::Result<()> {
    match read {
        Some(value) => println!(rt; "{reader} {text:?} is {value}")?,
        None => println!(rt; "{reader} {text:?} is broken")?,
    }
    Ok(())
}

/// Runs the reader that `case` names over the text after it.
fn run_case(rt: &HostRuntime, case: &str) -> anyhow::Result<()> {
    let (reader, text) = cut_at(case, Mark::Space).context("a case is a reader's name and a text")?;
    match reader {
        "u16" => tell(rt, reader, text, read_number::<u16>(text)),
        "i32" => tell(rt, reader, text, read_number::<i32>(text)),
        "numbered" => tell(rt, reader, text, NumberedKey::read(text)),
        "named" => tell(rt, reader, text, NamedKey::read(text)),
        "station" => tell(rt, reader, text, read_station(text)),
        "line" => {
            let entry = read_entry::<NumberedKey>(text);
            tell(rt, reader, text, entry.map(|entry| entry.value))
        }
        _ => Err(anyhow!("no such reader")),
    }
}

fn run(rt: &HostRuntime) -> anyhow::Result<()> {
    let table = io::read_to_string(rt.alloc(), rt.stdin())?;
    for line in table.as_str().split_inclusive('\n') {
        if let Some(case) = line.strip_suffix('\n') {
            run_case(rt, case)?;
        }
    }
    Ok(())
}

fn main(rt: HostRuntime) -> anyhow::Result<()> {
    run(&rt)
}
