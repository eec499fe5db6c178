//! `stations kind=number sheet=FILE KEY ..`: where the stations of a survey sheet lie.
//!
//! A later `kind=` or `sheet=` holds for the keys after it.
#![tactic(auto)]

use anyhow::{Context, anyhow};
use keys::choice::KeyKind;
use lookup::command::Word;
use lookup::reply::look_up_in_sheet;
use std::{env, fs};

const USAGE: &str = "usage: stations kind=number|name sheet=FILE KEY ..";

/// Prints what is known of one key.
fn tell(
    rt: &HostRuntime,
    kind: Option<KeyKind>,
    sheet: Option<&str>,
    key: &str,
) -> anyhow::Result<()> {
    let kind = kind.context("write kind=number or kind=name before the first key")?;
    let sheet = sheet.context("write sheet=FILE before the first key")?;
    let reply = look_up_in_sheet(kind, sheet, key);
    println!(rt; "{reply}")?;
    Ok(())
}

/// The text of a sheet's file.
fn read_sheet(rt: &HostRuntime, path: &str) -> anyhow::Result<String> {
    fs::read_to_string(rt, path).map_err(|error| anyhow!("cannot read sheet={path}: {error}"))
}

/// Does what the words of the command line say, one after another.
fn run(rt: &HostRuntime) -> anyhow::Result<()> {
    let mut kind = None;
    let mut sheet: Option<String> = None;
    let mut told = false;
    for word in env::args(rt)?.skip(1) {
        match Word::from(word.as_str()) {
            Word::Kind(name) => kind = Some(name.parse::<KeyKind>()?),
            Word::Sheet(path) => sheet = Some(read_sheet(rt, path)?),
            Word::Key(key) => {
                tell(rt, kind, sheet.as_deref(), key)?;
                told = true;
            }
        }
    }
    if told { Ok(()) } else { Err(anyhow!(USAGE)) }
}

fn main(rt: HostRuntime) -> anyhow::Result<()> {
    run(&rt)
}
