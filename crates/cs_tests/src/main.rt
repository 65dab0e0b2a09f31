//! The rows of the file `rows`: each is run by the call that the program makes, and printed with what that call
//! answers. The tests beside it call what the other crates offer.
#![tactic(auto)]

#[cfg(test)]
mod classes;
#[cfg(test)]
mod frames;
#[cfg(test)]
mod heap;
#[cfg(test)]
mod image;
#[cfg(test)]
mod instructions;
mod long_shelf;
#[cfg(test)]
mod marriage;
#[cfg(test)]
mod pages;
mod row;
#[cfg(test)]
mod script;
#[cfg(test)]
mod sends;
#[cfg(test)]
mod shelf;
#[cfg(test)]
mod words;
#[cfg(test)]
mod zone;

use anyhow::Result;
use row::take;
use std::fs;

fn main(rt: HostRuntime) -> Result<()> {
    let rows = fs::read_to_string(&rt, "rows")?;
    for line in rows.as_str().lines() {
        println!(rt; "{line}")?;
        if let Some((given, words)) = line.split_once(" |") {
            take(&rt, given, words)?;
        }
    }
    Ok(())
}
