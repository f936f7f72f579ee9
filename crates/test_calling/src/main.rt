#![tactic(auto)]
//! The programs of `docs/CALLING.md`, one after the other: each writes its name, and then what that page says.

mod merged;
mod postage;
mod prices;
mod published;
mod received;
mod totals;

use anyhow::Result;

fn main(rt: HostRuntime) -> Result<()> {
    println!(rt; "postage")?;
    postage::run(&rt)?;
    println!(rt; "totals")?;
    totals::run(&rt)?;
    println!(rt; "published")?;
    published::run(&rt)?;
    println!(rt; "merged")?;
    merged::run(&rt)
}
