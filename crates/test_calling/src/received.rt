//! Prints what subscribers received.

use anyhow::Result;
use rsx::{Deliveries, Signal};

/// Prints each signal that a graph delivered, in a line of its own.
pub fn print(rt: &HostRuntime, out: &Deliveries<i64>) -> Result<()> {
    for (_, signal) in out.as_slice() {
        match signal {
            Signal::Next(price) => println!(rt; "got {price}")?,
            Signal::Complete => println!(rt; "complete")?,
            Signal::Error(cause) => println!(rt; "error {cause:?}")?,
        }
    }
    Ok(())
}
