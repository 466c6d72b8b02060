#![tactic(auto)]

mod lines;
mod report;
#[cfg(test)]
mod tests;

use report::{LIMIT, report};
use std::io;
use std::io::{Read, Write};

/// Reads hexadecimal messages, one a line, and puts one line of text for each.
fn main(rt: HostRuntime) -> io::Result<()> {
    let mut input = Vec::new(rt.alloc());
    rt.stdin().take(LIMIT as u64 + 1).read_to_end(&mut input)?;
    let text = report(rt.alloc(), &input)?;
    rt.stdout().write_all(text.as_bytes())
}
