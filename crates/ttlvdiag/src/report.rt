ghost use Rattle.std.specs.Prelude.{◌≡◌, ◌++◌, IfOk, OnOk, string_bytes};
ghost use Rattle.hexadecimal.specs.Digits.{hexed};
ghost use Rattle.ttlvdiag.specs.Lines.{CutsAtLf};
ghost use Rattle.ttlvdiag.specs.Reports.{message_text, report_text};

use crate::lines::Lines;
use hexadecimal::digits::digits;
use hexadecimal::hex_source::HexSource;
use std::alloc::{AllocError, Global};
use streams::slice_source::SliceSource;
use streams::source::Source;

/// The longest input that is looked at, in bytes.
pub const LIMIT: usize = 65536;

/// Adds `bytes` to `out` in uppercase hexadecimal.
#[tactic(auto, using(crate::proofs::Shown::prints))]
fn add_hex(out: &mut String, bytes: &[u8]) -> Result<(), AllocError>
    ensures { OnOk result (string_bytes out.new ≡ string_bytes out.old ++ hexed bytes.now) }
{
    for b in bytes {
        let [high, low] = digits(*b);
        out.push(char::from(high))?;
        out.push(char::from(low))?;
    }
    Ok(())
}

/// Adds the text for the message that a line spells to `out`.
#[tactic(auto, using(crate::proofs::Shown::reads))]
fn add_message(out: &mut String, line: &[u8]) -> Result<(), AllocError>
    ensures { OnOk result (string_bytes out.new ≡ string_bytes out.old ++ message_text line.now) }
{
    let mut message = HexSource::new(SliceSource::new(line));
    let mut part = [0u8; 256];
    loop {
        let m = message.read(&mut part);
        if m == 0 {
            return Ok(());
        }
        add_hex(out, &part[..m])?;
    }
}

/// The text that the program puts for `input`.
#[tactic(auto, using(crate::proofs::Cutting::cuts_at_lf))]
pub fn report(heap: Global, input: &[u8]) -> Result<String, AllocError>
    ensures text { IfOk result (λ out. string_bytes out ≡ report_text input.now) }
    ensures law { CutsAtLf }
{
    if input.len() > LIMIT {
        return String::from_str(heap, "too long\n");
    }
    let mut out = String::new(heap);
    for line in Lines::new(input) {
        add_message(&mut out, line)?;
        out.push('\n')?;
    }
    Ok(out)
}
