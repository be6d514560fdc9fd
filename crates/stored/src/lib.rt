// The reports on stored sheets, one after the other: each sheet stands behind its length, two bytes with the lower first.
#![tactic(auto)]

use std::io;
use std::io::{Read, Write};

// The sheet at the start of the bytes, behind its length, and what follows it, if there is one.
fn sheet_at(s: &[u8]) -> Option<(&[u8], &[u8])> {
    let (length, rest) = s.split_first_chunk::<2>()?;
    rest.split_at_checked(usize::from(u16::from_le_bytes(*length)))
}

// All sheets, up to 256.
fn all_sheets<W: Write>(out: &mut W, s: &[u8]) -> io::Result<()> {
    let mut rest = s;
    for _ in 0..256 {
        let Some((sheet, after)) = sheet_at(rest) else {
            break;
        };
        printing::show_report(out, sheet)?;
        rest = after;
    }
    Ok(())
}

// The reports on the sheets of the input, the first 65,536 bytes. Where it cannot be read there is none, and where a report cannot be written
// none behind it.
// `asking::ask_all` reads as much and does something else with it; one function with a closure would be no plainer.
pub fn run<R: Read, W: Write>(from: &mut R, out: &mut W) -> io::Result<()> {
    // No heap: room for the first 65,536 bytes, and a count beside it.
    let mut bytes = [0u8; 65536];
    let count = input::read_all(from, &mut bytes)?;
    all_sheets(out, &bytes[..count])
}
