// What the report program does (SPECIFICATION 9). It is a library function, so that programs with other stored runs are the same program: a
// program has one run in the gate.
#![tactic(auto)]

use std::env::{Env, FillError};
use std::io::{Read, Write};

// Is there an argument, behind the program's name?
fn has_argument(rt: &impl Env) -> bool {
    !matches!(rt.arg(1, &mut []), Err(FillError::NotPresent))
}

// The report on the sheet that the input holds. Of half a sheet nothing may be answered, so where a read fails there is a line on
// standard error and no report; a write that fails ends the report, and is told there too. An argument is not a sheet.
pub fn run<R: Read, W: Write>(rt: &(impl Env + Eprint), from: &mut R, out: &mut W) {
    if has_argument(rt) {
        let _ = eprintln!(rt; "usage: breezedrum < SHEET");
        return;
    }
    // No heap: room for the words of 256 lines, and a count beside it.
    let mut words = [0u64; 512];
    let read = match intake::take(from, &mut words) {
        Ok(read) => read,
        Err(error) => {
            let _ = eprintln!(rt; "breezedrum: standard input: {error}");
            return;
        }
    };
    let shown = printing::show_read(out, read, &words);
    if let Err(error) = shown {
        let _ = eprintln!(rt; "breezedrum: standard output: {error}");
    }
}
