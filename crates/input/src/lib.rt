// Reading to the end of the input, and knowing a failure from the end: of half a sheet nothing may be answered.
//
// Which bytes a read puts into the buffer, and whether one fails, the system's contract does not say. What can be promised is what its
// answer is taken to mean, that the count lies within the buffer, and that reading ends.
#![tactic(auto)]

ghost use Rattle.std.specs.Prelude.{length};
ghost use Rattle.input.specs.Reading.{Goes, Means, Within};

use std::io;
use std::io::{ErrorKind, Read};

// What a read that did not fail came to, or one that a signal interrupted.
#[derive(Clone, Copy)]
enum Step {
    More { count: usize },
    End,
    Interrupted,
}

// What the answer of a read means: a failure is never the end. One that a signal interrupted may be tried again, while tries are left.
fn step_of(answer: io::Result<usize>, tries: usize) -> io::Result<Step>
    ensures { Means result answer tries }
{
    match answer {
        Ok(0) => Ok(Step::End),
        Ok(count) => Ok(Step::More { count }),
        Err(error) => {
            if tries > 0 && error.kind() == ErrorKind::Interrupted {
                return Ok(Step::Interrupted);
            }
            Err(error)
        }
    }
}

// One read into the rest of the buffer.
fn read_some<R: Read>(from: &mut R, rest: &mut [u8], tries: usize) -> io::Result<Step>
    ensures { Goes result (length rest.old) tries }
{
    step_of(from.read(rest), tries)
}

// Reads until the buffer is full or a read answers that the input ends: all that was read are the first bytes of the buffer, or it is the
// error of the failed read. Interrupted reads are tried again a thousand times in all, so that it ends whatever the system does.
pub fn read_all<R: Read>(from: &mut R, buf: &mut [u8]) -> io::Result<usize>
    ensures { Within result buf.new }
{
    let mut at = 0;
    let mut tries = 1000;
    // `at` goes on by what a read gave, and a try is lost only where one was interrupted, so no `for` counts either.
    while at < buf.len() {
        match read_some(from, &mut buf[at..], tries)? {
            Step::More { count } => at += count,
            Step::End => return Ok(at),
            Step::Interrupted => tries -= 1,
        }
    }
    Ok(at)
}
