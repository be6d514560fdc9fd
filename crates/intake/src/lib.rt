// Reading a sheet from an input as it comes in. Only a window of it is held, so that little stack is taken: a line has at most 188 bytes,
// and its record is two words.
#![tactic(auto)]

ghost use Rattle.std.specs.Prelude.{◌≡◌, ◌-◌, ◌≤◌, length, take, drop};
ghost use Rattle.intake.specs.Intake.{FitsIn, filled_is, Widens, Hears, Reaches, Judges, TakesIn};

use answers::{Fault, Refusal};
use sheets::Lines;
use std::io;

// How many bytes of the window there are, and whether the input has ended behind them.
#[derive(Clone, Copy)]
struct Window {
    count: usize,
    ended: bool,
}

// What the lines came to, whether the input had ended by then, and how many bytes were read.
#[derive(Clone, Copy)]
struct Heard {
    lines: Result<Lines, Refusal>,
    ended: bool,
    bytes: usize,
}

// What a read behind so many bytes comes to: a window that it did not fill is the last, and a failure is never the end.
fn filled(len: usize, got: io::Result<usize>) -> io::Result<Window>
    requires { FitsIn len got }
    ensures { result ≡ filled_is len got }
{
    let count = len + got?;
    Ok(Window {
        count,
        ended: count < 512,
    })
}

// Reads on where the bytes at hand may be less than a line.
fn widen<R: io::Read>(from: &mut R, buf: &mut [u8], window: Window) -> io::Result<Window>
    requires { (length buf.old ≡ 512) × (window.count ≤ 512) }
    ensures { Widens window.count buf.old buf.new result }
{
    if window.ended || 188 <= window.count {
        return Ok(window);
    }
    let got = input::read_all(from, &mut buf[window.count..]);
    filled(window.count, got)
}

// Drops the first bytes of the window: the others move to the front, and none of them is lost.
fn shift(buf: &mut [u8], used: usize, len: usize)
    requires { (used ≤ len) × (len ≤ length buf.old) }
    ensures { (take (len - used) buf.new ≡ take (len - used) (drop used buf.old)) × (length buf.new ≡ length buf.old) }
{
    buf.copy_within(used..len, 0);
}

// The lines in turn, each judged when it is there as a whole.
fn hear<R: io::Read>(from: &mut R, words: &mut [u64]) -> io::Result<Heard>
    requires { length words.old ≡ 512 }
    ensures { Hears words.new result }
{
    // No heap: the bytes of the window, and their count in `window`.
    let mut buf = [0u8; 512];
    let mut window = Window {
        count: 0,
        ended: false,
    };
    let mut bytes = 0;
    let mut r = 0;
    let mut nought = 0;
    // A window may bring the line that is one too many, so the lines are counted here and not by a `for`.
    let lines = loop {
        let held = window.count;
        window = widen(from, &mut buf, window)?;
        bytes += window.count - held;
        if window.count == 0 {
            break Ok(Lines {
                count: 2 * r,
                nought,
            });
        }
        if r == 256 {
            break Err(Refusal::Bad(Fault::Count(257)));
        }
        let Some((line, used)) = lines::line_at(&buf[..window.count], 0) else {
            break Err(Refusal::Malformed { line: r + 1 });
        };
        sheets::put_record(words, r, line);
        nought = sheets::first_nought(nought, line.threshold, r + 1);
        shift(&mut buf, used, window.count);
        window.count -= used;
        r += 1;
    };
    Ok(Heard {
        lines,
        ended: window.ended,
        bytes,
    })
}

// Reads so many bytes more, which nobody looks at.
fn skip<R: io::Read>(from: &mut R, n: usize) -> io::Result<usize>
    requires { n ≤ 512 }
{
    // No heap: room for as much as is read at once.
    let mut buf = [0u8; 512];
    input::read_all(from, &mut buf[..n])
}

// What follows a line that decides is read too, up to 65,536 bytes in all: of an input that fails nothing is reported.
fn rest<R: io::Read>(from: &mut R, ended: bool, bytes: usize) -> io::Result<()> {
    if ended {
        return Ok(());
    }
    let mut before = bytes;
    while before < 65536 {
        let n = usize::min(512, 65536 - before);
        if skip(from, n)? < n {
            return Ok(());
        }
        before += n;
    }
    Ok(())
}

// The answer to reading a sheet, from what its lines come to.
fn judged(lines: Result<Lines, Refusal>, words: &[u64]) -> Result<u64, Refusal>
    requires { Reaches lines (length words.now) }
    ensures { Judges lines words.now result }
{
    let Lines { count, nought } = lines?;
    faults::check_lines(&words[..count as usize], nought)?;
    Ok(count)
}

// The sheet that the input holds, read into a table: the answer to reading it, or the error of a failed read.
pub fn take<R: io::Read>(from: &mut R, table: &mut [u64]) -> io::Result<Result<u64, Refusal>>
    requires { length table.old ≡ 512 }
    ensures { TakesIn table.new result }
{
    let heard = hear(from, table)?;
    rest(from, heard.ended, heard.bytes)?;
    Ok(judged(heard.lines, table))
}
