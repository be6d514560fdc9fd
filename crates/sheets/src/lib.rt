// Trust sheets: a sheet is read into a lent table, and a table is written as a sheet (SPECIFICATION 2 and 7). A refusal leaves what was
// lent untouched: lines are read into words of the reader's own, and a writer knows the length of the whole text before it writes.
#![tactic(auto)]

ghost use Rattle.std.specs.Prelude.{◌≡◌, cond, ◌+◌, ◌*◌, ◌<◌, ◌≤◌, length};
ghost use Rattle.decimal.specs.Bytes.{at_front};
ghost use Rattle.answers.specs.Said.{read_says, wrote_says};
ghost use Rattle.lines.specs.Lines.{given, is_nought};
ghost use Rattle.sheets.specs.Sheets.{earlier, sheet_text, sheet_lines};
ghost use Rattle.sheets.specs.Promises.{ReadPromise, WritePromise, Put, Takes, with_record};

use answers::{Fault, Refusal};
use lines::Line;
use tables::Table;

// What the lines of a good sheet come to: how many words, and the first line whose threshold is a written 0; 0 where there is none.
// No `Option`: 0 is what the definitions have for none (`Sheets.Taken`, `Faults.check_lines`).
#[derive(Clone, Copy)]
pub struct Lines {
    pub count: u64,
    pub nought: u64,
}

// The first line whose threshold is a written 0: one of those before, or else this line, where it has one.
pub fn first_nought(before: u64, threshold: Option<u64>, line: u64) -> u64
    ensures { result ≡ earlier before (cond (is_nought threshold) line 0) }
{
    if before == 0 && threshold == Some(0) {
        return line;
    }
    before
}

// The record of a line goes into the words, behind those of the r lines before it.
pub fn put_record(words: &mut [u64], r: u64, line: Line)
    requires { (2 * r + 1 < length words.old) × (line.level ≤ 3) × (given line.threshold ≤ 255) }
    ensures { words.new ≡ with_record words.old r line.level (given line.threshold) line.members }
{
    let at = 2 * r as usize;
    words[at] = line.threshold.unwrap_or(0) + 256 * line.level;
    words[at + 1] = line.members;
}

// The lines of a sheet in turn, each from where the one before ended: their records go into the words, two a record, unless a line
// is malformed or stands where none is left to take.
fn take_lines(sheet: &[u8], words: &mut [u64]) -> Result<Lines, Refusal>
    requires { length words.old ≡ 512 }
    ensures { Takes (sheet_lines sheet.now) words.new result }
{
    let mut at = 0;
    let mut nought = 0;
    for r in 0..256 {
        if at == sheet.len() {
            return Ok(Lines {
                count: 2 * r,
                nought,
            });
        }
        let Some((line, used)) = lines::line_at(sheet, at) else {
            return Err(Refusal::Malformed { line: r + 1 });
        };
        put_record(words, r, line);
        nought = first_nought(nought, line.threshold, r + 1);
        at += used;
    }
    if at < sheet.len() {
        return Err(Refusal::Bad(Fault::Count(257)));
    }
    Ok(Lines { count: 512, nought })
}

// The words into the table, if it has room for them.
fn fill_table(words: &[u64], table: &mut [u64]) -> Result<u64, Refusal>
    ensures { Put words.now table.old table.new (read_says result) }
{
    let count = words.len() as u64;
    if table.len() < words.len() {
        return Err(Refusal::Short { count });
    }
    table[..words.len()].copy_from_slice(words);
    Ok(count)
}

// The lines are taken first, then their records are checked, and only a sound table is copied to the caller's.
pub fn read_sheet(sheet: &[u8], table: &mut [u64]) -> Result<u64, Refusal>
    ensures { ReadPromise sheet.now table.old table.new result }
{
    // No heap: room for the words of 256 lines, and a count beside it.
    let mut words = [0u64; 512];
    let Lines { count, nought } = take_lines(sheet, &mut words)?;
    let k = count as usize;
    faults::check_lines(&words[..k], nought)?;
    fill_table(&words[..k], table)
}

// How many bytes the text of a table takes.
fn sheet_len(table: &Table) -> usize
    ensures { result ≡ length (sheet_text table.now) }
{
    let mut need = 0;
    for r in 0..table.records() {
        need += lines::line_len(table.level(r), table.threshold(r), table.members(r));
    }
    need
}

// The text of a table at the front of the sheet, each line into what is left of it.
fn put_lines(table: &Table, sheet: &mut [u8])
    requires { length (sheet_text table.now) ≤ length sheet.old }
    ensures { sheet.new ≡ at_front (sheet_text table.now) sheet.old }
{
    let mut at = 0;
    for r in 0..table.records() {
        let level = table.level(r);
        let threshold = table.threshold(r);
        let members = table.members(r);
        at += lines::put_line(&mut sheet[at..], level, threshold, members);
    }
}

// The text of a sound table into the sheet, if it has room for it.
fn fill_sheet(table: &Table, sheet: &mut [u8]) -> Result<u64, Refusal>
    ensures { Put (sheet_text table.now) sheet.old sheet.new (wrote_says result) }
{
    let need = sheet_len(table);
    let count = need as u64;
    if sheet.len() < need {
        return Err(Refusal::Short { count });
    }
    put_lines(table, sheet);
    Ok(count)
}

// The table is checked first, and only a sound one is written.
pub fn write_sheet(table: &[u64], sheet: &mut [u8]) -> Result<u64, Refusal>
    ensures { WritePromise table.now sheet.old sheet.new result }
{
    let table = faults::sound_table(table)?;
    fill_sheet(&table, sheet)
}
