// The report on an output, one line after the other, within a small stack: the same lines that `report` puts into a buffer. Which
// bytes the system writes no contract can say; each function that prints a part of the report on a table is told how many bytes are handed over
// before it, and asks that the part stands there in the report. It answers how many bytes of the report are handed over then, or the error of
// a failed write, which ends the printing.
#![tactic(auto)]

ghost use Rattle.std.specs.Prelude.{◌≡◌, ◌≤◌, length};
ghost use Rattle.replies.specs.Shows.{told};
ghost use Rattle.words.specs.Words.{word_text};
ghost use Rattle.fields.specs.Fields.{line_of};
ghost use Rattle.report_lines.specs.Lines.{refused_line, list_line, set_lines};
ghost use Rattle.report_parts.specs.Parts.{text_of};
ghost use Rattle.report.specs.Report.{head_part, minimal_part, blocking_part, report_on, report_of};
ghost use Rattle.intake.specs.Intake.{WasRead};
ghost use Rattle.printing.specs.Printing.{Stands, Handed, All, counted_is, report_from};

use answers::Refusal;
use fields::Field;
use replies::{Reply, Says};
use report_parts::ListPart;
use std::io;
use std::io::Write;
use words::Word;

// What is counted of so many bytes: all, if they were taken.
fn counted(taken: io::Result<()>, bytes: usize) -> io::Result<usize>
    ensures { result ≡ counted_is taken bytes }
{
    taken?;
    Ok(bytes)
}

// Hands the bytes of a line over, which the fields say.
fn hand<W: Write>(out: &mut W, fields: &[Field], bytes: &[u8]) -> io::Result<usize>
    requires { (bytes.now ≡ line_of fields.now) × (length bytes.now ≤ 1092) }
    ensures { Handed (line_of fields.now) 0 1092 result }
{
    counted(out.write_all(bytes), bytes.len())
}

// A line of at most 1,092 bytes, as each line of the report is, behind the bytes that are handed over before it. A report has some two million
// bytes at the most; the bounds on how many are handed over already are there so that the counts can be added.
fn print<W: Write>(out: &mut W, at: usize, fields: &[Field]) -> io::Result<usize>
    requires { (at ≤ 4000000) × (length (line_of fields.now) ≤ 1092) }
    ensures { Handed (line_of fields.now) at 1092 result }
{
    // No heap: room for the longest line, and a count beside it.
    let mut line = [0u8; 1092];
    let len = fields::put_line(&mut line, fields);
    let to = hand(out, fields, &line[..len])?;
    Ok(at + to)
}

// A line of the report on a table, which stands there. The table is lent for what is asked alone, so that nothing else can be printed.
fn show<W: Write>(out: &mut W, table: &[u64], at: usize, fields: &[Field]) -> io::Result<usize>
    requires { (Stands (report_on table.now) at (line_of fields.now)) × (at ≤ 4000000) × (length (line_of fields.now) ≤ 1092) }
    ensures { Handed (line_of fields.now) at 1092 result }
{
    print(out, at, fields)
}

// A line for each set of a list, behind the letter of the list.
fn show_sets<W: Write>(
    out: &mut W,
    table: &[u64],
    at: usize,
    letter: Word,
    sets: &[u64],
) -> io::Result<usize>
    requires { (Stands (report_on table.now) at (set_lines (word_text letter) sets.now)) × (at ≤ 2000000) × (length sets.now ≤ 1024) }
    ensures { Handed (set_lines (word_text letter) sets.now) at 1118208 result }
{
    let mut place = at;
    for set in sets {
        let line = report_lines::one(letter, *set);
        place = show(out, table, place, &line)?;
    }
    Ok(place)
}

// The line of a list, before its sets. The reply is passed by value, since its numbers are then known to have 64 bits.
fn show_listed<W: Write>(
    out: &mut W,
    table: &[u64],
    at: usize,
    name: Word,
    reply: Reply,
) -> io::Result<usize>
    requires { (Stands (report_on table.now) at (list_line (word_text name) (told reply))) × (at ≤ 4000000) }
    ensures { Handed (list_line (word_text name) (told reply)) at 1092 result }
{
    let line = report_lines::listed(name, reply);
    show(out, table, at, &line)
}

// A list: its line, and the lines of its sets.
fn show_list<W: Write>(out: &mut W, table: &[u64], at: usize, list: &ListPart) -> io::Result<usize>
    requires { (Stands (report_on table.now) at (text_of list.now)) × (at ≤ 1500000) × (length list.now.sets.now ≤ 1024) }
    ensures { Handed (text_of list.now) at 1119300 result }
{
    let to = show_listed(out, table, at, list.name, list.reply)?;
    show_sets(out, table, to, list.letter, list.sets)
}

// The nodes and records of the table, and the verdict: what the report starts with.
fn show_head<W: Write>(out: &mut W, table: &[u64]) -> io::Result<usize>
    ensures { Handed (head_part table.now) 0 2184 result }
{
    let nodes = report_lines::nodes(faults::check_table(table).reply());
    let to = show(out, table, 0, &nodes)?;
    let verdict = verdict::intersect(table, 0, report::ALLOWANCE);
    let line = report_lines::verdict(verdict.reply());
    show(out, table, to, &line)
}

// The minimal quorums.
// Its twin below asks another question and stands at another part of the report (`minimal_part`, `blocking_part`); one function with a switch would be
// no plainer. So it is with `report::minimal` and `report::blocking`.
fn show_minimal<W: Write>(out: &mut W, table: &[u64], at: usize) -> io::Result<usize>
    requires { (Stands (report_on table.now) at (minimal_part table.now)) × (at ≤ 1500000) }
    ensures { Handed (minimal_part table.now) at 1119300 result }
{
    let mut sets = [0u64; 1024];
    let listed = report::minimal(table, &mut sets);
    let list = report_parts::list(Word::Minimal, Word::Q, listed, &sets);
    show_list(out, table, at, &list)
}

// The minimal blocking sets.
fn show_blocking<W: Write>(out: &mut W, table: &[u64], at: usize) -> io::Result<usize>
    requires { (Stands (report_on table.now) at (blocking_part table.now)) × (at ≤ 1500000) }
    ensures { Handed (blocking_part table.now) at 1119300 result }
{
    let mut sets = [0u64; 1024];
    let listed = report::blocking(table, &mut sets);
    let list = report_parts::list(Word::Blocking, Word::B, listed, &sets);
    show_list(out, table, at, &list)
}

// The report on a table, which is that on what was read.
fn show_table<W: Write>(
    out: &mut W,
    read: Result<u64, Refusal>,
    words: &[u64],
    table: &[u64],
) -> io::Result<usize>
    requires { report_on table.now ≡ report_from read words.now }
    ensures { All (report_from read words.now) result }
{
    let to = show_head(out, table)?;
    let behind = show_minimal(out, table, to)?;
    show_blocking(out, table, behind)
}

// A bad sheet: one line.
// What was read and the words it was read to are lent to say whose report this is (`report_from`); a struct would say the same with a name more.
fn show_refused<W: Write>(
    out: &mut W,
    read: Result<u64, Refusal>,
    words: &[u64],
    r: Reply,
) -> io::Result<usize>
    requires { refused_line (told r) ≡ report_from read words.now }
    ensures { All (report_from read words.now) result }
{
    let line = report_lines::refused(r);
    print(out, 0, &line)
}

// The report on a sheet, from what it was read to: one line for a bad one, otherwise that on the table of its words.
pub fn show_read<W: Write>(
    out: &mut W,
    read: Result<u64, Refusal>,
    words: &[u64],
) -> io::Result<usize>
    requires { WasRead read words.now }
    ensures { (w : WasRead read words.now) → All (report_of w.sheet) result }
{
    let Ok(count) = read else {
        return show_refused(out, read, words, read.reply());
    };
    let k = count as usize;
    show_table(out, read, words, &words[..k])
}

// The report on a sheet.
pub fn show_report<W: Write>(out: &mut W, sheet: &[u8]) -> io::Result<usize>
    ensures { All (report_of sheet.now) result }
{
    // No heap: room for the words of 256 lines, and a count beside it.
    let mut words = [0u64; 512];
    let read = sheets::read_sheet(sheet, &mut words);
    show_read(out, read, &words)
}
