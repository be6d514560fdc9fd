// The report on a sheet, whole, in a lent buffer (SPECIFICATION 9). The program prints the same lines one by one.
// A buffer that is too short must stay as it was, so the report is measured first.
#![tactic(auto)]

ghost use Rattle.std.specs.Prelude.{◌≡◌, ◌≤◌, length};
ghost use Rattle.answers.specs.Said.{wrote_says};
ghost use Rattle.replies.specs.Shows.{told};
ghost use Rattle.sheets.specs.Promises.{Put};
ghost use Rattle.words.specs.Words as word;
ghost use Rattle.report_lines.specs.Lines.{refused_line};
ghost use Rattle.report_parts.specs.Parts.{all_text};
ghost use Rattle.report.specs.Report.{Part, minimal_part, blocking_part, report_on, ReportPromise};

use answers::Refusal;
use replies::{Reply, Says};
use report_parts::ListPart;
use words::Word;

// The visits that each question may take.
pub const ALLOWANCE: u64 = 1000000;

// The minimal quorums, in a list that has room for 1,024.
// Its twin below asks another question and promises another part; one function with a switch would be no plainer.
pub fn minimal(table: &[u64], sets: &mut [u64]) -> Reply
    requires { length sets.old ≡ 1024 }
    ensures { Part word.minimal word.q (minimal_part table.now) result sets.new }
{
    lists::minimal_quorums(table, ALLOWANCE, sets).reply()
}

// The minimal blocking sets, likewise.
pub fn blocking(table: &[u64], sets: &mut [u64]) -> Reply
    requires { length sets.old ≡ 1024 }
    ensures { Part word.blocking word.b (blocking_part table.now) result sets.new }
{
    lists::blocking_sets(table, ALLOWANCE, sets).reply()
}

// The three parts of a report, if out has room for them.
fn fill(
    out: &mut [u8],
    c: Reply,
    v: Reply,
    quorums: &ListPart,
    blocks: &ListPart,
) -> Result<u64, Refusal>
    requires { (length quorums.now.sets.now ≤ 1024) × (length blocks.now.sets.now ≤ 1024) }
    ensures { Put (all_text c v quorums.now blocks.now) out.old out.new (wrote_says result) }
{
    let lists = report_parts::list_len(quorums) + report_parts::list_len(blocks);
    let need = report_parts::head_len(c, v) + lists;
    let count = need as u64;
    if out.len() < need {
        return Err(Refusal::Short { count });
    }
    report_parts::put_parts(out, c, v, quorums, blocks);
    Ok(count)
}

// The report on a table that was read.
fn report_table(table: &[u64], out: &mut [u8]) -> Result<u64, Refusal>
    ensures { Put (report_on table.now) out.old out.new (wrote_says result) }
{
    let c = faults::check_table(table).reply();
    let v = verdict::intersect(table, 0, ALLOWANCE).reply();
    // No heap: room for 1,024 sets each; how many there are stands in the reply.
    let mut quorums = [0u64; 1024];
    let m = minimal(table, &mut quorums);
    let mut blocks = [0u64; 1024];
    let b = blocking(table, &mut blocks);
    let quorums = report_parts::list(Word::Minimal, Word::Q, m, &quorums);
    let blocks = report_parts::list(Word::Blocking, Word::B, b, &blocks);
    fill(out, c, v, &quorums, &blocks)
}

// A bad sheet: one line.
fn report_refused(r: Reply, out: &mut [u8]) -> Result<u64, Refusal>
    ensures { Put (refused_line (told r)) out.old out.new (wrote_says result) }
{
    let line = report_lines::refused(r);
    let need = fields::line_len(&line);
    let count = need as u64;
    if out.len() < need {
        return Err(Refusal::Short { count });
    }
    fields::put_line(out, &line);
    Ok(count)
}

// The report on a sheet at the front of out: one line for a bad one, otherwise that on the table whose words were read.
pub fn report(sheet: &[u8], out: &mut [u8]) -> Result<u64, Refusal>
    ensures { ReportPromise sheet.now out.old out.new result }
{
    // No heap: room for the words of 256 lines, and a count beside it.
    let mut table = [0u64; 512];
    let read = sheets::read_sheet(sheet, &mut table);
    let Ok(count) = read else {
        return report_refused(read.reply(), out);
    };
    let k = count as usize;
    report_table(&table[..k], out)
}
