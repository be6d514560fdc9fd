// The parts of a report as they are measured and written (SPECIFICATION 9): the lines of the nodes and the verdict, and each list with the
// lines of its sets. Each part is lent what is left of the buffer.
#![tactic(auto)]

ghost use Rattle.std.specs.Prelude.{◌≡◌, ◌*◌, ◌≤◌, length, take};
ghost use Rattle.decimal.specs.Bytes.{Written};
ghost use Rattle.words.specs.Words.{word_text};
ghost use Rattle.fields.specs.Fields.{Counted};
ghost use Rattle.report_lines.specs.Lines.{set_lines};
ghost use Rattle.report_parts.specs.Parts.{following as following_of, head_text, text_of, all_text, IsListOf};

use replies::Reply;
use words::Word;

mod list_part;

pub use list_part::ListPart;

// How many set lines follow the line of a list: none where it is not answered.
pub fn following(r: Reply) -> usize
    ensures { result ≡ following_of r }
{
    if r.number == 0 {
        return r.count as usize;
    }
    0
}

// A list with as many of the sets as follow its line.
pub fn list(name: Word, letter: Word, reply: Reply, sets: &[u64]) -> ListPart<'_>
    requires { following_of reply ≤ length sets.now }
    ensures { IsListOf name letter reply (take (following_of reply) sets.now) result }
{
    ListPart {
        name,
        letter,
        reply,
        sets: &sets[..following(reply)],
    }
}

// How many bytes the sets of a list take, a line for each behind the letter of the list.
fn sets_len(letter: Word, sets: &[u64]) -> usize
    requires { length sets.now ≤ 1024 }
    ensures { Counted (set_lines (word_text letter) sets.now) (1092 * length sets.now) result }
{
    let mut total = 0;
    for set in sets {
        total += fields::line_len(&report_lines::one(letter, *set));
    }
    total
}

// Those lines at the front of out, each into what is left of it.
fn put_sets(out: &mut [u8], letter: Word, sets: &[u64]) -> usize
    requires { length (set_lines (word_text letter) sets.now) ≤ length out.old }
    ensures { Written (set_lines (word_text letter) sets.now) out.old out.new result }
{
    let mut at = 0;
    for set in sets {
        at += fields::put_line(&mut out[at..], &report_lines::one(letter, *set));
    }
    at
}

// How many bytes the lines of the nodes and the verdict take.
// The two replies are those of the check and of the verdict; a struct of both would be opened at once wherever it is lent.
pub fn head_len(c: Reply, v: Reply) -> usize
    ensures { Counted (head_text c v) 2184 result }
{
    let nodes = report_lines::nodes(c);
    let verdict = report_lines::verdict(v);
    fields::line_len(&nodes) + fields::line_len(&verdict)
}

// These two lines at the front of out.
fn put_head(out: &mut [u8], c: Reply, v: Reply) -> usize
    requires { length (head_text c v) ≤ length out.old }
    ensures { Written (head_text c v) out.old out.new result }
{
    let nodes = report_lines::nodes(c);
    let verdict = report_lines::verdict(v);
    let at = fields::put_line(out, &nodes);
    at + fields::put_line(&mut out[at..], &verdict)
}

// How many bytes a list takes: its line, and the lines of its sets.
pub fn list_len(list: &ListPart) -> usize
    requires { length list.now.sets.now ≤ 1024 }
    ensures { Counted (text_of list.now) 1119300 result }
{
    let line = report_lines::listed(list.name, list.reply);
    fields::line_len(&line) + sets_len(list.letter, list.sets)
}

// A list at the front of out.
fn put_list(out: &mut [u8], list: &ListPart) -> usize
    requires { length (text_of list.now) ≤ length out.old }
    ensures { Written (text_of list.now) out.old out.new result }
{
    let line = report_lines::listed(list.name, list.reply);
    let at = fields::put_line(out, &line);
    at + put_sets(&mut out[at..], list.letter, list.sets)
}

// The three parts of a report at the front of out, each into what is left of it.
pub fn put_parts(out: &mut [u8], c: Reply, v: Reply, quorums: &ListPart, blocks: &ListPart) -> usize
    requires { length (all_text c v quorums.now blocks.now) ≤ length out.old }
    ensures { Written (all_text c v quorums.now blocks.now) out.old out.new result }
{
    let head = put_head(out, c, v);
    let at = head + put_list(&mut out[head..], quorums);
    at + put_list(&mut out[at..], blocks)
}
