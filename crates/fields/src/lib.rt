// A line of fields, each a fixed word, a number or a set of nodes, with tabs between them: the one writer of every line that is no sheet's.
#![tactic(auto)]

ghost use Rattle.std.specs.Prelude.{◌≡◌, ◌<◌, ◌≤◌, length};
ghost use Rattle.decimal.specs.Bytes.{Written};
ghost use Rattle.fields.specs.Fields.{field_text, kind_text, line_of, end_at, ended, Counted};

use words::Word;

// A field: one of the fixed words, a number, or a set of nodes.
#[derive(Clone, Copy)]
pub enum Field {
    Fixed(Word),
    Number(u64),
    Set(u64),
}

impl Field {
    // A field by its numbers: of kind 0 it is the word of x, of 1 the number x and of 2 the set x; of any other kind it is blank.
    #[tactic(auto, unfolding(crate::specs::Fields::kind_text))]
    pub fn numbered(kind: u64, x: u64) -> Field
        ensures { field_text result ≡ kind_text kind x }
    {
        match kind {
            0 => Field::Fixed(Word::from(x)),
            1 => Field::Number(x),
            2 => Field::Set(x),
            _ => Field::Fixed(Word::Blank),
        }
    }
}

// The text of one field, at the front of out.
fn put_text(out: &mut [u8], field: Field) -> usize
    requires { length (field_text field) ≤ length out.old }
    ensures { Written (field_text field) out.old out.new result }
{
    match field {
        Field::Fixed(word) => words::put_word(out, word),
        Field::Number(n) => decimal::put_number(out, n),
        Field::Set(set) => members::put_members(out, set),
    }
}

// One field and the byte behind it.
fn put_field(out: &mut [u8], field: Field, end: u8) -> usize
    requires { length (ended (field_text field) end) ≤ length out.old }
    ensures { Written (ended (field_text field) end) out.old out.new result }
{
    let k = put_text(out, field);
    out[k] = end;
    k + 1
}

// The byte behind a field of so many: a tab, or LF behind the last.
fn end_at(count: usize, i: usize) -> u8
    requires { i < count }
    ensures { result ≡ end_at count i }
{
    if i + 1 < count { b'\t' } else { b'\n' }
}

// The line of the fields at the front of out, each field into what is left of it; answers how many bytes it takes.
pub fn put_line(out: &mut [u8], fields: &[Field]) -> usize
    requires { length (line_of fields.now) ≤ length out.old }
    ensures { Written (line_of fields.now) out.old out.new result }
{
    let mut at = 0;
    for (i, field) in fields.iter().enumerate() {
        let end = end_at(fields.len(), i);
        at += put_field(&mut out[at..], *field, end);
    }
    at
}

// How many bytes the text of one field takes: no more than 181, as the longest set of nodes does.
fn text_len(field: Field) -> usize
    ensures { Counted (field_text field) 181 result }
{
    match field {
        Field::Fixed(word) => words::put_word(&mut [0; 8], word),
        Field::Number(n) => decimal::number_len(n),
        Field::Set(set) => members::members_len(set),
    }
}

// How many bytes the line of up to six fields takes, which is never more than 1,092.
// Six is the bound of a slice, as an index has one; an array type for each count would be no plainer.
pub fn line_len(fields: &[Field]) -> usize
    requires { length fields.now ≤ 6 }
    ensures { Counted (line_of fields.now) 1092 result }
{
    let mut len = 0;
    for field in fields {
        len += text_len(*field) + 1;
    }
    len
}
