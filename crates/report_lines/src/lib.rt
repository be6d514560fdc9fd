// The lines of the report (SPECIFICATION 9): each is one list of fields, made of what an answer says. `fields` writes it.
#![tactic(auto)]

ghost use Rattle.std.specs.Prelude.{◌≡◌};
ghost use Rattle.replies.specs.Shows.{told};
ghost use Rattle.words.specs.Words.{word_text};
ghost use Rattle.report_lines.specs.Lines.{refused_line, nodes_line, answer_text, verdict_line, list_line, set_line, Fields};

use fields::Field;
use fields::Field::{Fixed, Number, Set};
use replies::Reply;
use words::Word;

// A sheet is turned away: number and place.
pub fn refused(r: Reply) -> [Field; 3]
    ensures { Fields 3 result (refused_line (told r)) }
{
    [Fixed(Word::Refused), Number(r.number), Number(r.place)]
}

// The nodes and records of a table.
pub fn nodes(r: Reply) -> [Field; 4]
    ensures { Fields 4 result (nodes_line (told r)) }
{
    [
        Fixed(Word::Nodes),
        Number(r.nodes),
        Fixed(Word::Sets),
        Number(r.records),
    ]
}

// Yes or no where the question is answered, and a hyphen where it is not.
fn answer(r: Reply) -> Word
    ensures { word_text result ≡ answer_text (told r) }
{
    if r.number != 0 {
        return Word::Hyphen;
    }
    if r.answer == 1 {
        return Word::Yes;
    }
    Word::No
}

// The verdict: number, answer, visits and the two sets.
pub fn verdict(r: Reply) -> [Field; 6]
    ensures { Fields 6 result (verdict_line (told r)) }
{
    [
        Fixed(Word::Verdict),
        Number(r.number),
        Fixed(answer(r)),
        Number(r.visits),
        Set(r.first),
        Set(r.second),
    ]
}

// A list before its sets, by its name: number, count and visits.
pub fn listed(name: Word, r: Reply) -> [Field; 4]
    ensures { Fields 4 result (list_line (word_text name) (told r)) }
{
    [
        Fixed(name),
        Number(r.number),
        Number(r.count),
        Number(r.visits),
    ]
}

// One set of a list, behind the letter of the list.
pub fn one(letter: Word, set: u64) -> [Field; 2]
    ensures { Fields 2 result (set_line (word_text letter) set) }
{
    [Fixed(letter), Set(set)]
}
