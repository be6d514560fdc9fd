// A list as it stands in a report.
use replies::Reply;
use words::Word;

// A list of a report: the words that it goes by, what was replied, and the sets that follow its line.
#[derive(Clone, Copy)]
pub struct ListPart<'a> {
    pub name: Word,
    pub letter: Word,
    pub reply: Reply,
    pub sets: &'a [u64],
}
