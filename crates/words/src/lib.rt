// The fixed words of the report.
#![tactic(auto)]

ghost use Rattle.std.specs.Prelude.{◌≡◌, ◌≤◌, length};
ghost use Rattle.decimal.specs.Bytes.{Written};
ghost use Rattle.words.specs.Words.{word_text, numbered_text};

// The fixed words.
#[derive(Clone, Copy)]
pub enum Word {
    Refused,
    Nodes,
    Sets,
    Verdict,
    Yes,
    No,
    Hyphen,
    Minimal,
    Q,
    Blocking,
    B,
    // no fixed word: nothing is written
    Blank,
}

// The fixed words by their numbers, in the order above from 0; any other number is blank.
impl From<u64> for Word {
    ghost from_gives = { λ number word. word_text word ≡ numbered_text number };

    #[tactic(auto, unfolding(crate::specs::Words::numbered_text))]
    fn from(number: u64) -> Word {
        match number {
            0 => Word::Refused,
            1 => Word::Nodes,
            2 => Word::Sets,
            3 => Word::Verdict,
            4 => Word::Yes,
            5 => Word::No,
            6 => Word::Hyphen,
            7 => Word::Minimal,
            8 => Word::Q,
            9 => Word::Blocking,
            10 => Word::B,
            _ => Word::Blank,
        }
    }
}

// The bytes of a word, at the front of out.
fn copy(word: &[u8], out: &mut [u8]) -> usize
    requires { length word.now ≤ length out.old }
    ensures { Written word.now out.old out.new result }
{
    out[..word.len()].copy_from_slice(word);
    word.len()
}

// One of the fixed words, at the front of out.
pub fn put_word(out: &mut [u8], w: Word) -> usize
    requires { length (word_text w) ≤ length out.old }
    ensures { Written (word_text w) out.old out.new result }
{
    match w {
        Word::Refused => copy(b"refused", out),
        Word::Nodes => copy(b"nodes", out),
        Word::Sets => copy(b"sets", out),
        Word::Verdict => copy(b"verdict", out),
        Word::Yes => copy(b"yes", out),
        Word::No => copy(b"no", out),
        Word::Hyphen => copy(b"-", out),
        Word::Minimal => copy(b"minimal", out),
        Word::Q => copy(b"q", out),
        Word::Blocking => copy(b"blocking", out),
        Word::B => copy(b"b", out),
        Word::Blank => 0,
    }
}
