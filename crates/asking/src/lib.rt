// Asks every public operation the stored questions of an input, and prints what came back.
//
// A case is the operation (1 byte), two numbers (8 bytes each), the room lent (2 bytes), the length of what follows (2 bytes) and that
// many bytes: a sheet, or the words of a table at 8 bytes each. Numbers stand lowest byte first. The line of a case has the eleven fields
// of its reply, and then the words that were written; the text of a written sheet or a report follows its line. What else changed in the
// lent buffer would be printed too.
#![tactic(auto)]

use replies::Reply;
use std::io;
use std::io::{Read, Write};

// There is no heap: what is lent and what is read are arrays here, with a slice of them or a count.

// What a lent list holds, and a lent text.
const BLANK_WORD: u64 = 0xA5A5A5A5A5A5A5A5;

const BLANK_BYTE: u8 = 0xA5;

// What may be asked, in the order of the bytes that stand for it.
#[derive(Clone, Copy)]
enum Op {
    Check,
    Read,
    Write,
    Quorum,
    Greatest,
    Blocks,
    Verdict,
    Minimal,
    Blocking,
    Intact,
    Report,
}

// A byte that stands for no operation.
#[derive(Clone, Copy)]
struct UnknownOp;

impl TryFrom<u8> for Op {
    type Error = UnknownOp;

    fn try_from(code: u8) -> Result<Op, UnknownOp> {
        match code {
            0 => Ok(Op::Check),
            1 => Ok(Op::Read),
            2 => Ok(Op::Write),
            3 => Ok(Op::Quorum),
            4 => Ok(Op::Greatest),
            5 => Ok(Op::Blocks),
            6 => Ok(Op::Verdict),
            7 => Ok(Op::Minimal),
            8 => Ok(Op::Blocking),
            9 => Ok(Op::Intact),
            10 => Ok(Op::Report),
            _ => Err(UnknownOp),
        }
    }
}

// A case in its parts.
#[derive(Clone, Copy)]
struct Case<'a> {
    op: Op,
    a: u64,
    b: u64,
    room: usize,
    payload: &'a [u8],
}

// A number of two bytes.
fn two(bytes: &[u8; 2]) -> usize {
    usize::from(u16::from_le_bytes(*bytes))
}

// The case at the start of the bytes and what follows it, if they are one.
fn case_at(s: &[u8]) -> Option<(Case<'_>, &[u8])> {
    let (code, s) = s.split_first()?;
    let op = Op::try_from(*code).ok()?;
    let (a, s) = s.split_first_chunk::<8>()?;
    let (b, s) = s.split_first_chunk::<8>()?;
    let (room, s) = s.split_first_chunk::<2>()?;
    let (length, s) = s.split_first_chunk::<2>()?;
    let (payload, rest) = s.split_at_checked(two(length))?;
    let case = Case {
        op,
        a: u64::from_le_bytes(*a),
        b: u64::from_le_bytes(*b),
        room: two(room),
        payload,
    };
    Some((case, rest))
}

// Writes the fields of a reply.
fn put_reply<W: Write>(out: &mut W, r: &Reply) -> io::Result<()> {
    let Reply {
        number,
        place,
        nodes,
        records,
        answer,
        set,
        rounds,
        first,
        second,
        count,
        visits,
    } = *r;
    write!(
        out,
        "{number}\t{place}\t{nodes}\t{records}\t{answer}\t{set}\t{rounds}"
    )?;
    write!(out, "\t{first}\t{second}\t{count}\t{visits}")
}

// How much of a lent buffer a reply claims.
fn claimed(r: &Reply) -> u64 {
    if r.number == 0 { r.count } else { 0 }
}

// The line of a list: the reply, the first words, and any other that is not as it was lent.
fn put_list<W: Write>(out: &mut W, r: &Reply, list: &[u64; 520]) -> io::Result<()> {
    put_reply(out, r)?;
    for (i, word) in list.iter().enumerate() {
        if (i as u64) < claimed(r) || *word != BLANK_WORD {
            write!(out, "\t{word}")?;
        }
    }
    out.write_all(b"\n")
}

// The line of a text, and behind it the first bytes, and any other that is not as it was lent.
fn put_text<W: Write>(out: &mut W, r: &Reply, text: &[u8; 4096]) -> io::Result<()> {
    put_reply(out, r)?;
    out.write_all(b"\n")?;
    for (i, byte) in text.iter().enumerate() {
        if (i as u64) < claimed(r) || *byte != BLANK_BYTE {
            out.write_all(&[*byte])?;
        }
    }
    Ok(())
}

// A question that is lent so much of a list.
// Its twin below lends bytes and prints a text behind the line; one function for both would be handed the printing too, which is no plainer.
fn lend_list<W: Write, F: FnOnce(&mut [u64]) -> Reply>(
    out: &mut W,
    room: usize,
    ask: F,
) -> io::Result<()>
    requires { F.IsAlwaysCallable ask }
{
    let mut list = [BLANK_WORD; 520];
    if room > list.len() {
        return Ok(());
    }
    let r = ask(&mut list[..room]);
    put_list(out, &r, &list)
}

// A question that is lent so much of a buffer.
fn lend_text<W: Write, F: FnOnce(&mut [u8]) -> Reply>(
    out: &mut W,
    room: usize,
    ask: F,
) -> io::Result<()>
    requires { F.IsAlwaysCallable ask }
{
    let mut text = [BLANK_BYTE; 4096];
    if room > text.len() {
        return Ok(());
    }
    let r = ask(&mut text[..room]);
    put_text(out, &r, &text)
}

// A question that writes nothing.
fn plain<W: Write>(out: &mut W, r: &Reply) -> io::Result<()> {
    put_reply(out, r)?;
    out.write_all(b"\n")
}

// A question on a table.
fn ask<W: Write>(out: &mut W, case: &Case, table: &[u64]) -> io::Result<()> {
    let (a, b, room) = (case.a, case.b, case.room);
    match case.op {
        Op::Write => lend_text(out, room, |text| {
            interface::breezedrum_write_sheet(table, text)
        }),
        Op::Minimal => lend_list(out, room, |list| {
            interface::breezedrum_minimal(table, a, list)
        }),
        Op::Blocking => lend_list(out, room, |list| {
            interface::breezedrum_blocking(table, a, list)
        }),
        Op::Quorum => plain(out, &interface::breezedrum_quorum(table, a, b)),
        Op::Greatest => plain(out, &interface::breezedrum_greatest(table, a, b)),
        Op::Blocks => plain(out, &interface::breezedrum_blocks(table, a, b)),
        Op::Verdict => plain(out, &interface::breezedrum_verdict(table, a, b)),
        Op::Intact => plain(out, &interface::breezedrum_intact(table, a, b)),
        _ => plain(out, &interface::breezedrum_check(table)),
    }
}

// A question on the words that the bytes spell.
fn ask_words<W: Write>(out: &mut W, case: &Case) -> io::Result<()> {
    let (spelled, _) = case.payload.as_chunks::<8>();
    let mut words = [0u64; 520];
    for (word, bytes) in words.iter_mut().zip(spelled) {
        *word = u64::from_le_bytes(*bytes);
    }
    let count = spelled.len();
    if count > words.len() {
        return Ok(());
    }
    ask(out, case, &words[..count])
}

// A case, asked.
fn run<W: Write>(out: &mut W, case: &Case) -> io::Result<()> {
    let sheet = case.payload;
    match case.op {
        Op::Read => lend_list(out, case.room, |list| {
            interface::breezedrum_read_sheet(sheet, list)
        }),
        Op::Report => lend_text(out, case.room, |text| {
            interface::breezedrum_report(sheet, text)
        }),
        _ => ask_words(out, case),
    }
}

// All cases, one behind the other: each takes 21 bytes or more of 65,536.
fn all_cases<W: Write>(out: &mut W, s: &[u8]) -> io::Result<()> {
    let mut rest = s;
    for _ in 0..4096 {
        let Some((case, after)) = case_at(rest) else {
            break;
        };
        run(out, &case)?;
        rest = after;
    }
    Ok(())
}

// The stored questions of the input, the first 65,536 bytes, asked in turn.
pub fn ask_all<R: Read, W: Write>(from: &mut R, out: &mut W) -> io::Result<()> {
    let mut bytes = [0u8; 65536];
    let count = input::read_all(from, &mut bytes)?;
    all_cases(out, &bytes[..count])
}
