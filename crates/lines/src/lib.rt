// Lines of a trust sheet: level, tab, threshold, tab, members, LF (SPECIFICATION 2).
#![tactic(auto)]

ghost use Rattle.std.specs.Prelude.{◌≡◌, ◌≤◌, length, drop};
ghost use Rattle.decimal.specs.Bytes.{Written};
ghost use Rattle.lines.specs.Lines.{field_text, threshold_text, last_text, line_text, read_field, read_threshold, read_last, read_line};

// A record as its line has it: the threshold is a number, or none for the `?` of an unknown archive.
#[derive(Clone, Copy)]
pub struct Line {
    pub level: u64,
    pub threshold: Option<u64>,
    pub members: u64,
}

// The number at the start of s, which a tab must follow, and how many bytes both took.
#[tactic(auto, unfolding(crate::specs::Lines::read_field))]
pub fn read_field(s: &[u8]) -> Option<(u64, usize)>
    ensures { result ≡ read_field s.now }
{
    let (v, k) = decimal::read_number(s)?;
    if decimal::byte_at(s, k) != b'\t' {
        return None;
    }
    Some((v, k + 1))
}

// The threshold at the start of s, which a tab must follow: a number, or at level 0 the `?` of an unknown archive.
#[tactic(auto, unfolding(crate::specs::Lines::read_threshold))]
pub fn read_threshold(s: &[u8], level: u64) -> Option<(Option<u64>, usize)>
    ensures { result ≡ read_threshold level s.now }
{
    if decimal::byte_at(s, 0) == b'?' {
        if level == 0 && decimal::byte_at(s, 1) == b'\t' {
            return Some((None, 2));
        }
        return None;
    }
    let (v, k) = read_field(s)?;
    Some((Some(v), k))
}

// The member list at the start of s, which the line's end must follow.
// It shares one test with `read_field`, of another byte, and reads something else; one function for both would be no plainer.
#[tactic(auto, unfolding(crate::specs::Lines::read_last))]
pub fn read_last(s: &[u8]) -> Option<(u64, usize)>
    ensures { result ≡ read_last s.now }
{
    let (m, k) = members::read_members(s)?;
    if decimal::byte_at(s, k) != b'\n' {
        return None;
    }
    Some((m, k + 1))
}

// The line at the start of s, and how many bytes it took. Each field is read from where the one before ended.
#[tactic(auto, unfolding(crate::specs::Lines::read_line))]
pub fn read_line(s: &[u8]) -> Option<(Line, usize)>
    ensures { result ≡ read_line s.now }
{
    let (level, a) = read_field(s)?;
    if 3 < level {
        return None;
    }
    let (threshold, b) = read_threshold(&s[a..], level)?;
    let at = a + b;
    let (members, k) = read_last(&s[at..])?;
    let line = Line {
        level,
        threshold,
        members,
    };
    Some((line, at + k))
}

// The line that starts where the one before ended.
pub fn line_at(s: &[u8], at: usize) -> Option<(Line, usize)>
    requires { at ≤ length s.now }
    ensures { result ≡ read_line (drop at s.now) }
{
    read_line(&s[at..])
}

// How many bytes the line of a record takes: its fields, two tabs and the line's end.
#[tactic(auto, using(crate::proofs::Texts::lengths))]
pub fn line_len(level: u64, threshold: u64, members: u64) -> usize
    ensures { result ≡ length (line_text level threshold members) }
{
    decimal::number_len(level) + decimal::number_len(threshold) + members::members_len(members) + 3
}

// Writes n and a tab at the front of out, and answers how many bytes that took.
#[tactic(auto, using(crate::proofs::Texts::length_field))]
pub fn put_field(out: &mut [u8], n: u64) -> usize
    requires { length (field_text n) ≤ length out.old }
    ensures { Written (field_text n) out.old out.new result }
{
    let k = decimal::put_number(out, n);
    out[k] = b'\t';
    k + 1
}

// Writes a threshold and a tab at the front of out, `?` for that of an unknown archive, and answers how many bytes that took.
pub fn put_threshold(out: &mut [u8], threshold: u64) -> usize
    requires { length (threshold_text threshold) ≤ length out.old }
    ensures { Written (threshold_text threshold) out.old out.new result }
{
    if threshold == 0 {
        out[0] = b'?';
        out[1] = b'\t';
        return 2;
    }
    put_field(out, threshold)
}

// Writes the list of m and the line's end at the front of out, and answers how many bytes that took.
#[tactic(auto, using(crate::proofs::Texts::length_last))]
pub fn put_last(out: &mut [u8], m: u64) -> usize
    requires { length (last_text m) ≤ length out.old }
    ensures { Written (last_text m) out.old out.new result }
{
    let k = members::put_members(out, m);
    out[k] = b'\n';
    k + 1
}

// Writes the line of a record at the front of out, each field into what is left of it, and answers how many bytes that took.
pub fn put_line(out: &mut [u8], level: u64, threshold: u64, members: u64) -> usize
    requires { length (line_text level threshold members) ≤ length out.old }
    ensures { Written (line_text level threshold members) out.old out.new result }
{
    let a = put_field(out, level);
    let b = a + put_threshold(&mut out[a..], threshold);
    b + put_last(&mut out[b..], members)
}
