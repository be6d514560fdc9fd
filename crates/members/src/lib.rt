// Member lists: ids in rising order with commas, or a lone hyphen for no members (SPECIFICATION 2).
// A set of nodes is a 64-bit mask, in which node i has the value 2^i.
#![tactic(auto)]

ghost use Rattle.std.specs.Prelude.{◌≡◌, ◌≤◌, ◌<◌, ◌^◌, length};
ghost use Rattle.decimal.specs.Bytes.{Written};
ghost use Rattle.members.specs.Members.{member_text, read_id, read_ids, read_members};
ghost use Rattle.members.specs.Steps.{id_text};

// The set of the node v alone.
fn single(v: u64) -> u64
    requires { v < 64 }
    ensures { result ≡ 2 ^ v }
{
    1 << v
}

// The id at the start of s, which must be at least `least`, and how many bytes it took.
#[tactic(auto, unfolding(crate::specs::Members::read_id))]
fn read_id(s: &[u8], least: u64) -> Option<(u64, usize)>
    ensures { result ≡ read_id s.now least }
{
    let (v, k) = decimal::read_number(s)?;
    if v < least || 63 < v {
        return None;
    }
    Some((v, k))
}

// Rising ids with commas at the start of s. As they rise, 64 turns are enough for all that can be.
fn read_ids(s: &[u8]) -> Option<(u64, usize)>
    ensures { result ≡ read_ids 64 s.now 0 }
{
    let mut least: u64 = 0;
    let mut mask: u64 = 0;
    let mut at: usize = 0;
    for _ in 0..64u64 {
        let (v, k) = read_id(&s[at..], least)?;
        least = v + 1;
        mask = mask + single(v);
        at = at + k;
        if decimal::byte_at(s, at) != b',' {
            return Some((mask, at));
        }
        at = at + 1;
    }
    None
}

// The member list at the start of s: the set, and how many bytes it took. It ends before the first byte that cannot belong to it; the line's end is
// the caller's.
#[tactic(auto, unfolding(crate::specs::Members::read_members))]
pub fn read_members(s: &[u8]) -> Option<(u64, usize)>
    ensures { result ≡ read_members s.now }
{
    if decimal::byte_at(s, 0) == b'-' {
        return Some((0, 1));
    }
    read_ids(s)
}

// How many bytes node i takes in the list, where q is what is left of the set, from i on.
fn id_len(i: u64, q: u64) -> usize
    ensures { result ≡ length (id_text i q) }
{
    if q % 2 == 0 {
        return 0;
    }
    let k = decimal::number_len(i);
    if q / 2 == 0 {
        return k;
    }
    k + 1
}

// How many bytes the list of m takes, up to its highest node. What is left of the set is halved each turn, so the loop ends. It tests nothing else:
// a `for` over the 64 nodes, left where no node is left, has one more test a turn, and writing a sheet took half as long again.
pub fn members_len(m: u64) -> usize
    ensures { result ≡ length (member_text m) }
{
    if m == 0 {
        return 1;
    }
    let mut i: u64 = 0;
    let mut q = m;
    let mut n: usize = 0;
    while 0 < q {
        n = n + id_len(i, q);
        q = q / 2;
        i = i + 1;
    }
    n
}

// Writes node i at the front of out, where q is what is left of the set, from i on.
fn put_id(out: &mut [u8], i: u64, q: u64) -> usize
    requires { length (id_text i q) ≤ length out.old }
    ensures { Written (id_text i q) out.old out.new result }
{
    if q % 2 == 0 {
        return 0;
    }
    let k = decimal::put_number(out, i);
    if q / 2 == 0 {
        return k;
    }
    out[k] = b',';
    k + 1
}

// Writes the list of m at the front of out, each node up to the highest into what is left of it, and answers how many bytes that took.
pub fn put_members(out: &mut [u8], m: u64) -> usize
    requires { length (member_text m) ≤ length out.old }
    ensures { Written (member_text m) out.old out.new result }
{
    if m == 0 {
        out[0] = b'-';
        return 1;
    }
    let mut i: u64 = 0;
    let mut q = m;
    let mut at: usize = 0;
    while 0 < q {
        at = at + put_id(&mut out[at..], i, q);
        q = q / 2;
        i = i + 1;
    }
    at
}
