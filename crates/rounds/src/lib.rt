// The greatest quorum within a set, by rounds (SPECIFICATION 3): a round drops, all at once, every node that those present, with the nodes
// counted out added, do not satisfy.
#![tactic(auto)]

ghost use Rattle.std.specs.Prelude.{◌≡◌, ◌<◌, ◌^◌};
ghost use Rattle.sets.specs.Sets.{each};
ghost use Rattle.meanings.specs.Table.{nodes as nodes_of, satisfied as satisfied_is};
ghost use Rattle.meanings.specs.Of as of;

use answers::Greatest;
use tables::Headed;

// Whether `with` satisfies the quorum set of node v.
// A node's number has the bound of an index, as where a list is read.
pub fn satisfied(heads: &Headed, with: u64, v: u64) -> bool
    requires { v < nodes_of heads.now }
    ensures { result ≡ satisfied_is heads.now with v }
{
    let t = heads.table();
    let r = heads.head(v);
    satisfaction::enough(t, with, r) || satisfaction::satisfies(t, with, r)
}

// The greatest quorum within u with d counted out, and its rounds. A round that is not the last drops a node, so the rounds end.
pub fn survivors(heads: &Headed, d: u64, u: u64) -> Greatest
    requires { u < 2 ^ nodes_of heads.now }
    ensures { (result.set ≡ of.greatest heads.now d u) × (result.rounds ≡ of.rounds heads.now d u) }
{
    let mut present = sets::without(u, d);
    let mut count = 0u64;
    if present == 0 {
        return Greatest { set: 0, rounds: 0 };
    }
    let nodes = heads.table().nodes();
    // The form that the scope paper names for this place: a loop over rounds with a nested walk over nodes, left from inside.
    'rounds: loop {
        let with = present | d;
        let mut keep = 0u64;
        let mut v = 0u64;
        loop {
            if v == nodes {
                if keep == present || keep == 0 {
                    break 'rounds Greatest {
                        set: keep,
                        rounds: count + 1,
                    };
                }
                break;
            }
            if sets::contains(present, v) && satisfied(heads, with, v) {
                keep = keep | sets::one(v);
            }
            v += 1;
        }
        present = keep;
        count += 1;
    }
}

// Whether those of c are all satisfied by `with`.
fn settled(heads: &Headed, with: u64, c: u64) -> bool
    requires { c < 2 ^ nodes_of heads.now }
    ensures { result ≡ each (nodes_of heads.now) c (λ v. satisfied_is heads.now with v) }
{
    for v in 0..heads.table().nodes() {
        if sets::contains(c, v) && !satisfied(heads, with, v) {
            return false;
        }
    }
    true
}

// Whether c is a quorum with d counted out.
pub fn quorum(heads: &Headed, d: u64, c: u64) -> bool
    requires { c < 2 ^ nodes_of heads.now }
    ensures { result ≡ of.quorum heads.now d c }
{
    if c == 0 {
        return false;
    }
    if c & d != 0 {
        return false;
    }
    settled(heads, c | d, c)
}
