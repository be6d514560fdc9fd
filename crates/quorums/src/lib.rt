// Questions about one set of nodes (SPECIFICATION 3): is it a quorum, what is the greatest quorum within it, does it block a node? Any list
// of words may be asked about: the numbers 1 to 7 of its table come first, then 8, then the answer.
#![tactic(auto)]

ghost use Rattle.std.specs.Prelude.{◌≡◌, true, ◌<◌};
ghost use Rattle.meanings.specs.Of as of;
ghost use Rattle.sets.specs.Sets.{within as within_set, everyone};
ghost use Rattle.meanings.specs.Table.{nodes as nodes_of};
ghost use Rattle.meanings.specs.Questions.{quorum_reply, greatest_reply, blocks_reply};
ghost use Rattle.answers.specs.Said.{judged_says, greatest_says};

use answers::{Greatest, Refusal};
use tables::{Headed, Table};

// Whether a set is a quorum, with `out` counted out.
fn quorum_of(t: &Table, out: u64, set: u64) -> bool
    requires { within_set set (everyone (nodes_of t.now)) ≡ true }
    ensures { result ≡ of.quorum t.now out set }
{
    rounds::quorum(&Headed::new(t), out, set)
}

// The greatest quorum within a set, with `out` counted out, and its rounds.
fn greatest_of(t: &Table, out: u64, set: u64) -> Greatest
    requires { within_set set (everyone (nodes_of t.now)) ≡ true }
    ensures { (result.set ≡ of.greatest t.now out set) × (result.rounds ≡ of.rounds t.now out set) }
{
    rounds::survivors(&Headed::new(t), out, set)
}

// Whether a set blocks node v: v is in it, or v's quorum set, judged on the nodes outside it, is not satisfied.
fn blocked(t: &Table, set: u64, v: u64) -> bool
    requires { v < nodes_of t.now }
    ensures { result ≡ of.blocks t.now set v }
{
    let others = sets::without(t.all(), set);
    if sets::contains(set, v) {
        return true;
    }
    !rounds::satisfied(&Headed::new(t), others, v)
}

// Is this set a quorum, with `out` counted out?
// The questions here share `sound_table` and `?`; each promises its own answer, so one function for several would be no plainer.
pub fn is_quorum(table: &[u64], out: u64, set: u64) -> Result<bool, Refusal>
    ensures { judged_says result ≡ quorum_reply table.now out set }
{
    let table = faults::sound_table(table)?;
    if !faults::inside(out | set, table.nodes()) {
        return Err(Refusal::Outside);
    }
    Ok(quorum_of(&table, out, set))
}

// The greatest quorum within a set, with `out` counted out: the union of all quorums there, or empty; and its rounds.
pub fn greatest_quorum(table: &[u64], out: u64, within: u64) -> Result<Greatest, Refusal>
    ensures { greatest_says result ≡ greatest_reply table.now out within }
{
    let table = faults::sound_table(table)?;
    if !faults::inside(out | within, table.nodes()) {
        return Err(Refusal::Outside);
    }
    Ok(greatest_of(&table, out, within))
}

// Does this set block this node: is the node in it, or do the nodes outside it not satisfy the node's quorum set?
pub fn blocks_node(table: &[u64], set: u64, node: u64) -> Result<bool, Refusal>
    ensures { judged_says result ≡ blocks_reply table.now set node }
{
    let table = faults::sound_table(table)?;
    if !faults::inside(set, table.nodes()) {
        return Err(Refusal::Outside);
    }
    if table.nodes() <= node {
        return Err(Refusal::Outside);
    }
    Ok(blocked(&table, set, node))
}
