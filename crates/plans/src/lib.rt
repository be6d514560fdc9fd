// A plan for the searches, found once for a question: for each node what is judged for it, who is alike, and who can lose something when it is struck.
#![tactic(auto)]

ghost use Rattle.std.specs.Prelude.{◌≡◌, true, List, ℕ, ◌<◌, ◌≤◌};
ghost use Rattle.meanings.specs.Table.{records, nodes as nodes_of, head_of};
ghost use Rattle.meanings.specs.Faults.{check, sound};
ghost use Rattle.tables.specs.Heads.{Reads};
ghost use Rattle.plans.specs.Plans.{PlannedTo, IsPlanOf};
ghost use Rattle.plans.specs.Alike.{LikeNode, set_end, set_of};
ghost use Rattle.plans.specs.Named.{NamedTo, Gathered, TouchedTo};

use std::marker::Model;
use tables::{Headed, Table};

// What is found for a node: the record that is judged for it, the nodes alike, itself among them, and the nodes that can lose something when
// nodes alike are struck.
#[derive(Clone, Copy)]
pub struct Node {
    pub head: usize,
    pub like: u64,
    pub touched: u64,
}

// A sound table with its plan, seen as the table's words: whatever the plan holds, the same is answered.
#[derive(Drop)]
pub struct Plan<'a> {
    table: &'a Table<'a>,
    nodes: [Node; 64],
}

impl<'a> Model for Plan<'a> {
    ghost Value = { List ℕ };

    ghost view = { λ p. p.table.now };

    ghost invariant = { λ p. (check p.table.now ≡ sound) × PlannedTo p.table.now p.nodes (nodes_of p.table.now) };
}

// Where the quorum set of node v ends: at the record that opens the next node, or with the table.
// Here and below a node's number has the bound of an index, as where a list is read.
fn set_end(heads: &Headed, v: u64) -> usize
    requires { v < nodes_of heads.now }
    ensures { (result ≡ set_end heads.now v) × (head_of heads.now v < result) × (result ≤ records heads.now) }
{
    let t = heads.table();
    if v + 1 < t.nodes() {
        heads.head(v + 1)
    } else {
        t.records()
    }
}

// The words of its records.
fn set_of<'a>(heads: &'a Headed, v: u64) -> &'a [u64]
    requires { v < nodes_of heads.now }
    ensures { Reads heads.now (result.now ≡ set_of heads.now v) }
{
    let start = 2 * heads.head(v);
    let end = 2 * set_end(heads, v);
    &heads.table().words()[start..end]
}

// The nodes that a quorum set names: the members of its records. Judging it looks at no others.
fn named(set: &[u64]) -> u64
    ensures { Gathered set.now result }
{
    let mut all = 0;
    for record in set.chunks_exact(2) {
        all |= record[1];
    }
    all
}

// What each node's quorum set names, at the node's number.
fn name_nodes(heads: &Headed) -> [u64; 64]
    ensures { NamedTo heads.now result (nodes_of heads.now) }
{
    let mut names = [0; 64];
    for v in 0..heads.table().nodes() {
        names[v as usize] = named(set_of(heads, v));
    }
    names
}

// The nodes that name any of `like`: whoever is not one of them loses nothing when those of `like` are struck.
fn touched(names: &[u64; 64], nodes: u64, like: u64) -> u64
    requires { nodes ≤ 64 }
    ensures { TouchedTo names.now like result nodes }
{
    let mut all = 0;
    for i in 0..nodes {
        if names[i as usize] & like != 0 {
            all |= sets::one(i);
        }
    }
    all
}

// Whether two quorum sets are written the same, word by word.
fn same_set(a: &[u64], b: &[u64]) -> bool
    ensures { result ≡ true → a.now ≡ b.now }
{
    a == b
}

// Node v, and all whose quorum sets are written the same as its own. Those name the same nodes, so that a node whose set names others is told
// apart without its words.
fn alike(heads: &Headed, names: &[u64; 64], v: u64) -> u64
    requires { v < nodes_of heads.now }
    ensures { LikeNode heads.now v result }
{
    let set = set_of(heads, v);
    let name = names[v as usize];
    let mut like = sets::one(v);
    for i in 0..heads.table().nodes() {
        if names[i as usize] != name {
            continue;
        }
        if same_set(set_of(heads, i), set) {
            like |= sets::one(i);
        }
    }
    like
}

// What is found for node v.
fn plan_node(heads: &Headed, names: &[u64; 64], v: u64) -> Node
    requires { (v < nodes_of heads.now) × NamedTo heads.now names.now (nodes_of heads.now) }
    ensures { IsPlanOf heads.now v result }
{
    let like = alike(heads, names, v);
    Node {
        head: heads.head(v),
        like,
        touched: touched(names, heads.table().nodes(), like),
    }
}

impl<'a> Plan<'a> {
    pub fn new(table: &'a Table<'a>) -> Plan<'a>
        ensures { result ≡ table.now }
    {
        let heads = Headed::new(table);
        let names = name_nodes(&heads);
        let nobody = Node {
            head: 0,
            like: 0,
            touched: 0,
        };
        let mut nodes = [nobody; 64];
        let mut node = nobody;
        for v in 0..table.nodes() {
            // Nodes alike have one plan, and often stand side by side.
            if !sets::contains(node.like, v) {
                node = plan_node(&heads, &names, v);
            }
            nodes[v as usize] = node;
        }
        Plan { table, nodes }
    }

    pub fn table(&self) -> &Table<'_>
        ensures { Reads self.now (result.now ≡ self.now) }
    {
        self.table
    }

    pub fn node(&self, v: u64) -> Node
        requires { v < nodes_of self.now }
        ensures { Reads self.now (IsPlanOf self.now v result) }
    {
        let nodes = &self.nodes;
        nodes[v as usize]
    }
}
