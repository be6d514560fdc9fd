// The packed table (SPECIFICATION 1): reading a record of any words, a sound table as a type, and the records that open its nodes. Records are
// counted from 0.
#![tactic(auto)]

ghost use Rattle.std.specs.Prelude.{◌≡◌, ◌+◌, ◌*◌, ◌<◌, ◌≤◌, ◌^◌, List, ℕ, length};
ghost use Rattle.sets.specs.Sets.{everyone};
ghost use Rattle.meanings.specs.Table.{control as control_of, level as level_of, threshold as threshold_of, members as members_of, records as records_of, nodes as nodes_of, head_of};
ghost use Rattle.meanings.specs.Faults.{check, sound};
ghost use Rattle.tables.specs.Heads.{HeadsTo, Reads};

use std::marker::Model;

// The control word, threshold + 256 x level.
// Here and below a record's number has the bound of an index; a type for both would ask for it where it is made, which is no plainer.
pub fn control(t: &[u64], r: usize) -> u64
    requires { 2 * r + 1 < length t.now }
    ensures { result ≡ control_of t.now r }
{
    t[2 * r]
}

pub fn level(t: &[u64], r: usize) -> u64
    requires { 2 * r + 1 < length t.now }
    ensures { (result ≡ level_of t.now r) × (result < 2 ^ 56) }
{
    t[2 * r] / 256
}

pub fn threshold(t: &[u64], r: usize) -> u64
    requires { 2 * r + 1 < length t.now }
    ensures { (result ≡ threshold_of t.now r) × (result < 256) }
{
    t[2 * r] % 256
}

// The member mask: node i has the value 2^i.
pub fn members(t: &[u64], r: usize) -> u64
    requires { 2 * r + 1 < length t.now }
    ensures { (result ≡ members_of t.now r) × (result < 2 ^ 64) }
{
    t[2 * r + 1]
}

// A sound table, seen as its words. Only words that pass their check make one (`faults::sound_table`), so nobody who is given one asks again.
#[derive(Drop)]
pub struct Table<'a> {
    words: &'a [u64],
    nodes: u64,
    all: u64,
}

impl<'a> Model for Table<'a> {
    ghost Value = { List ℕ };

    ghost view = { λ t. t.words.now };

    ghost invariant = { λ t. (check t.words.now ≡ sound) × (t.nodes ≡ nodes_of t.words.now) × (t.all ≡ everyone (nodes_of t.words.now)) };
}

impl<'a> Table<'a> {
    pub fn new(words: &'a [u64], nodes: u64) -> Table<'a>
        requires { (check words.now ≡ sound) × (nodes ≡ nodes_of words.now) }
        ensures { result ≡ words.now }
    {
        let all = sets::all(nodes);
        Table { words, nodes, all }
    }

    pub fn words(&self) -> &[u64]
        ensures { Reads self.now (result.now ≡ self.now) }
    {
        self.words
    }

    pub fn records(&self) -> usize
        ensures { Reads self.now (result ≡ records_of self.now) }
    {
        self.words.len() / 2
    }

    pub fn nodes(&self) -> u64
        ensures { Reads self.now ((result ≡ nodes_of self.now) × (result ≤ 64)) }
    {
        self.nodes
    }

    // All its nodes, as a set. It is kept, since each visit that looks outside the chosen nodes asks for it.
    pub fn all(&self) -> u64
        ensures { Reads self.now (result ≡ everyone (nodes_of self.now)) }
    {
        self.all
    }

    pub fn level(&self, r: usize) -> u64
        requires { r < records_of self.now }
        ensures { Reads self.now (result ≡ level_of self.now r) }
    {
        level(self.words, r)
    }

    pub fn threshold(&self, r: usize) -> u64
        requires { r < records_of self.now }
        ensures { Reads self.now ((result ≡ threshold_of self.now r) × (result < 256)) }
    {
        threshold(self.words, r)
    }

    pub fn members(&self, r: usize) -> u64
        requires { r < records_of self.now }
        ensures { Reads self.now (result ≡ members_of self.now r) }
    {
        members(self.words, r)
    }
}

// A sound table with the records that open its nodes, seen as the table's words.
#[derive(Drop)]
pub struct Headed<'a> {
    table: &'a Table<'a>,
    at: [u8; 64],
}

impl<'a> Model for Headed<'a> {
    ghost Value = { List ℕ };

    ghost view = { λ h. h.table.now };

    ghost invariant = { λ h. (check h.table.now ≡ sound) × HeadsTo h.table.now h.at (nodes_of h.table.now) };
}

impl<'a> Headed<'a> {
    // Finds them: each stands at the node's number. A record's number is a byte, which keeps the list small on the stack.
    pub fn new(table: &'a Table<'a>) -> Headed<'a>
        ensures { result ≡ table.now }
    {
        let mut at = [0; 64];
        let mut v = 0;
        for r in 0..table.records() {
            if table.level(r) == 0 {
                at[v] = r as u8;
                v += 1;
            }
        }
        Headed { table, at }
    }

    pub fn table(&self) -> &Table<'_>
        ensures { Reads self.now (result.now ≡ self.now) }
    {
        self.table
    }

    // The record that opens a node.
    pub fn head(&self, v: u64) -> usize
        requires { v < nodes_of self.now }
        ensures { Reads self.now ((result ≡ head_of self.now v) × (result < records_of self.now)) }
    {
        let at = &self.at;
        at[v as usize] as usize
    }
}
