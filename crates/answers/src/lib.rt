// What the operations answer: what is asked for, or the refusal, as a `Result`. specs/Said.antt sets out the number and values (SPECIFICATION 7) of
// each case, and proofs/Exact.antt shows that no two answers say the same.
#![tactic(auto)]

ghost use Rattle.std.specs.Prelude.{◌≡◌};
ghost use Rattle.answers.specs.Refused.{bad};

// Numbers 1 to 7: why a table is turned away, with the place.
#[derive(Clone, Copy)]
pub enum Fault {
    // 1: odd word count, no record, over 256
    Count(u64),
    // 2: control word 1,024 or more
    Control(u64),
    // 3: first record not level 0, or a level more than one above the record before
    Level(u64),
    // 4: a 65th level 0 record
    Nodes(u64),
    // 5: threshold 0, where the record is no unknown archive; or a written 0
    Threshold(u64),
    // 6: a member that is no node
    Member(u64),
    // 7: threshold above the entries
    Entries(u64),
}

// Numbers 1 to 13: why a question is not answered.
#[derive(Clone, Copy)]
pub enum Refusal {
    // 1 to 7: the words are no table
    Bad(Fault),
    // 8: a set or node outside the nodes
    Outside,
    // 9: the allowance ended first
    Spent {
        visits: u64,
    },
    // 10: the lent buffer is too short for so many
    Short {
        count: u64,
    },
    // 11: two plain quorums have no node in common
    Divided {
        first: u64,
        second: u64,
        visits: u64,
    },
    // 12: a line is malformed
    Malformed {
        line: u64,
    },
    // 13: no node to split on
    Unsplit,
}

impl From<Fault> for Refusal {
    ghost from_gives = { λ fault refusal. refusal ≡ bad fault };

    fn from(fault: Fault) -> Refusal {
        Refusal::Bad(fault)
    }
}

// A table that passes its check: how many nodes and records it has.
#[derive(Clone, Copy)]
pub struct Size {
    pub nodes: u64,
    pub records: u64,
}

// The greatest quorum within a set, and its rounds.
#[derive(Clone, Copy)]
pub struct Greatest {
    pub set: u64,
    pub rounds: u64,
}

// Do all quorums intersect?
#[derive(Clone, Copy)]
pub enum Verdict {
    Yes {
        visits: u64,
    },
    No {
        first: u64,
        second: u64,
        visits: u64,
    },
}

// How many sets a list has.
#[derive(Clone, Copy)]
pub struct Listed {
    pub count: u64,
    pub visits: u64,
}

// The intact nodes for an ill set.
#[derive(Clone, Copy)]
pub struct Intact {
    pub set: u64,
    pub visits: u64,
}
