// A reply as a plain struct: the number and the fields of SPECIFICATION 7, for a caller in C and for the lines of the report. Whatever is answered
// or refused says a reply, and is made into that struct.
#![tactic(auto)]

ghost use Rattle.std.specs.Prelude.{[], ◌∷◌};
ghost use Rattle.meanings.specs.Replies.{Reply as Told, reply, ◌is◌, Place, First, Second, Visits};
ghost use Rattle.answers.specs.Said.{fault_says, refusal_says, size_says, count_says, yes_says, set_says, decision_says, sets_say, well_says, either};
ghost use Rattle.replies.specs.Shows.{Shows};

use answers::{Fault, Greatest, Intact, Listed, Refusal, Size, Verdict};

// The number and the fields of a reply, 0 where the number does not name a field.
#[repr(C)]
#[derive(Clone, Copy)]
pub struct Reply {
    pub number: u64,
    pub place: u64,
    pub nodes: u64,
    pub records: u64,
    pub answer: u64,
    pub set: u64,
    pub rounds: u64,
    pub first: u64,
    pub second: u64,
    pub count: u64,
    pub visits: u64,
}

// No number and no field.
const NONE: Reply = Reply {
    number: 0,
    place: 0,
    nodes: 0,
    records: 0,
    answer: 0,
    set: 0,
    rounds: 0,
    first: 0,
    second: 0,
    count: 0,
    visits: 0,
};

// What says a reply: an answer, a refusal, or either of them.
pub trait Says {
    ghost says: { Self → Told };

    fn reply(self) -> Reply
        ensures { Shows result (says self) };
}

// Numbers 1 to 7 and 12: the place.
fn placed(number: u64, place: u64) -> Reply
    ensures { Shows result (reply number (Place is place ∷ [])) }
{
    Reply {
        number,
        place,
        ..NONE
    }
}

impl Says for Fault {
    ghost says = { fault_says };

    fn reply(self) -> Reply {
        match self {
            Fault::Count(place) => placed(1, place),
            Fault::Control(place) => placed(2, place),
            Fault::Level(place) => placed(3, place),
            Fault::Nodes(place) => placed(4, place),
            Fault::Threshold(place) => placed(5, place),
            Fault::Member(place) => placed(6, place),
            Fault::Entries(place) => placed(7, place),
        }
    }
}

// Two quorums with no node in common, with the number 11 or a verdict's.
fn apart(number: u64, first: u64, second: u64, visits: u64) -> Reply
    ensures { Shows result (reply number (First is first ∷ Second is second ∷ Visits is visits ∷ [])) }
{
    Reply {
        number,
        first,
        second,
        visits,
        ..NONE
    }
}

impl Says for Refusal {
    ghost says = { refusal_says };

    fn reply(self) -> Reply {
        match self {
            Refusal::Bad(fault) => fault.reply(),
            Refusal::Outside => Reply { number: 8, ..NONE },
            Refusal::Spent { visits } => Reply {
                number: 9,
                visits,
                ..NONE
            },
            Refusal::Short { count } => Reply {
                number: 10,
                count,
                ..NONE
            },
            Refusal::Divided {
                first,
                second,
                visits,
            } => apart(11, first, second, visits),
            Refusal::Malformed { line } => placed(12, line),
            Refusal::Unsplit => Reply { number: 13, ..NONE },
        }
    }
}

// A table that passes: its nodes and records.
impl Says for Size {
    ghost says = { size_says };

    fn reply(self) -> Reply {
        let Size { nodes, records } = self;
        Reply {
            nodes,
            records,
            ..NONE
        }
    }
}

// How many words or bytes were written.
impl Says for u64 {
    ghost says = { count_says };

    fn reply(self) -> Reply {
        Reply {
            count: self,
            ..NONE
        }
    }
}

// Yes, 1, or no, 0.
impl Says for bool {
    ghost says = { yes_says };

    fn reply(self) -> Reply {
        Reply {
            answer: u64::from(self),
            ..NONE
        }
    }
}

// A set and its rounds.
impl Says for Greatest {
    ghost says = { set_says };

    fn reply(self) -> Reply {
        let Greatest { set, rounds } = self;
        Reply {
            set,
            rounds,
            ..NONE
        }
    }
}

// A verdict: a no has the pair.
impl Says for Verdict {
    ghost says = { decision_says };

    fn reply(self) -> Reply {
        match self {
            Verdict::Yes { visits } => Reply {
                answer: 1,
                visits,
                ..NONE
            },
            Verdict::No {
                first,
                second,
                visits,
            } => apart(0, first, second, visits),
        }
    }
}

// A list: how many sets.
impl Says for Listed {
    ghost says = { sets_say };

    fn reply(self) -> Reply {
        let Listed { count, visits } = self;
        Reply {
            count,
            visits,
            ..NONE
        }
    }
}

// The intact nodes.
impl Says for Intact {
    ghost says = { well_says };

    fn reply(self) -> Reply {
        let Intact { set, visits } = self;
        Reply {
            set,
            visits,
            ..NONE
        }
    }
}

impl<T: Says, E: Says> Says for Result<T, E> {
    ghost says = { either T.says E.says };

    fn reply(self) -> Reply {
        match self {
            Ok(answer) => answer.reply(),
            Err(refusal) => refusal.reply(),
        }
    }
}
