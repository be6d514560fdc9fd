// Do all quorums intersect? The search for two quorums with no node in common (SPECIFICATION 5), within an allowance of visits.
#![tactic(auto)]

ghost use Rattle.std.specs.Prelude.{◌≡◌};
ghost use Rattle.meanings.specs.Of as of;
ghost use Rattle.verdict.specs.Search.{Visiting, Looked, within, tree_of};
ghost use Rattle.meanings.specs.Trees.{walk};
ghost use Rattle.verdict.specs.Promise.{VerdictPromise};

use answers::{Refusal, Verdict};
use plans::Plan;
use quorum_visits::{Met, Visit};

// What stays the same throughout a search: the nodes counted out, the ground and half its number, and the allowance.
#[derive(Clone, Copy)]
pub struct Question {
    pub d: u64,
    pub ground: u64,
    pub half: u64,
    pub allowance: u64,
}

// What a visit comes to before it splits: a leaf; a quorum outside the chosen nodes, which are a quorum too; or a split, with the chosen
// nodes that are still due.
#[derive(Clone, Copy)]
pub enum Step {
    Leaf,
    Pair(u64),
    Split(u64),
}

// Steps (1) to (3) of a visit.
fn look(plan: &Plan, q: Question, a: Visit) -> Step
    requires { Visiting plan.now q a }
    ensures { Looked plan.now q.d a result }
{
    if q.half < sets::count(a.c) {
        return Step::Leaf;
    }
    let met = quorum_visits::meet(plan, q.d, a);
    match met {
        Met::Dry => Step::Leaf,
        Met::Waits(due) => Step::Split(due),
        Met::Quorum => {
            let rest = sets::without(q.ground, a.c);
            let h = greatest::greatest_within(plan, q.d, rest, rest, 0);
            if h == 0 {
                return Step::Leaf;
            }
            Step::Pair(h)
        }
    }
}

// A visit and all below it, after so many visits. The open nodes below a split are fewer by the node chosen.
fn search(plan: &Plan, q: Question, a: Visit, spent: u64) -> Result<Verdict, Refusal>
    requires { Visiting plan.now q a }
    ensures { result ≡ within q.allowance spent (walk (tree_of plan.now q.d a.c a.r)) }
{
    if spent >= q.allowance {
        return Err(Refusal::Spent {
            visits: q.allowance,
        });
    }
    let visits = spent + 1;
    let step = look(plan, q, a);
    match step {
        Step::Leaf => Ok(Verdict::Yes { visits }),
        Step::Pair(h) => Ok(Verdict::No {
            first: a.c,
            second: h,
            visits,
        }),
        Step::Split(due) => {
            let on = sets::without(a.g, a.c);
            if on == 0 {
                return Err(Refusal::Unsplit);
            }
            let v = sets::first(on);
            let without = quorum_visits::leave(plan, q.d, a, v, due);
            let first = search(plan, q, without, visits)?;
            let Verdict::Yes { visits: after } = first else {
                return Ok(first);
            };
            let with = quorum_visits::take(plan, q.d, a, v, due);
            search(plan, q, with, after)
        }
    }
}

// The search from no node chosen and the ground open, after so many visits.
pub fn search_from(plan: &Plan, d: u64, allowance: u64, spent: u64) -> Result<Verdict, Refusal>
    ensures { result ≡ within allowance spent (walk (of.verdict_tree plan.now d)) }
{
    let ground = sets::without(plan.table().all(), d);
    let half = sets::count(ground) / 2;
    let q = Question {
        d,
        ground,
        half,
        allowance,
    };
    let root = quorum_visits::root(plan, d, ground);
    search(plan, q, root, spent)
}

// Do all quorums intersect, with `out` counted out? Yes, or two quorums of the rest with no node in common.
pub fn intersect(table: &[u64], out: u64, allowance: u64) -> Result<Verdict, Refusal>
    ensures { VerdictPromise table.now out allowance result }
{
    let table = faults::sound_table(table)?;
    if !faults::inside(out, table.nodes()) {
        return Err(Refusal::Outside);
    }
    search_from(&Plan::new(&table), out, allowance, 0)
}
