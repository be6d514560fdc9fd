// Who is intact, for a set of ill nodes? The rounds that find the intact nodes (SPECIFICATION 6), within an allowance of visits that serves
// all their verdicts in turn.
#![tactic(auto)]

ghost use Rattle.std.specs.Prelude.{◌≡◌, ◌<◌, ◌^◌};
ghost use Rattle.meanings.specs.Of as of;
ghost use Rattle.meanings.specs.Table.{nodes, satisfied};
ghost use Rattle.meanings.specs.Intact.{next_u};
ghost use Rattle.intact.specs.Rounds.{Turned, rounds_of, within};
ghost use Rattle.intact.specs.Promise.{IntactPromise};

use answers::{Intact, Refusal, Verdict};
use plans::Plan;
use std::ops::ControlFlow;

// Where the rounds stand: the nodes left, after so many visits.
#[derive(Clone, Copy)]
pub struct Left {
    pub set: u64,
    pub visits: u64,
}

// Where to go on after a round that found two quorums apart in q: W1 and W2 are the greatest plain quorums in q without the first and
// without the second; W2 if W1 is empty, W1 if W2 is empty, otherwise what they share.
fn next(plan: &Plan, q: u64, first: u64, second: u64) -> u64
    requires { q < 2 ^ nodes plan.now }
    ensures { result ≡ next_u (nodes plan.now) (satisfied plan.now) q (record { first = first; second = second }) }
{
    let w1 = greatest::plain(plan, sets::without(q, first));
    let w2 = greatest::plain(plan, sets::without(q, second));
    if w1 == 0 {
        return w2;
    }
    if w2 == 0 {
        return w1;
    }
    w1 & w2
}

// One round: q is the greatest plain quorum in the nodes left, and the verdict with all but q counted out decides. The rounds end with q, or go on
// from fewer nodes.
fn round(plan: &Plan, left: Left, allowance: u64) -> Result<ControlFlow<Intact, Left>, Refusal>
    requires { left.set < 2 ^ nodes plan.now }
    ensures { Turned plan.now allowance left result }
{
    let q = greatest::plain(plan, left.set);
    let out = sets::without(plan.table().all(), q);
    let found = verdict::search_from(plan, out, allowance, left.visits)?;
    match found {
        Verdict::Yes { visits } => Ok(ControlFlow::Break(Intact { set: q, visits })),
        Verdict::No {
            first,
            second,
            visits,
        } => {
            let u = next(plan, q, first, second);
            Ok(ControlFlow::Continue(Left { set: u, visits }))
        }
    }
}

// The rounds from here on. A round that is not the last leaves fewer nodes, so the rounds end.
fn rounds_from(plan: &Plan, from: Left, allowance: u64) -> Result<Intact, Refusal>
    requires { from.set < 2 ^ nodes plan.now }
    ensures { result ≡ within allowance from.visits (rounds_of plan.now from.set) }
{
    let mut left = from;
    loop {
        let turn = round(plan, left, allowance)?;
        match turn {
            ControlFlow::Break(answer) => return Ok(answer),
            ControlFlow::Continue(rest) => left = rest,
        }
    }
}

// The plain verdict, and where it is yes the rounds, from all nodes outside the ill set on, after its visits.
fn verdict_then_rounds(plan: &Plan, ill: u64, allowance: u64) -> Result<Intact, Refusal>
    ensures { result ≡ within allowance 0 (of.intact_search plan.now ill) }
{
    let plain = verdict::search_from(plan, 0, allowance, 0)?;
    match plain {
        Verdict::Yes { visits } => {
            let well = sets::without(plan.table().all(), ill);
            rounds_from(plan, Left { set: well, visits }, allowance)
        }
        Verdict::No {
            first,
            second,
            visits,
        } => Err(Refusal::Divided {
            first,
            second,
            visits,
        }),
    }
}

// Which nodes are intact for an ill set: those that some DSet around the ill set leaves out. Answered only where all plain quorums
// intersect; elsewhere two that do not are handed over.
pub fn intact_nodes(table: &[u64], ill: u64, allowance: u64) -> Result<Intact, Refusal>
    ensures { IntactPromise table.now ill allowance result }
{
    let table = faults::sound_table(table)?;
    if !faults::inside(ill, table.nodes()) {
        return Err(Refusal::Outside);
    }
    verdict_then_rounds(&Plan::new(&table), ill, allowance)
}
