// Walking a listing tree within an allowance: SPECIFICATION 5. One walk serves both trees. It counts every listed set, and writes it where
// there is a place for it; visits spent are handed along, so that a refusal is handed back unchanged.
#![tactic(auto)]

ghost use Rattle.std.specs.Prelude.{◌≡◌, set};
ghost use Rattle.meanings.specs.Table.{nodes, satisfied};
ghost use Rattle.listing_visits.specs.Visits.{tree_at};
ghost use Rattle.listing_walk.specs.Walked.{Walking, Walked};

use answers::{Listed, Refusal};
use listing_visits::{Sought, Step};
use plans::Plan;
use quorum_visits::Visit;

// Writes x at a place, where the list has it.
fn put(out: &mut [u64], at: u64, x: u64)
    ensures { out.new ≡ set out.old at x }
{
    let at = at as usize;
    if at < out.len() {
        out[at] = x;
    }
}

// What stays the same throughout a search: the sets sought and the allowance.
#[derive(Clone, Copy)]
pub struct Search {
    pub sought: Sought,
    pub allowance: u64,
}

// Walks the tree below a visit, with so many visits spent and sets found before it. Below a split fewer nodes are open, so it ends.
pub fn walk(
    plan: &Plan,
    s: Search,
    a: Visit,
    spent: u64,
    found: u64,
    out: &mut [u64],
) -> Result<Listed, Refusal>
    requires { Walking plan.now s.sought a spent found }
    ensures { Walked (tree_at (nodes plan.now) (satisfied plan.now) s.sought a.c a.r) s.allowance spent found out.old out.new result }
{
    if s.allowance <= spent {
        return Err(Refusal::Spent {
            visits: s.allowance,
        });
    }
    let next = spent + 1;
    let sought = s.sought;
    let met = listing_visits::look(plan, sought, a);
    match met {
        Step::Leaf => Ok(Listed {
            count: found,
            visits: next,
        }),
        Step::Listed => {
            put(out, found, a.c);
            Ok(Listed {
                count: found + 1,
                visits: next,
            })
        }
        Step::Stuck => Err(Refusal::Unsplit),
        Step::Split { v, due } => {
            let without = listing_visits::leave(plan, sought, a, v, due);
            let Listed { count, visits } = walk(plan, s, without, next, found, out)?;
            let with = listing_visits::take(plan, sought, a, v, due);
            walk(plan, s, with, visits, count, out)
        }
    }
}
