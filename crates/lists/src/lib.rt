// The minimal quorums and the minimal blocking sets: SPECIFICATION 5 and 7. A refusal must leave the lent list untouched, so the first walk
// writes into a list of its own; only where that is too short and the lent one is not is the tree walked for a second time.
#![tactic(auto)]

ghost use Rattle.meanings.specs.Faults.{check, sound};
ghost use Rattle.lists.specs.Lists.{ListsMinimal, ListsBlocking, Walks};

use answers::{Listed, Refusal};
use listing_visits::Sought;
use listing_walk::Search;
use plans::Plan;

// Walks a whole tree; 9 and 13 come from the walk, 10 after it, and only then is the lent list written.
fn fill(plan: &Plan, s: Search, lent: &mut [u64]) -> Result<Listed, Refusal>
    ensures { Walks sound plan.now s.sought s.allowance lent.old lent.new result }
{
    let root = listing_visits::root(plan, s.sought);
    // No heap: a list of its own with room for 1,024, and a count beside it.
    let mut own = [0u64; 1024];
    let walked = listing_walk::walk(plan, s, root, 0, 0, &mut own)?;
    let count = walked.count;
    if (lent.len() as u64) < count {
        return Err(Refusal::Short { count });
    }
    if 1024 < count {
        return listing_walk::walk(plan, s, root, 0, 0, lent);
    }
    let k = count as usize;
    lent[..k].copy_from_slice(&own[..k]);
    Ok(walked)
}

// Numbers 1 to 7 come first; the plan of a sound table is found once for the whole search.
fn answer(
    table: &[u64],
    sought: Sought,
    allowance: u64,
    lent: &mut [u64],
) -> Result<Listed, Refusal>
    ensures { Walks (check table.now) table.now sought allowance lent.old lent.new result }
{
    let table = faults::sound_table(table)?;
    let s = Search { sought, allowance };
    fill(&Plan::new(&table), s, lent)
}

// The minimal quorums of a table, in the listing order, at the front of the lent list.
pub fn minimal_quorums(table: &[u64], allowance: u64, sets: &mut [u64]) -> Result<Listed, Refusal>
    ensures { ListsMinimal table.now allowance sets.old sets.new result }
{
    answer(table, Sought::Quorums, allowance, sets)
}

// The minimal blocking sets of a table, in the listing order, at the front of the lent list.
pub fn blocking_sets(table: &[u64], allowance: u64, sets: &mut [u64]) -> Result<Listed, Refusal>
    ensures { ListsBlocking table.now allowance sets.old sets.new result }
{
    answer(table, Sought::Blocking, allowance, sets)
}
