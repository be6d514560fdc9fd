// A visit of the tree of the verdict or of the minimal quorums (SPECIFICATION 5), and what it hands to the two visits below it, so that
// nothing is judged twice: without the node that is split on, only what that node touches is judged again; with it, the greatest quorum in
// reach is the same, and only chosen nodes that are due are judged.
#![tactic(auto)]

ghost use Rattle.std.specs.Prelude.{◌≡◌, true, ◌<◌, ◌^◌};
ghost use Rattle.sets.specs.Sets.{has, only, ◌∪◌, ◌∖◌};
ghost use Rattle.meanings.specs.Table.{nodes};
ghost use Rattle.greatest.specs.Greatest.{Apart};
ghost use Rattle.quorum_visits.specs.Visits.{Stands, MetIs, Ready, Below, root_is};

use plans::Plan;

// The chosen nodes c and the open nodes r; the greatest quorum g in reach; the chosen nodes that are due, which may be unsatisfied; and
// whether c has grown since the visit above.
// What is known of a visit (`Stands`) speaks of a plan and of the nodes counted out, which are a search's and not a visit's. In a ghost field it would
// need them as fields of each visit, so it stands in contracts.
#[derive(Clone, Copy)]
pub struct Visit {
    pub c: u64,
    pub r: u64,
    pub g: u64,
    pub due: u64,
    pub grown: bool,
}

// What a visit comes to: no quorum in reach that has all chosen nodes; chosen nodes that are no quorum, with those that are still due; or a
// quorum.
#[derive(Clone, Copy)]
pub enum Met {
    Dry,
    Waits(u64),
    Quorum,
}

// Steps (2) and (3) of a visit. Where c has not grown it is no quorum, as it was none in the visit above.
pub fn meet(plan: &Plan, d: u64, a: Visit) -> Met
    requires { Stands plan.now d a }
    ensures { MetIs plan.now d a result }
{
    if a.g == 0 {
        return Met::Dry;
    }
    if !a.grown {
        return Met::Waits(a.due);
    }
    let left = greatest::unmet(plan, d, a.c, a.due);
    if a.c == 0 || left != 0 {
        return Met::Waits(left);
    }
    Met::Quorum
}

// The nodes that stay open below a split on node v, which lies below 64: the others of the greatest quorum in reach.
fn others(a: Visit, v: u64) -> u64
    requires { has (a.g ∖ a.c) v ≡ true }
    ensures { (result ≡ a.g ∖ a.c ∖ only v) × (v < 64) }
{
    sets::without(sets::without(a.g, a.c), sets::one(v))
}

// The first visit below a split: node v is left out.
pub fn leave(plan: &Plan, d: u64, a: Visit, v: u64, due: u64) -> Visit
    requires { (Stands plan.now d a) × (Ready plan.now d a v due) }
    ensures { Below plan.now d a v a.c result }
{
    Visit {
        c: a.c,
        r: others(a, v),
        g: greatest::greatest_without(plan, d, a.g, v, a.c),
        due,
        grown: false,
    }
}

// The second: node v is chosen.
pub fn take(plan: &Plan, d: u64, a: Visit, v: u64, due: u64) -> Visit
    requires { (Stands plan.now d a) × (Ready plan.now d a v due) }
    ensures { Below plan.now d a v (a.c ∪ only v) result }
{
    let r = others(a, v);
    let one = sets::one(v);
    Visit {
        c: a.c | one,
        r,
        g: a.g,
        due: due | one,
        grown: true,
    }
}

// The visit that a search starts with: no node chosen, u open.
pub fn root(plan: &Plan, d: u64, u: u64) -> Visit
    requires { (u < 2 ^ nodes plan.now) × (Apart d u) }
    ensures { (Stands plan.now d result) × (result ≡ root_is plan.now d u) }
{
    Visit {
        c: 0,
        r: u,
        g: greatest::greatest_within(plan, d, u, u, 0),
        due: 0,
        grown: true,
    }
}
