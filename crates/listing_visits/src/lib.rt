// What a visit of a listing search comes to, and the visits below it: SPECIFICATION 5, the minimal quorums and the blocking sets. The two
// trees differ in when a visit is a leaf and which nodes it may split on. The test of minimality is the same for both, and is made only
// where a set would be listed: a set is minimal when none of its nodes can be spared. In a visit of the tree of blocking sets g is the
// greatest quorum outside c, and a node is due that is new outside c and r.
#![tactic(auto)]

ghost use Rattle.std.specs.Prelude.{◌≡◌, true};
ghost use Rattle.meanings.specs.Of as of;
ghost use Rattle.sets.specs.Sets.{has, nobody, everyone, only, ◌∪◌, ◌∖◌};
ghost use Rattle.meanings.specs.Table.{nodes, satisfied};
ghost use Rattle.listing_visits.specs.declared.Sought.TheVariants as Sx;
ghost use Rattle.listing_visits.specs.Visits.{Stands, Ready, ReadyBlocking, Asked, Left, spared, is_minimal, Comes, chosen, Below};

use plans::Plan;
use quorum_visits::{Met, Visit};

// Which sets are searched for, and so by which tree.
// There are these two, and the definitions speak of them (`tree_at`, `Comes`): a trait with two types would need the enum beside it, so it is taken
// apart by `match`, which is plainer.
#[derive(Clone, Copy)]
pub enum Sought {
    Quorums,
    Blocking,
}

// A leaf; a leaf whose chosen nodes are listed; no node to split on; or a split on node v, with those still due.
#[derive(Clone, Copy)]
pub enum Step {
    Leaf,
    Listed,
    Stuck,
    Split { v: u64, due: u64 },
}

// Whether node v of c, a quorum, can be spared: what is left still holds a quorum. Such a quorum has all nodes that are done, since
// none of them can be spared.
fn spare_of_quorum(plan: &Plan, c: u64, v: u64, left: u64) -> bool
    requires { (Asked plan.now Sx.Quorums c) × (Left (nodes plan.now) (satisfied plan.now) Sx.Quorums c left) × (has left v ≡ true) }
    ensures { result ≡ spared (nodes plan.now) (satisfied plan.now) Sx.Quorums c v }
{
    greatest::greatest_without(plan, 0, c, v, sets::without(c, left)) != 0
}

// Whether node v of c, which blocks, can be spared: what is left still blocks. A quorum outside what is left has v.
fn spare_of_blocking(plan: &Plan, c: u64, v: u64) -> bool
    requires { (Asked plan.now Sx.Blocking c) × (has c v ≡ true) }
    ensures { result ≡ spared (nodes plan.now) (satisfied plan.now) Sx.Blocking c v }
{
    let one = sets::one(v);
    let outside = sets::without(plan.table().all(), sets::without(c, one));
    greatest::greatest_within(plan, 0, outside, outside, one) == 0
}

// Whether node v of c can be spared, those that are not left being done.
fn can_spare(plan: &Plan, sought: Sought, c: u64, v: u64, left: u64) -> bool
    requires { (Asked plan.now sought c) × (Left (nodes plan.now) (satisfied plan.now) sought c left) × (has left v ≡ true) }
    ensures { result ≡ spared (nodes plan.now) (satisfied plan.now) sought c v }
{
    match sought {
        Sought::Quorums => spare_of_quorum(plan, c, v, left),
        Sought::Blocking => spare_of_blocking(plan, c, v),
    }
}

// Whether c, which is a quorum, or blocks, is minimal: no smaller set of its kind lies inside it exactly when no node can be spared.
fn minimal(plan: &Plan, sought: Sought, c: u64) -> bool
    requires { Asked plan.now sought c }
    ensures { result ≡ is_minimal (nodes plan.now) (satisfied plan.now) sought c }
{
    let mut left = c;
    while left != 0 {
        let v = sets::first(left);
        if can_spare(plan, sought, c, v, left) {
            return false;
        }
        left = sets::without(left, sets::one(v));
    }
    true
}

// A split on the lowest of the nodes that can be split on.
fn choose(on: u64, due: u64) -> Step
    ensures { result ≡ chosen on due }
{
    if on == 0 {
        return Step::Stuck;
    }
    Step::Split {
        v: sets::first(on),
        due,
    }
}

// A visit of the tree of minimal quorums. Below it only quorums are met that hold c and lie in the greatest quorum g of c and r
// together, so without such a g, or with a node of c outside it, there are none.
fn look_quorums(plan: &Plan, a: Visit) -> Step
    requires { Stands plan.now Sx.Quorums a }
    ensures { Comes plan.now Sx.Quorums a result }
{
    let met = quorum_visits::meet(plan, 0, a);
    match met {
        Met::Dry => Step::Leaf,
        Met::Waits(due) => choose(sets::without(a.g, a.c), due),
        Met::Quorum => {
            if minimal(plan, Sought::Quorums, a.c) {
                return Step::Listed;
            }
            Step::Leaf
        }
    }
}

// Whether a quorum lies outside c and r, of the tree of blocking sets: then nothing below blocks.
fn shut(plan: &Plan, a: Visit) -> bool
    requires { Stands plan.now Sx.Blocking a }
    ensures { result ≡ of.holds_quorum plan.now nobody (everyone (nodes plan.now) ∖ (a.c ∪ a.r)) }
{
    if a.grown {
        return false;
    }
    let outside = sets::without(plan.table().all(), a.c | a.r);
    greatest::greatest_within(plan, 0, outside, outside, a.due) != 0
}

// A visit of the tree of blocking sets. Where a quorum lies outside c, some node of the greatest such quorum has to be chosen.
fn look_blocking(plan: &Plan, a: Visit) -> Step
    requires { Stands plan.now Sx.Blocking a }
    ensures { Comes plan.now Sx.Blocking a result }
{
    if shut(plan, a) {
        return Step::Leaf;
    }
    if a.g != 0 {
        return choose(a.r & a.g, 0);
    }
    if minimal(plan, Sought::Blocking, a.c) {
        return Step::Listed;
    }
    Step::Leaf
}

// A visit of either tree.
// What is known of a visit (`Stands`) or of a set (`Asked`) speaks of the plan, which is a search's, so it stands in contracts and in no ghost field.
pub fn look(plan: &Plan, sought: Sought, a: Visit) -> Step
    requires { Stands plan.now sought a }
    ensures { Comes plan.now sought a result }
{
    match sought {
        Sought::Quorums => look_quorums(plan, a),
        Sought::Blocking => look_blocking(plan, a),
    }
}

// The first visit of the tree of blocking sets below a split: node v is left out. Of the nodes outside c and r it is the only new one.
fn leave_blocking(plan: &Plan, a: Visit, v: u64) -> Visit
    requires { (Stands plan.now Sx.Blocking a) × (ReadyBlocking plan.now a v) }
    ensures { Below plan.now Sx.Blocking a v a.c result }
{
    let one = sets::one(v);
    Visit {
        c: a.c,
        r: sets::without(a.r, one),
        g: a.g,
        due: one,
        grown: false,
    }
}

// The second: node v is chosen. The greatest quorum outside c goes on without it.
fn take_blocking(plan: &Plan, a: Visit, v: u64) -> Visit
    requires { (Stands plan.now Sx.Blocking a) × (ReadyBlocking plan.now a v) }
    ensures { Below plan.now Sx.Blocking a v (a.c ∪ only v) result }
{
    let one = sets::one(v);
    Visit {
        c: a.c | one,
        r: sets::without(a.r, one),
        g: greatest::greatest_without(plan, 0, a.g, v, 0),
        due: 0,
        grown: true,
    }
}

// The first visit below a split: node v is left out.
// `take` below makes the other visit under its own promise; one function for both would be told which by a flag, which is no plainer.
pub fn leave(plan: &Plan, sought: Sought, a: Visit, v: u64, due: u64) -> Visit
    requires { (Stands plan.now sought a) × (Ready plan.now sought a v due) }
    ensures { Below plan.now sought a v a.c result }
{
    match sought {
        Sought::Quorums => quorum_visits::leave(plan, 0, a, v, due),
        Sought::Blocking => leave_blocking(plan, a, v),
    }
}

// The second: node v is chosen.
pub fn take(plan: &Plan, sought: Sought, a: Visit, v: u64, due: u64) -> Visit
    requires { (Stands plan.now sought a) × (Ready plan.now sought a v due) }
    ensures { Below plan.now sought a v (a.c ∪ only v) result }
{
    match sought {
        Sought::Quorums => quorum_visits::take(plan, 0, a, v, due),
        Sought::Blocking => take_blocking(plan, a, v),
    }
}

// The visit that a search starts with: no node chosen, all open.
pub fn root(plan: &Plan, sought: Sought) -> Visit
    ensures { (Stands plan.now sought result) × (result.c ≡ nobody) × (result.r ≡ everyone (nodes plan.now)) }
{
    quorum_visits::root(plan, 0, plan.table().all())
}
