// What lasts of a set of nodes: the greatest quorum within it, found by striking the unsatisfied nodes one after another, each with those
// alike, and judging only the nodes that are due, which may have lost something. In which order nodes are struck alters nothing; the rounds
// that are counted (SPECIFICATION 3) lie with `rounds`.
#![tactic(auto)]

ghost use Rattle.std.specs.Prelude.{◌≡◌, true, ◌<◌, ◌^◌};
ghost use Rattle.meanings.specs.Of as of;
ghost use Rattle.sets.specs.Sets.{has, nobody, only, ◌∪◌, ◌∖◌, empty, each};
ghost use Rattle.meanings.specs.Table.{records, nodes, satisfied, satisfies};
ghost use Rattle.greatest.specs.Greatest.{holding, Waiting, Due, Striking};

use plans::Plan;
use tables::Table;

// The node to judge next: one that must stay, where one is due.
fn next(due: u64, must: u64) -> u64
    requires { due ≡ nobody → ⊥ }
    ensures { (has due result ≡ true) × (result < 64) }
{
    let urgent = due & must;
    if urgent != 0 {
        return sets::first(urgent);
    }
    sets::first(due)
}

// Whether `with` satisfies a record; where a glance at its members tells, nothing is judged. It is made part of the loops that ask, which most
// often are told at a glance.
#[inline(always)]
fn meets(t: &Table, with: u64, head: usize) -> bool
    requires { head < records t.now }
    ensures { result ≡ satisfies 3 t.now with head }
{
    satisfaction::enough(t, with, head) || satisfaction::satisfies(t, with, head)
}

// The greatest quorum within u with d counted out, where it has all of `must`; otherwise nobody.
// Plan and nodes counted out go together here and above, but a search has the first and a question the second; a struct of both would be opened at once.
pub fn greatest_within(plan: &Plan, d: u64, u: u64, due: u64, must: u64) -> u64
    requires { Due plan.now d u due must }
    ensures { result ≡ holding must (of.greatest plan.now d u) }
{
    let t = plan.table();
    let mut present = u;
    let mut left = due;
    while left != 0 {
        let node = plan.node(next(left, must));
        if meets(t, present | d, node.head) {
            left = sets::without(left, node.like);
        } else {
            present = sets::without(present, node.like);
            if must & present != must {
                return 0;
            }
            left = (left | node.touched) & present;
        }
    }
    present
}

// The same within a quorum g when its node v is struck: only nodes that v touches are due.
pub fn greatest_without(plan: &Plan, d: u64, g: u64, v: u64, must: u64) -> u64
    requires { Striking plan.now d g v must }
    ensures { result ≡ holding must (of.greatest plan.now d (g ∖ only v)) }
{
    let touched = plan.node(v).touched;
    let u = sets::without(g, sets::one(v));
    greatest_within(plan, d, u, touched & u, must)
}

// The greatest quorum within u, nobody being counted out.
pub fn plain(plan: &Plan, u: u64) -> u64
    requires { u < 2 ^ nodes plan.now }
    ensures { result ≡ of.greatest plan.now nobody u }
{
    greatest_within(plan, 0, u, u, 0)
}

// Those of c that are still due when the lowest of them are found satisfied: none where all of c are, and otherwise the lowest is not.
pub fn unmet(plan: &Plan, d: u64, c: u64, due: u64) -> u64
    requires { Waiting plan.now d c due }
    ensures { (Waiting plan.now d c result) × (empty result ≡ each (nodes plan.now) c (λ v. satisfied plan.now (c ∪ d) v)) }
{
    let t = plan.table();
    let with = c | d;
    let mut left = due;
    while left != 0 {
        let lowest = plan.node(sets::first(left));
        if !meets(t, with, lowest.head) {
            return left;
        }
        left = sets::without(left, lowest.like);
    }
    0
}
