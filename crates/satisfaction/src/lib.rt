// Judging a quorum set (SPECIFICATION 3): does a set of nodes satisfy it? One walk over its records, first to last, with a counter a level:
// what the sets that it stands in still want.
#![tactic(auto)]

ghost use Rattle.std.specs.Prelude.{◌≡◌, true, false, ℕ, suc, ◌+◌, ◌-◌, ◌<◌, leb};
ghost use Rattle.sets.specs.Sets.{size};
ghost use Rattle.meanings.specs.Table.{records, level as level_of, threshold as threshold_of};
ghost use Rattle.tables.specs.Run.{bump};
ghost use Rattle.tables.specs.Heads.{Reads};
ghost use Rattle.satisfaction.specs.Judged.{holds, lack, still};
ghost use Rattle.satisfaction.specs.Wanted.{owed, comes, Gets, left};

use tables::Table;

// How many nodes m has too few to have k. Up to three are told without counting.
fn short_of(m: u64, k: u64) -> u64
    ensures { result ≡ k - size 64 m }
{
    if m == 0 {
        return k;
    }
    if 3 < k {
        return k.saturating_sub(sets::count(m));
    }
    if k <= 1 {
        return 0;
    }
    let others = m & (m - 1);
    if others == 0 {
        return k - 1;
    }
    if k == 2 {
        return 0;
    }
    if others & (others - 1) == 0 {
        return 1;
    }
    0
}

// What the members of record r in u leave to its inner sets.
// Table, set and record go together here and below, but a search has each from elsewhere and asks for thousands: a struct of the three would be
// made for each and opened at once.
fn lacking(t: &Table, u: u64, r: usize) -> u64
    requires { r < records t.now }
    ensures { Reads t.now (result ≡ lack t.now u r) }
{
    short_of(t.members(r) & u, t.threshold(r))
}

// Whether record r has inner sets: without them none is ever counted.
fn deeper(t: &Table, r: usize) -> bool
    requires { r < records t.now }
    ensures { (u : ℕ) → result ≡ false → still t.now u (level_of t.now r) (r + 1) ≡ 0 }
{
    if t.records() == r + 1 {
        return false;
    }
    t.level(r) < t.level(r + 1)
}

// How many inner sets are still wanted: by the set that is judged, by the last one below it, and by the last one below that. A set that
// wants none is satisfied and has been counted.
// `outer` falls to 0 where the set that is judged has enough, which the walk looks for, so that it is above 0 is asked and no part of the type.
#[derive(Clone, Copy)]
struct Wanted {
    outer: u64,
    inner: u64,
    inmost: u64,
}

impl Wanted {
    // The last set below the one that is judged is satisfied: it counts, and wants none from here on.
    fn counted(self) -> Wanted
        requires { 0 < self.outer }
        ensures { Gets result (λ n3 n2 n1. leb self.outer (suc n1)) }
    {
        Wanted {
            outer: self.outer - 1,
            inner: 0,
            inmost: 0,
        }
    }

    // The last set below the one that is judged gets one more of those it wants. Where that is the last of them it counts.
    fn gain(self) -> Wanted
        requires { (0 < self.outer) × (0 < self.inner) }
        ensures { Gets result (λ n3 n2 n1. leb self.outer (owed self.inner (suc n2) + n1)) }
    {
        if self.inner == 1 {
            return self.counted();
        }
        Wanted {
            inner: self.inner - 1,
            inmost: 0,
            ..self
        }
    }

    // A set right below the one that is judged, whose members leave so many wanting.
    fn enter(self, short: u64) -> Wanted
        requires { 0 < self.outer }
        ensures { Gets result (λ n3 n2 n1. leb self.outer (bump (leb short n2) n1)) }
    {
        if short == 0 {
            return self.counted(); // and the next one starts anew
        }
        Wanted {
            inner: short,
            inmost: 0, // nothing is wanted below it yet
            ..self
        }
    }

    // A set one level further down, below one that still wants some.
    fn enter_inner(self, short: u64) -> Wanted
        requires { (0 < self.outer) × (0 < self.inner) }
        ensures { Gets result (λ n3 n2 n1. leb self.outer (owed self.inner (bump (leb short n3) n2) + n1)) }
    {
        if short == 0 {
            return self.gain();
        }
        Wanted {
            inmost: short,
            ..self
        }
    }

    // A satisfied set at the last level, below one that still wants some.
    fn gain_inmost(self) -> Wanted
        requires { (0 < self.outer) × (0 < self.inner) × (0 < self.inmost) }
        ensures { Gets result (λ n3 n2 n1. comes self.outer self.inner self.inmost (suc n3) n2 n1) }
    {
        if self.inmost == 1 {
            return self.gain();
        }
        Wanted {
            inmost: self.inmost - 1,
            ..self
        }
    }

    // Record j, below a set at level `above`, is judged for what it gives to those that want it. Below a satisfied set nothing counts.
    fn after(self, t: &Table, u: u64, above: u64, j: usize) -> Wanted
        requires { (j < records t.now) × (above < level_of t.now j) × (0 < self.outer) }
        ensures { left t.now u above (j + 1) result ≡ left t.now u above j self }
    {
        let depth = t.level(j) - above;
        if depth == 1 {
            return self.enter(lacking(t, u, j));
        }
        if self.inner == 0 {
            return self;
        }
        if depth == 2 {
            return self.enter_inner(lacking(t, u, j));
        }
        if self.inmost == 0 {
            return self;
        }
        if lacking(t, u, j) != 0 {
            return self;
        }
        self.gain_inmost()
    }
}

// Whether u satisfies as many inner sets of record r as are wanted: they lie in the records after it, up to the first at its level or a lower one.
fn inner_enough(t: &Table, u: u64, r: usize, wanted: u64) -> bool
    requires { (r < records t.now) × (0 < wanted) }
    ensures { result ≡ leb wanted (still t.now u (level_of t.now r) (r + 1)) }
{
    let above = t.level(r);
    let mut w = Wanted {
        outer: wanted,
        inner: 0,
        inmost: 0,
    };
    for j in r + 1..t.records() {
        if t.level(j) <= above {
            return false;
        }
        w = w.after(t, u, above, j);
        if w.outer == 0 {
            return true;
        }
    }
    false
}

// Whether u satisfies the quorum set of record r. Where nothing is wanting, it does if some member is in u; if none is, the archive is unknown.
pub fn satisfies(t: &Table, u: u64, r: usize) -> bool
    requires { r < records t.now }
    ensures { result ≡ holds t.now u r }
{
    let wanted = lacking(t, u, r);
    if wanted == 0 {
        return t.members(r) & u != 0;
    }
    deeper(t, r) && inner_enough(t, u, r, wanted)
}

// Whether the members of record r in u are enough at a glance, where more than three are asked for. It tells no more: a search that meets
// such sets need not call `satisfies` for them.
pub fn enough(t: &Table, u: u64, r: usize) -> bool
    requires { r < records t.now }
    ensures { result ≡ true → holds t.now u r ≡ true }
{
    let need = t.threshold(r);
    3 < need && need <= sets::count(t.members(r) & u)
}
