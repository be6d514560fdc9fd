// Sets of nodes as words: node i has the value 2^i. Each function answers for the set that a word stands for; `a | b` and `a & b`
// are the nodes in either and in both.
#![tactic(auto)]

ghost use Rattle.std.specs.Prelude.{◌≡◌, ◌<◌, ◌≤◌};
ghost use Rattle.sets.specs.Sets.{has, only, everyone, ◌∖◌, size, lowest};

// Whether node i is in m.
pub fn contains(m: u64, i: u64) -> bool
    requires { i < 64 }
    ensures { result ≡ has m i }
{
    (m >> i) % 2 == 1
}

// Node i alone.
pub fn one(i: u64) -> u64
    requires { i < 64 }
    ensures { result ≡ only i }
{
    1u64 << i
}

// The nodes of a that are not in b.
pub fn without(a: u64, b: u64) -> u64
    ensures { result ≡ a ∖ b }
{
    a ^ (a & b)
}

// How many nodes m has.
pub fn count(m: u64) -> u64
    ensures { (result ≡ size 64 m) × (result ≤ 64) }
{
    u64::count_ones(m) as u64
}

// The lowest node of m, or 64 where m is empty.
// 64 is the definition's (`lowest`) and the processor's own answer, and whoever asks knows that m has a node, so an `Option` would be no plainer.
pub fn first(m: u64) -> u64
    ensures { (result ≡ lowest 64 m) × (result ≤ 64) }
{
    u64::trailing_zeros(m) as u64
}

// The nodes 0 to n - 1.
pub fn all(n: u64) -> u64
    requires { n ≤ 64 }
    ensures { result ≡ everyone n }
{
    if n == 64 {
        return 18446744073709551615;
    }
    (1u64 << n) - 1
}
