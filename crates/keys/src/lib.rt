// Keys of the states of a graph in lent arrays: a key is a bound from above on what a route from the state costs. Whatever keys there are, every one that could be
// lowered to less than what the best first step costs is lowered; where a search has spread them nearest first, one pass over the transitions finds that there is none.
#![tactic(auto)]

ghost use Rattle.std.specs.Prelude.{List, ℕ, ◌≤◌, ◌<◌, length};
ghost use Rattle.search.specs.Arrays.{arrays, at};
ghost use Rattle.search.specs.Chain.{Chains};
ghost use Rattle.search.specs.Sizes.{far, heaviest};
ghost use Rattle.keys.specs.Keys.{Keyed, Passing, Ready, Relaxed};

use best_step::Step;
use search::chain::Chain;
use search::is_final;

// Lowers the key of the state that t leaves, where the way by t is cheaper, and cheaper than the bound. Returns whether it did.
fn relax(
    t: usize,
    bound: u32,
    marks: &[u8; 512],
    from: &[u16; 2048],
    to: &[u16; 2048],
    weight: &[u32; 2048],
    key: &mut [u32; 512],
) -> bool
    requires { (t < 2048) × (at from.now t < 512) × (at to.now t < 512) × (at weight.now t ≤ heaviest)
        × (at key.old (at to.now t) ≤ far) × (512 ≤ length key.old) }
    ensures { Relaxed marks.now from.now to.now weight.now bound t key.old result key.new }
{
    let behind = usize::from(from[t]);
    let ahead = usize::from(to[t]);
    let x = weight[t] + key[ahead];
    if key[behind] <= x {
        return false;
    }
    if bound <= x {
        return false;
    }
    if is_final(marks[behind]) {
        return false;
    }
    key[behind] = x;
    true
}

// One pass over the transitions. Returns whether a key was lowered.
fn pass(
    m: usize,
    bound: u32,
    marks: &[u8; 512],
    from: &[u16; 2048],
    to: &[u16; 2048],
    weight: &[u32; 2048],
    key: &mut [u32; 512],
) -> bool
    requires { (n : ℕ) × (close : List ℕ) × Keyed (arrays n m marks.now from.now to.now) weight.now close key.old }
    ensures { (n : ℕ) (close : List ℕ) → Keyed (arrays n m marks.now from.now to.now) weight.now close key.old
        → Passing (arrays n m marks.now from.now to.now) weight.now close bound m key.old result key.new }
{
    let mut lowered = false;
    for t in 0..m {
        if relax(t, bound, marks, from, to, weight, key) {
            lowered = true;
        }
    }
    lowered
}

// Lowers keys until none can be lowered to less than what the best first step costs. Returns that step; its cost is FAR where no step leads to a key.
pub fn settle(
    n: usize,
    m: usize,
    marks: &[u8; 512],
    from: &[u16; 2048],
    to: &[u16; 2048],
    out: &Chain,
    weight: &[u32; 2048],
    key: &mut [u32; 512],
) -> Step
    requires { ((close : List ℕ) × Keyed (arrays n m marks.now from.now to.now) weight.now close key.old) × Chains from.now m out.now.head out.now.link }
    ensures { (close : List ℕ) → Keyed (arrays n m marks.now from.now to.now) weight.now close key.old
        → Ready (arrays n m marks.now from.now to.now) weight.now close result key.new }
{
    loop {
        let first = best_step::first(true, n, marks, to, out, weight, key);
        if !pass(m, first.cost, marks, from, to, weight, key) {
            return first;
        }
    }
}
