// Keys spread from the final states back, nearest first, until no nearer first step is left to find.
#![tactic(auto)]

ghost use Rattle.std.specs.Prelude.{cond, List, ◌≡◌, ℕ, ◌+◌, ◌≤◌, ◌<◌, min, length};
ghost use Rattle.search.specs.Arrays.{arrays, at, Bounded, Below};
ghost use Rattle.search.specs.Chain.{Chains};
ghost use Rattle.search.specs.Sizes.{heaviest};
ghost use Rattle.keys.specs.Keys.{Weighed, Keys, Spreading, Offered};

use heap::Heap;
use search::chain::Chain;
use search::{FAR, NONE, is_final, is_start};

// Offers a key to a state: an unfinished state takes it where it is lower, and is pending then.
fn offer(s: usize, x: u32, marks: &[u8; 512], key: &mut [u32; 512], heap: &mut Heap)
    requires { (s < 512) × (512 ≤ length key.old) }
    ensures { Offered marks.now s x key.old key.new × ((k : ℕ) → s < k → Below k heap.old.items → Below k heap.new.items) }
{
    if is_final(marks[s]) {
        return;
    }
    let old = key[s];
    if old <= x {
        return;
    }
    key[s] = x;
    if old < FAR {
        heap.lowered(key, s as u16);
    } else if heap.size < 512 {
        heap.push(key, s as u16);
    }
}

// What the nearest first step costs, after one that costs x out of a start, or out of another state.
fn nearer(start: bool, x: u32, nearest: u32) -> u32
    ensures { result ≡ cond start (min x nearest) nearest }
{
    if start { x.min(nearest) } else { nearest }
}

// Gives each final state its close for a key, and makes it pending; no other state has a key.
fn seed(n: usize, marks: &[u8; 512], close: &[u32; 512], key: &mut [u32; 512], heap: &mut Heap)
    requires { (n ≤ 512) × ((s : ℕ) → at close.now s ≤ heaviest) × (512 ≤ length key.old)
        × (heap.old.size ≡ 0) × Below n heap.old.items }
    ensures { ((m : ℕ) (from to weight : List ℕ) → Keys (arrays n m marks.now from to) weight close.now key.new)
        × Below n heap.new.items }
{
    for s in 0..n {
        if is_final(marks[s]) {
            let last = close[s];
            key[s] = last;
            heap.push(key, s as u16);
        } else {
            key[s] = FAR;
        }
    }
}

// Offers the state behind each transition into s what the way through s costs. A start takes no key from it where it is final, and is a first step all the same.
// Returns what the nearest first step found so far costs.
fn relax_into(
    s: usize,
    marks: &[u8; 512],
    from: &[u16; 2048],
    weight: &[u32; 2048],
    into: &Chain,
    key: &mut [u32; 512],
    heap: &mut Heap,
    nearest: u32,
) -> u32
    requires { (n m : ℕ) × (to close : List ℕ) × (s < n)
        × Spreading (arrays n m marks.now from.now to) weight.now close into.now.head into.now.link key.old × Below n heap.old.items }
    ensures { (n m : ℕ) (to close : List ℕ) → s < n
        → Spreading (arrays n m marks.now from.now to) weight.now close into.now.head into.now.link key.old → Below n heap.old.items
        → Keys (arrays n m marks.now from.now to) weight.now close key.new × Below n heap.new.items }
{
    let mut nearest = nearest;
    let mut t = usize::from(into.head[s]);
    while t < NONE {
        let x = weight[t] + key[s];
        let behind = usize::from(from[t]);
        offer(behind, x, marks, key, heap);
        nearest = nearer(is_start(marks[behind]), x, nearest);
        t = usize::from(into.link[t]);
    }
    nearest
}

// Spreads keys from the final states back, nearest first, until a first step is as near as the nearest state. Each state is taken once. Whatever the keys were before is
// lost.
pub fn spread(
    n: usize,
    marks: &[u8; 512],
    from: &[u16; 2048],
    weight: &[u32; 2048],
    close: &[u32; 512],
    into: &Chain,
    key: &mut [u32; 512],
)
    requires in_bounds { 512 ≤ length key.old }
    requires by_index { (m : ℕ) × (to : List ℕ) × Bounded (arrays n m marks.now from.now to) × Weighed m weight.now close.now × Chains to m into.now.head into.now.link }
    ensures { (m : ℕ) (to : List ℕ) → Bounded (arrays n m marks.now from.now to) → Weighed m weight.now close.now
        → Chains to m into.now.head into.now.link → Keys (arrays n m marks.now from.now to) weight.now close.now key.new }
{
    let mut heap = Heap::new();
    seed(n, marks, close, key, &mut heap);
    // what the nearest first step found so far costs, FAR before one is: a start and a transition out of it to a state that was taken
    let mut nearest = FAR;
    for _ in 0..n {
        let Some(s) = heap.nearest() else {
            break;
        };
        if nearest <= key[s] {
            break;
        }
        heap.pop(key);
        nearest = relax_into(s, marks, from, weight, into, key, &mut heap, nearest);
    }
}
