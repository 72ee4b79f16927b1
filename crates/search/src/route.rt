// Routes read off values: after the first step, at each state the lowest-numbered transition that accounts for its value.
ghost use Rattle.std.specs.Prelude.{List, ℕ, suc, ◌≤◌, ◌<◌, length};
ghost use Rattle.search.specs.Arrays.{Arrays, arrays, at, Leaves};
ghost use Rattle.search.specs.Chain.{Chains};
ghost use Rattle.search.specs.Route.{Accounts, Addable, Readable, Traced, TracedBy};

use crate::chain::Chain;
use crate::{NONE, is_final};

// The first transition that leaves the state and accounts for its value.
fn accounting(
    s: usize,
    to: &[u16; 2048],
    out: &Chain,
    weight: &[u32; 2048],
    value: &[u32; 512],
) -> usize
    requires { (A : Arrays) × (s < 512) × (A.m ≤ 2048) × Chains A.from A.m out.now.head out.now.link
        × Addable A.m to.now weight.now value.now
        × ((t : ℕ) × Leaves A s t × Accounts to.now weight.now value.now s t) }
    ensures { (result < 2048) × Accounts to.now weight.now value.now s result
        × ((A : Arrays) → Chains A.from A.m out.now.head out.now.link → Leaves A s result) }
{
    let mut t = usize::from(out.head[s]);
    while t < NONE {
        if value[s] == weight[t] + value[usize::from(to[t])] {
            break;
        }
        t = usize::from(out.link[t]);
    }
    t
}

// Writes the route from a state to the front of the places, and returns how many transitions it has.
fn follow(
    s: usize,
    marks: &[u8; 512],
    to: &[u16; 2048],
    out: &Chain,
    weight: &[u32; 2048],
    value: &[u32; 512],
    walk: &mut [u16],
) -> usize
    requires { (n m : ℕ) × (from close : List ℕ) × (n ≤ suc (length walk.old))
        × Readable (arrays n m marks.now from to.now) out.now.head out.now.link weight.now close value.now s }
    ensures { (n m : ℕ) (from close : List ℕ)
        → (r : Readable (arrays n m marks.now from to.now) out.now.head out.now.link weight.now close value.now s)
        → Traced (arrays n m marks.now from to.now) weight.now close value.now r.rank s result
        walk.old walk.new }
{
    let mut x = s;
    let mut k = 0;
    while !is_final(marks[x]) {
        let t = accounting(x, to, out, weight, value);
        walk[k] = t as u16;
        k += 1;
        x = usize::from(to[t]);
    }
    k
}

// Writes the route that begins with a transition to the front of the places, and returns how many transitions it has.
pub fn trace(
    t: usize,
    marks: &[u8; 512],
    to: &[u16; 2048],
    out: &Chain,
    weight: &[u32; 2048],
    value: &[u32; 512],
    walk: &mut [u16],
) -> usize
    requires { (n m : ℕ) × (from close : List ℕ) × (n ≤ length walk.old) × (t < m)
        × Readable (arrays n m marks.now from to.now) out.now.head out.now.link weight.now close value.now (at to.now t) }
    ensures { (n m : ℕ) (from close : List ℕ)
        → (r : Readable (arrays n m marks.now from to.now) out.now.head out.now.link weight.now close value.now (at to.now t))
        → TracedBy (arrays n m marks.now from to.now) weight.now close value.now r.rank t result
        walk.old walk.new }
{
    walk[0] = t as u16;
    let k = follow(
        usize::from(to[t]),
        marks,
        to,
        out,
        weight,
        value,
        &mut walk[1..],
    );
    k + 1
}
