// The best step over lent arrays, for the least and for the greatest alike: among some transitions the one that weighs best with the value behind it. HOW A WALK
// BEGINS, in code: its first step is the best out of all starts, final ones too, whatever value they have themselves.
#![tactic(auto)]

ghost use Rattle.std.specs.Prelude.{Bool, false, ◌||◌, List, ◌≡◌, ℕ, ◌≤◌, ◌<◌, eqb};
ghost use Rattle.graph.specs.Graph.{start_mark};
ghost use Rattle.search.specs.Arrays.{at};
ghost use Rattle.search.specs.Chain.{Chains};
ghost use Rattle.search.specs.Route.{Addable};
ghost use Rattle.best_step.specs.Steps.{Better, last as last_of, BestStep};

use search::chain::Chain;
use search::{FAR, NONE, is_start};

// A transition, NONE for none, and what it weighs with the value behind it.
#[derive(Drop)]
pub struct Step {
    pub transition: usize,
    pub cost: u32,
}

// Whether x is better than y: less, where the least is looked for, and more, where the greatest is.
fn better(least: bool, x: u32, y: u32) -> bool
    ensures { Better least x y result }
{
    if least { x < y } else { y < x }
}

// What every number up to FAR is as good as, or better.
fn last(least: bool) -> u32
    ensures { result ≡ last_of least }
{
    if least { FAR } else { 0 }
}

// No step: the best of none.
pub fn none(least: bool) -> Step
    ensures { (m : ℕ) (from to weight value : List ℕ) → BestStep least m from to weight value (λ x. false) result }
{
    Step {
        transition: NONE,
        cost: last(least),
    }
}

// The best of a step and of those out of a state.
pub fn out_of(
    least: bool,
    s: usize,
    best: Step,
    to: &[u16; 2048],
    out: &Chain,
    weight: &[u32; 2048],
    value: &[u32; 512],
) -> Step
    requires { (s < 512) × ((m : ℕ) × (from : List ℕ) × Chains from m out.now.head out.now.link × Addable m to.now weight.now value.now) }
    ensures { (m : ℕ) (from : List ℕ) → m ≤ 2048 → Chains from m out.now.head out.now.link
        → (inside : ℕ → Bool) → BestStep least m from to.now weight.now value.now inside best
        → BestStep least m from to.now weight.now value.now (λ x. inside x || eqb x s) result }
{
    let mut transition = best.transition;
    let mut cost = best.cost;
    let mut t = usize::from(out.head[s]);
    while t < NONE {
        let x = weight[t] + value[usize::from(to[t])];
        if !better(least, cost, x) {
            transition = t;
            cost = x;
        }
        t = usize::from(out.link[t]);
    }
    Step { transition, cost }
}

// The first step of a best walk: the best of those out of all starts.
pub fn first(
    least: bool,
    n: usize,
    marks: &[u8; 512],
    to: &[u16; 2048],
    out: &Chain,
    weight: &[u32; 2048],
    value: &[u32; 512],
) -> Step
    requires { (n ≤ 512) × ((m : ℕ) × (from : List ℕ) × Chains from m out.now.head out.now.link × Addable m to.now weight.now value.now) }
    ensures { (m : ℕ) (from : List ℕ) → m ≤ 2048 → Chains from m out.now.head out.now.link → ((t : ℕ) → t < m → at from t < n)
        → BestStep least m from to.now weight.now value.now (λ x. start_mark (at marks.now x)) result }
{
    let mut best = none(least);
    for s in 0..n {
        let mark = marks[s];
        if is_start(mark) {
            best = out_of(least, s, best, to, out, weight, value);
        }
    }
    best
}
