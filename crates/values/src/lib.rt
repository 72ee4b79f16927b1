// The least or the greatest cost of a route over lent arrays, any cost, where the starts reach neither a loop nor a dead end, with a route that attains it: values,
// what the best route from each state costs, are filled in the order in which the search left the states.
#![tactic(auto)]

ghost use Rattle.std.specs.Prelude.{List, ℕ, ◌≤◌, length};
ghost use Rattle.arrays.specs.Tables.{cost_of};
ghost use Rattle.graph.specs.Graph.{Graph};
ghost use Rattle.rules.specs.Quotations.{meant};
ghost use Rattle.search.specs.Arrays.{arrays, StandsIn};
ghost use Rattle.search.specs.Quoted.{Quoted};
ghost use Rattle.search.specs.Weights.{weights_of, Light};
ghost use Rattle.turns.specs.Search.{table};
ghost use Rattle.values.specs.Values.{Fillable, Valued, Over, IsBest};

use rules::{Figure, Quote};
use search::chain::Chain;
use search::{is_final, route};

// Fills in the values of the states that were left, in their order. The closes stand there before, and stay at final states: the value there is for walks that arrive.
fn fill(
    least: bool,
    done: usize,
    marks: &[u8; 512],
    to: &[u16; 2048],
    out: &Chain,
    order: &[u16; 512],
    weight: &[u32; 2048],
    value: &mut [u32; 512],
)
    requires { (n m : ℕ) × (from : List ℕ) × Fillable (arrays n m marks.now from to.now) out.now.head out.now.link order.now weight.now done
        × Valued least (arrays n m marks.now from to.now) order.now weight.now value.old 0 value.old }
    ensures { (n m : ℕ) (from : List ℕ)
        → Fillable (arrays n m marks.now from to.now) out.now.head out.now.link order.now weight.now done
        → Valued least (arrays n m marks.now from to.now) order.now weight.now value.old 0 value.old
        → Valued least (arrays n m marks.now from to.now) order.now weight.now value.old done value.new }
{
    for i in 0..done {
        let s = usize::from(order[i]);
        if !is_final(marks[s]) {
            let step = best_step::out_of(least, s, best_step::none(least), to, out, weight, value);
            value[s] = step.cost;
        }
    }
}

// The least or the greatest cost of a route, and a route that attains it. The closes are handed over, and become the values.
pub fn best(
    least: bool,
    done: usize,
    n: usize,
    marks: &[u8; 512],
    to: &[u16; 2048],
    out: &Chain,
    order: &[u16; 512],
    weight: &[u32; 2048],
    mut close: [u32; 512],
    walk: &mut [u16],
) -> Quote
    requires n_in_bounds { (n ≤ length walk.old) × Light (weights_of weight.now close) }
    requires by_index { (m : ℕ) × (from rank cursor stack via : List ℕ)
        × Over (arrays n m marks.now from to.now) out.now.head out.now.link (table rank cursor stack order.now via) done }
    ensures { (m : ℕ) (from rank cursor stack via : List ℕ)
        → Over (arrays n m marks.now from to.now) out.now.head out.now.link (table rank cursor stack order.now via) done
        → (g : Graph) → StandsIn (arrays n m marks.now from to.now) g
        → Quoted (IsBest least g (cost_of weight.now close)) g (cost_of weight.now close) (meant result.figure) result.k result.j walk.old walk.new }
{
    fill(least, done, marks, to, out, order, weight, &mut close);
    let first = best_step::first(least, n, marks, to, out, weight, &close);
    let k = route::trace(first.transition, marks, to, out, weight, &close, walk);
    Quote {
        figure: Figure::Number(first.cost),
        k,
        j: 0,
    }
}
