// The least cost of a route over lent arrays, any cost, with a route that attains it: from what the starts reach, or nearest first.
#![tactic(auto)]

ghost use Rattle.std.specs.Prelude.{◌≤◌, length};
ghost use Rattle.arrays.specs.Tables.{cost_of};
ghost use Rattle.graph.specs.Graph.{Graph};
ghost use Rattle.graph.specs.Figure.{IsLeast};
ghost use Rattle.search.specs.Arrays.{arrays, Bounded, StandsIn};
ghost use Rattle.search.specs.Chain.{Chains, Linked};
ghost use Rattle.search.specs.Quoted.{Quoted};
ghost use Rattle.rules.specs.Quotations.{meant};
ghost use Rattle.keys.specs.Keys.{Weighed};
ghost use Rattle.reach.specs.Explored.{Reached};

use reach::{Reach, Searched};
use rules::{Figure, Quote};
use search::chain::Chain;
use search::{FAR, chain, route};

// The least cost of a route, and a route that attains it, whatever the starts reach: by keys.
fn by_keys(
    n: usize,
    m: usize,
    marks: &[u8; 512],
    from: &[u16; 2048],
    to: &[u16; 2048],
    out: &Chain,
    weight: &[u32; 2048],
    close: &[u32; 512],
    walk: &mut [u16],
) -> Quote
    requires bounded { Bounded (arrays n m marks.now from.now to.now) × Weighed m weight.now close.now × (n ≤ length walk.old) }
    requires chains { Chains from.now m out.now.head out.now.link }
    ensures { (g : Graph) → StandsIn (arrays n m marks.now from.now to.now) g
        → Quoted (IsLeast g (cost_of weight.now close.now)) g (cost_of weight.now close.now) (meant result.figure) result.k result.j walk.old walk.new }
{
    let into = chain::chains(to, m);
    let mut key = [0u32; 512];
    spreading::spread(n, marks, from, weight, close, &into, &mut key);
    let first = keys::settle(n, m, marks, from, to, out, weight, &mut key);
    if FAR <= first.cost {
        return Quote {
            figure: Figure::None,
            k: 0,
            j: 0,
        };
    }
    let k = route::trace(first.transition, marks, to, out, weight, &key, walk);
    Quote {
        figure: Figure::Number(first.cost),
        k,
        j: 0,
    }
}

// The least figure from what the starts reach, and a route that attains it. Where they reach neither a loop nor a dead end, values in the order of leaving
// give it at once. The closes are handed over, since they may become the values.
pub fn least(
    n: usize,
    m: usize,
    marks: &[u8; 512],
    from: &[u16; 2048],
    to: &[u16; 2048],
    out: &Chain,
    searched: &Searched,
    weight: &[u32; 2048],
    close: [u32; 512],
    walk: &mut [u16],
) -> Quote
    requires linked { Linked (arrays n m marks.now from.now to.now) out.now.head out.now.link × Weighed m weight.now close × (n ≤ length walk.old) }
    requires reached { Reached (arrays n m marks.now from.now to.now) searched.now.table searched.now.found }
    ensures { (g : Graph) → StandsIn (arrays n m marks.now from.now to.now) g
        → Quoted (IsLeast g (cost_of weight.now close)) g (cost_of weight.now close) (meant result.figure) result.k result.j walk.old walk.new }
{
    match searched.found {
        Reach::Ends(done) => values::best(
            true,
            done,
            n,
            marks,
            to,
            out,
            &searched.table.order,
            weight,
            close,
            walk,
        ),
        _ => by_keys(n, m, marks, from, to, out, weight, &close, walk),
    }
}
