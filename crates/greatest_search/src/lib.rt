// The greatest cost of a route over lent arrays, any cost, from what the starts reach, with the walk that shows it.
#![tactic(auto)]

ghost use Rattle.std.specs.Prelude.{ℕ, ◌≤◌, length};
ghost use Rattle.arrays.specs.Tables.{cost_of};
ghost use Rattle.graph.specs.Graph.{Graph};
ghost use Rattle.graph.specs.Figure.{IsGreatest};
ghost use Rattle.search.specs.Arrays.{arrays, StandsIn};
ghost use Rattle.search.specs.Chain.{Linked};
ghost use Rattle.search.specs.Quoted.{Quoted};
ghost use Rattle.search.specs.Weights.{weights_of, Light};
ghost use Rattle.reach.specs.Explored.{Reached};
ghost use Rattle.rules.specs.Quotations.{meant};

use reach::{Reach, Searched};
use rules::{Figure, Quote};
use search::chain::Chain;

// The greatest figure from what the starts reach, and the walk that shows it. The closes are handed over, since they may become the values.
pub fn greatest(
    n: usize,
    marks: &[u8; 512],
    from: &[u16; 2048],
    to: &[u16; 2048],
    out: &Chain,
    searched: &Searched,
    weight: &[u32; 2048],
    close: [u32; 512],
    walk: &mut [u16],
) -> Quote
    requires n_in_bounds { (n ≤ length walk.old) × Light (weights_of weight.now close) }
    requires by_index { (m : ℕ) × Linked (arrays n m marks.now from.now to.now) out.now.head out.now.link
        × Reached (arrays n m marks.now from.now to.now) searched.now.table searched.now.found }
    ensures { (m : ℕ) → Linked (arrays n m marks.now from.now to.now) out.now.head out.now.link
        → Reached (arrays n m marks.now from.now to.now) searched.now.table searched.now.found
        → (g : Graph) → StandsIn (arrays n m marks.now from.now to.now) g
        → Quoted (IsGreatest g (cost_of weight.now close)) g (cost_of weight.now close) (meant result.figure) result.k result.j walk.old walk.new }
{
    match searched.found {
        Reach::NoStart => Quote {
            figure: Figure::None,
            k: 0,
            j: 0,
        },
        Reach::Looped { depth, back } => {
            tree::along_stack(depth, &searched.table.stack, &searched.table.cursor, walk);
            Quote {
                figure: Figure::Endless,
                k: depth,
                j: back,
            }
        }
        Reach::DeadEnd(s) => {
            let k = tree::climb(s, from, &searched.table.via, walk);
            Quote {
                figure: Figure::Stranded,
                k,
                j: 0,
            }
        }
        Reach::Ends(done) => values::best(
            false,
            done,
            n,
            marks,
            to,
            out,
            &searched.table.order,
            weight,
            close,
            walk,
        ),
    }
}
