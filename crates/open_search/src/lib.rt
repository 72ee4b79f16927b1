// Open transitions among those that leave the states which the search entered: the hunt for one, for the greatest delay alone, and the walk that shows it.
#![tactic(auto)]

ghost use Rattle.std.specs.Prelude.{true, List, ◌≡◌, ℕ, ◌≤◌, ◌<◌, length};
ghost use Rattle.graph.specs.Figure.{IsGreatest};
ghost use Rattle.graph.specs.Graph.{Graph};
ghost use Rattle.graph.specs.Route.{Cost, limit, is_open};
ghost use Rattle.reach.specs.Explored.{Ranked};
ghost use Rattle.rules.specs.Quotations.{meant};
ghost use Rattle.search.specs.Arrays.{arrays, at, Bounded, StandsIn};
ghost use Rattle.search.specs.Quoted.{Quoted};
ghost use Rattle.tree.specs.Tree.{Climbable};
ghost use Rattle.open_search.specs.Open.{FirstOpen, Answered};

use graph::{Duration, Which};
use reach::{Reach, Searched};
use rules::{Figure, Quote};

// Whether a high is open.
fn is_open(high: u16) -> bool
    ensures { result ≡ is_open (limit high) }
{
    matches!(costs::limit(high), Duration::Open)
}

// The first open transition, by number, out of a state with a rank, if there is one.
fn first_open(m: usize, from: &[u16; 2048], high: &[u16; 2048], rank: &[u16; 512]) -> Option<usize>
    requires { (m ≤ 2048) × ((t : ℕ) → t < m → at from.now t < 512) }
    ensures { FirstOpen m from.now high.now rank.now result }
{
    for t in 0..m {
        if 0 < rank[usize::from(from[t])] {
            if is_open(high[t]) {
                return Some(t);
            }
        }
    }
    None
}

// The open transition by which a figure is ENDLESS, if there is one. It is one for the greatest delay alone, and where the search came to its end: a loop that
// it found is shown as it is.
pub fn find(
    which: Which,
    searched: &Searched,
    m: usize,
    from: &[u16; 2048],
    high: &[u16; 2048],
) -> Option<usize>
    requires { (m ≤ 2048) × ((t : ℕ) → t < m → at from.now t < 512) }
    ensures { Answered which searched.now.found m from.now high.now searched.now.table.rank result }
{
    match which {
        Which::GreatestDelay => match searched.found {
            Reach::NoStart | Reach::Looped { .. } => None,
            Reach::DeadEnd(_) | Reach::Ends(_) => first_open(m, from, high, &searched.table.rank),
        },
        _ => None,
    }
}

// The walk down the tree to the state that an open transition leaves, and the transition.
pub fn show(t: usize, from: &[u16; 2048], searched: &Searched, walk: &mut [u16]) -> Quote
    requires { (n m : ℕ) × (n ≤ length walk.old) × (t < m)
        × Climbable n m from.now searched.now.table.rank searched.now.table.via (at from.now t) }
    ensures { (n m : ℕ) (marks to : List ℕ) (done : ℕ) → n ≤ length walk.old
        → Bounded (arrays n m marks from.now to)
        → Ranked (arrays n m marks from.now to) searched.now.table done → t < m → 0 < at searched.now.table.rank (at from.now t)
        → (g : Graph) → StandsIn (arrays n m marks from.now to) g → (c : Cost) → c.unlimited t ≡ true
        → Quoted (IsGreatest g c) g c (meant result.figure) result.k result.j walk.old walk.new }
{
    let s = usize::from(from[t]);
    let k = tree::climb(s, from, &searched.table.via, walk);
    walk[k] = t as u16;
    Quote {
        figure: Figure::Endless,
        k: k + 1,
        j: k + 1,
    }
}
