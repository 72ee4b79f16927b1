// The depth-first search through the starts, final or not, and the unfinished states that they reach. A step to an unfinished state on the stack is a walk that goes on
// forever; where there is none, the order of leaving is a rank that falls along every transition to an unfinished state.
ghost use Rattle.std.specs.Prelude.{List, ◌≡◌, ℕ, ◌<◌};
ghost use Rattle.search.specs.Arrays.{arrays, at, StartIn};
ghost use Rattle.search.specs.Chain.{Linked};
ghost use Rattle.turns.specs.Search.{Sized, Underway};
ghost use Rattle.reach.specs.Explored.{Explored, Descended, Reached};

use crate::{Reach, Searched};
use search::chain::Chain;
use search::{NONE, is_start};
use turns::{Course, Table};

// Searches from a start that was not entered yet, until all that was entered is left, or a loop is found.
fn descend(
    s: usize,
    done: usize,
    marks: &[u8; 512],
    to: &[u16; 2048],
    out: &Chain,
    table: &mut Table,
) -> Reach
    requires start_in { StartIn marks.now s × (at table.old.rank s ≡ 0) }
    requires by_index { (n m : ℕ) × (from : List ℕ) × (s < n)
        × Underway (arrays n m marks.now from to.now) out.now.head out.now.link table.old 0 done }
    ensures { (n m : ℕ) (from : List ℕ) → s < n
        → Underway (arrays n m marks.now from to.now) out.now.head out.now.link table.old 0 done
        → Descended (arrays n m marks.now from to.now) table.old s result table.new }
{
    table.enter(s, NONE as u16, 0, out);
    let mut d = 1;
    let mut left = done;
    while 0 < d {
        match table.turn(d, left, marks, to, out) {
            Course::On { depth, left: count } => {
                d = depth;
                left = count;
            }
            Course::Back(j) => return Reach::Looped { depth: d, back: j },
        }
    }
    Reach::Ends(left)
}

// Searches from every start. The ranks are zero before it.
fn explore(n: usize, marks: &[u8; 512], to: &[u16; 2048], out: &Chain, table: &mut Table) -> Reach
    requires by_index { (m : ℕ) × (from : List ℕ) × Linked (arrays n m marks.now from to.now) out.now.head out.now.link }
    requires sized { Sized table.old × ((s : ℕ) → at table.old.rank s ≡ 0) }
    ensures { (m : ℕ) (from : List ℕ) → Linked (arrays n m marks.now from to.now) out.now.head out.now.link
        → Explored (arrays n m marks.now from to.now) table.new result }
{
    let mut any = false;
    let mut left = 0;
    for s in 0..n {
        let mark = marks[s];
        if is_start(mark) {
            any = true;
            if table.rank[s] == 0 {
                let found = descend(s, left, marks, to, out, table);
                match found {
                    Reach::Ends(count) => left = count,
                    _ => return found,
                }
            }
        }
    }
    if any {
        Reach::Ends(left)
    } else {
        Reach::NoStart
    }
}

// What the starts reach: no start, a loop, a dead end, or neither.
pub fn reach(n: usize, marks: &[u8; 512], to: &[u16; 2048], out: &Chain) -> Searched
    requires { (m : ℕ) × (from : List ℕ) × Linked (arrays n m marks.now from to.now) out.now.head out.now.link }
    ensures { (m : ℕ) (from : List ℕ) → Linked (arrays n m marks.now from to.now) out.now.head out.now.link
        → Reached (arrays n m marks.now from to.now) result.table result.found }
{
    let mut table = Table {
        rank: [0; 512],
        cursor: [0; 512],
        stack: [0; 512],
        order: [0; 512],
        via: [0; 512],
    };
    let explored = explore(n, marks, to, out, &mut table);
    let found = match explored {
        Reach::Ends(left) => match hunt::hunt(n, marks, to, out, &table.rank, &table.via) {
            Some(dead) => Reach::DeadEnd(dead),
            None => Reach::Ends(left),
        },
        other => other,
    };
    Searched { found, table }
}
