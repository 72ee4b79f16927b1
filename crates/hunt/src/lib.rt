// The hunt for a dead end among the states that the search entered, those that unfinished walks reach.
#![tactic(auto)]

ghost use Rattle.std.specs.Prelude.{List, ℕ};
ghost use Rattle.search.specs.Arrays.{arrays};
ghost use Rattle.hunt.specs.Hunted.{Entered, Hunted};

use search::chain::Chain;
use search::{NONE, is_final};

// A dead end that was entered, if there is one. A start is looked at itself, another state from a transition that leads to it, and the
// hunt stops at the first one found.
pub fn hunt(
    n: usize,
    marks: &[u8; 512],
    to: &[u16; 2048],
    out: &Chain,
    rank: &[u16; 512],
    via: &[u16; 512],
) -> Option<usize>
    requires { (m : ℕ) × (from : List ℕ) × Entered (arrays n m marks.now from to.now) out.now.head out.now.link rank.now via.now }
    ensures { (m : ℕ) (from : List ℕ) → Entered (arrays n m marks.now from to.now) out.now.head out.now.link rank.now via.now
        → Hunted (arrays n m marks.now from to.now) rank.now result }
{
    let mut dead = None;
    'states: for s in 0..n {
        if 0 < rank[s] {
            let mut t = usize::from(out.head[s]);
            if t == NONE {
                if via[s] == NONE as u16 {
                    dead = Some(s);
                    break 'states;
                }
            }
            'transitions: while t < NONE {
                let v = usize::from(to[t]);
                if out.head[v] == NONE as u16 {
                    if !is_final(marks[v]) {
                        dead = Some(v);
                        break 'states;
                    }
                }
                t = usize::from(out.link[t]);
            }
        }
    }
    dead
}
