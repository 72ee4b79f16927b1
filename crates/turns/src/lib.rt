// A turn of the depth-first search through the starts and the unfinished states of a graph in lent arrays: the state on top of the stack is left, passes a transition, or
// the state that it leads to is entered. A final state that a walk arrives at ends it, also where it is on the stack as the walk's start; a step to an unfinished state on the
// stack is a walk that goes on forever.
#![tactic(auto)]

ghost use Rattle.std.specs.Prelude.{List, ◌≡◌, ℕ, ◌+◌, ◌<◌, set};
ghost use Rattle.search.specs.Arrays.{arrays, at};
ghost use Rattle.turns.specs.Search.{Underway, Turned};

use search::chain::Chain;
use search::{NONE, is_final};

// The arrays of a search: ranks, cursors, the stack, the order of leaving, and the transitions that led to the states.
#[derive(Clone, Copy)]
pub struct Table {
    pub rank: [u16; 512],
    pub cursor: [u16; 512],
    pub stack: [u16; 512],
    pub order: [u16; 512],
    pub via: [u16; 512],
}

// How the search goes on after a turn: with so many states on the stack and so many left, or back to a place on the stack.
#[derive(Drop)]
pub enum Course {
    On { depth: usize, left: usize },
    Back(usize),
}

impl Table {
    // Enters a state: it goes on the stack at place d.
    pub fn enter(&mut self, s: usize, by: u16, d: usize, out: &Chain)
        requires { (s < 512) × (d < 512) }
        ensures { (self.new.rank ≡ set self.old.rank s (513 + d)) × (self.new.cursor ≡ set self.old.cursor s (at out.now.head s))
            × (self.new.stack ≡ set self.old.stack d s) × (self.new.via ≡ set self.old.via s by) × (self.new.order ≡ self.old.order) }
    {
        self.rank[s] = (513 + d) as u16;
        self.cursor[s] = out.head[s];
        self.stack[d] = s as u16;
        self.via[s] = by;
    }

    // One turn at the state on top of the stack, with its cursor: leaves the state, passes a transition, or enters the state that it leads to.
    pub fn turn(
        &mut self,
        d: usize,
        done: usize,
        marks: &[u8; 512],
        to: &[u16; 2048],
        out: &Chain,
    ) -> Course
        requires { (n m : ℕ) × (from : List ℕ) × (0 < d)
            × Underway (arrays n m marks.now from to.now) out.now.head out.now.link self.old d done }
        ensures { (n m : ℕ) (from : List ℕ)
            → Underway (arrays n m marks.now from to.now) out.now.head out.now.link self.old d done
            → Turned (arrays n m marks.now from to.now) self.old d result self.new }
    {
        let s = usize::from(self.stack[d - 1]);
        let t = usize::from(self.cursor[s]);
        if t == NONE {
            self.order[done] = s as u16;
            self.rank[s] = (done + 1) as u16;
            return Course::On {
                depth: d - 1,
                left: done + 1,
            };
        }
        let v = usize::from(to[t]);
        if !is_final(marks[v]) {
            let r = usize::from(self.rank[v]);
            if 512 < r {
                let back = r - 513;
                return Course::Back(back);
            }
            if r == 0 {
                self.enter(v, t as u16, d, out);
                let depth = d + 1;
                return Course::On { depth, left: done };
            }
        }
        self.cursor[s] = out.link[t];
        Course::On {
            depth: d,
            left: done,
        }
    }
}
