// What the starts of a graph in lent arrays reach: one depth-first search through the starts and the unfinished states that they reach, and the hunt for a dead end.
#![tactic(auto)]

pub mod explore;

use turns::Table;

// What the search from the starts found: no start; a loop, from a stack of so many states back to a place on it; a dead end; or neither, with so
// many states left.
#[derive(Clone, Copy)]
pub enum Reach {
    NoStart,
    Looped { depth: usize, back: usize },
    DeadEnd(usize),
    Ends(usize),
}

// What the search found, with the arrays that it left behind.
#[derive(Clone, Copy)]
pub struct Searched {
    pub found: Reach,
    pub table: Table,
}
