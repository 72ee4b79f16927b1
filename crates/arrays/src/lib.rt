// The arrays that hold a plan's marks, teams and transitions: their limits. A plan value is two counts and these arrays.
#![tactic(auto)]

pub mod limits;

// A marks value has these for start and for final, and 1 for counted.
pub const START: u8 = 4;

pub const FINAL: u8 = 2;

// How many states and transitions the arrays hold.
#[derive(Clone, Copy)]
pub struct Counts {
    pub states: usize,
    pub transitions: usize,
}

// A plan: the two counts, a marks value and a team for each state, and four fields for each transition. Places past the counts hold no part of it.
#[derive(Clone, Copy)]
pub struct Plan {
    pub states: usize,
    pub transitions: usize,
    pub marks: [u8; 512],
    pub teams: [u8; 512],
    pub from: [u16; 2048],
    pub to: [u16; 2048],
    pub low: [u16; 2048],
    pub high: [u16; 2048],
}
