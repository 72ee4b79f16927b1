// A plan's image, read into the arrays that hold its marks, teams and transitions: its header, states and transitions as packed fields.
#![tactic(auto)]

pub mod reading;

// A transition by its four numbers.
#[derive(Drop)]
pub struct Transition {
    pub from: usize,
    pub to: usize,
    pub low: usize,
    pub high: usize,
}
