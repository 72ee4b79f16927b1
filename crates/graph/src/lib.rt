// State graphs, walks, routes and figures. This crate has no code but a name for each figure, class of teams and thing that is quoted, and the two cases of a duration: all
// else is definitions, in specs/, and theorems, in proofs/.
#![tactic(auto)]

// The four figures, in the record's order.
#[derive(Clone, Copy)]
pub enum Which {
    LeastDelay,
    GreatestDelay,
    LeastCount,
    GreatestCount,
}

// "a duration taken from a plan is either a number or open" (document 02, E2)
#[derive(Clone, Copy)]
pub enum Duration {
    Seconds(u16),
    Open,
}

// "Team 0 is none, 1 to 9 wards, 10 to 19 clinics, 20 to 29 switchboards, 30 and 31 outside lines." (document 02, E4)
#[derive(Clone, Copy, PartialEq, Eq)]
pub enum Class {
    None,
    Wards,
    Clinics,
    Switchboards,
    OutsideLines,
}

// What is quoted: one of the four figures, or a count for the class of the team with that number.
#[derive(Clone, Copy)]
pub enum Asked {
    One(Which),
    LeastCountFor(usize),
    GreatestCountFor(usize),
}
