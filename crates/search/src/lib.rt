// What the searches over arrays share: marks, transitions by state, and routes read off values. A graph is lent as its marks values and its
// transitions' ends, a cost as a weight for each transition and a close for each state.
#![tactic(auto)]

pub mod chain;
pub mod route;

ghost use Rattle.std.specs.Prelude.{◌≡◌};
ghost use Rattle.graph.specs.Graph.{start_mark, final_mark, counted_mark};

use arrays::{FINAL, START};

// No transition: the number after the last that a plan may have.
pub const NONE: usize = 2048;

// Above every key and value that is known.
pub const FAR: u32 = 4_000_000_000;

// Whether a marks value has the start mark.
pub fn is_start(mark: u8) -> bool
    ensures { result ≡ start_mark mark }
{
    mark / START % 2 == 1
}

// Whether a marks value has the final mark.
pub fn is_final(mark: u8) -> bool
    ensures { result ≡ final_mark mark }
{
    mark / FINAL % 2 == 1
}

// Whether a marks value has the counted mark.
pub fn is_counted(mark: u8) -> bool
    ensures { result ≡ counted_mark mark }
{
    mark % 2 == 1
}
