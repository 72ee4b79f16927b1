// The states that are marked start, counted over the array that holds a plan's marks.
#![tactic(auto)]

ghost use Rattle.std.specs.Prelude.{◌≤◌};
ghost use Rattle.starts.specs.Found.{starts_in, Found};

use arrays::Plan;
use search::is_start;

// How many states are marked start, and the last of them.
#[derive(Drop)]
pub struct Starts {
    pub count: usize,
    pub last: usize,
}

// Counts a plan's states that are marked start.
pub fn count(p: &Plan) -> Starts
    requires { p.now.states ≤ 512 }
    ensures { Found (starts_in p.now.marks p.now.states) p.now.states result.count result.last }
{
    let mut count = 0;
    let mut last = 0;
    for i in 0..p.states {
        if is_start(p.marks[i]) {
            count += 1;
            last = i;
        }
    }
    Starts { count, last }
}
