// The limits of a plan's states and transitions, over the arrays that hold them.
#![tactic(auto)]

ghost use Rattle.std.specs.Prelude.{◌≡◌, ◌≤◌, ◌<◌};
ghost use Rattle.graph.specs.Graph.{state_with};
ghost use Rattle.rules.specs.Limits.{all, state_ok, transition_ok};
ghost use Rattle.arrays.specs.Tables.{states_of, transition_of, transitions_of};

use arrays::Plan;

// Whether a marks value and a team are within the limits of a state.
fn state_within(marks: u8, team: u8) -> bool
    ensures { result ≡ state_ok (state_with marks team) }
{
    (marks <= 7) & (team <= 31)
}

// Whether the marks values of a plan's states are at most 7, and their teams at most 31.
pub fn states_within(p: &Plan) -> bool
    requires { p.now.states ≤ 512 }
    ensures { result ≡ all state_ok (states_of p.now.states p.now.marks p.now.teams) }
{
    for i in 0..p.states {
        if !state_within(p.marks[i], p.teams[i]) {
            return false;
        }
    }
    true
}

// Whether the transition at place i joins states of a plan with n of them, and has durations within the limits. No test waits for another, and no
// branch is taken, so that a compiler can look at several places at once.
fn transition_within(p: &Plan, n: u16, i: usize) -> bool
    requires { i < 2048 }
    ensures { result ≡ transition_ok n (transition_of p.now.from p.now.to p.now.low p.now.high i) }
{
    let ends = (p.from[i] < n) & (p.to[i] < n);
    let durations = (p.low[i] <= p.high[i]) & (p.high[i] <= 2047);
    ends & durations
}

// Whether a plan's transitions are within the limits of its number of states.
pub fn transitions_within(p: &Plan) -> bool
    requires { (p.now.states ≤ 512) × (p.now.transitions ≤ 2048) }
    ensures { result ≡ all (transition_ok p.now.states)
        (transitions_of p.now.transitions p.now.from p.now.to p.now.low p.now.high) }
{
    let n = p.states as u16;
    let mut sound = true;
    for i in 0..p.transitions {
        sound &= transition_within(p, n, i);
    }
    sound
}
