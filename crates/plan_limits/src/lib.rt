// The limits of a plan, over its counts and the arrays that hold its states and transitions.
#![tactic(auto)]

ghost use Rattle.std.specs.Prelude.{◌≡◌};
ghost use Rattle.rules.specs.Limits.{within};
ghost use Rattle.arrays.specs.Tables.{graph_in_arrays};

use arrays::{Plan, limits};

// Whether a plan value is within the limits of a plan.
pub fn in_limits(p: &Plan) -> bool
    ensures { result ≡ within (graph_in_arrays p.now) }
{
    if !limits::state_count_ok(p.states) {
        return false;
    }
    if 2048 < p.transitions {
        return false;
    }
    if !array_limits::states_within(p) {
        return false;
    }
    array_limits::transitions_within(p)
}
