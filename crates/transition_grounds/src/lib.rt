// The grounds on which a transition is refused, in the calls that are given transitions.
#![tactic(auto)]

ghost use Rattle.std.specs.Prelude.{◌&&◌, ◌≡◌, leb};
ghost use Rattle.rules.specs.Image.{transition_rows};
ghost use Rattle.rules.specs.Refusal.{said};
ghost use Rattle.rules.specs.Table.{first};
ghost use Rattle.arrays.specs.Tables.{transition};

use rules::Refusal;

// Whether a low and a high duration are within the limits.
fn durations_ok(low: usize, high: usize) -> bool
    ensures { result ≡ (leb low high && leb high 2047) }
{
    (low <= high) & (high <= 2047)
}

// The grounds of a transition of a plan with n states, in their order: for every call that is given transitions.
pub fn checked(n: usize, from: usize, to: usize, low: usize, high: usize) -> Result<(), Refusal>
    ensures { said result ≡ first (transition_rows n (transition from to low high)) }
{
    let durations = durations_ok(low, high);
    if n <= from {
        return Err(Refusal::FromState); // 16
    }
    if n <= to {
        return Err(Refusal::ToState); // 17
    }
    if !durations {
        return Err(Refusal::Duration); // 8
    }
    Ok(())
}
