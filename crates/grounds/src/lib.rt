// The grounds on which edits of a plan are refused, apart from the plan value: the rows of mark, team, join and unjoin in their order.
#![tactic(auto)]

ghost use Rattle.std.specs.Prelude.{◌∷◌, ◌≡◌};
ghost use Rattle.rules.specs.Refusal.{said};
ghost use Rattle.rules.specs.Rules.{limits_row, mark_grounds, team_grounds, join_grounds, unjoin_grounds};
ghost use Rattle.rules.specs.Table.{first};
ghost use Rattle.arrays.specs.Tables.{transition};

use rules::Refusal;

// The grounds of a mark, in their order.
pub fn mark_grounds(limited: bool, n: usize, state: usize, value: usize) -> Result<(), Refusal>
    ensures { said result ≡ first (limits_row limited ∷ mark_grounds n state value) }
{
    if !limited { // 0: the plan
        return Err(Refusal::PlanLimits);
    }
    if n <= state { // 7: the state
        return Err(Refusal::StateNumber); // of mark
    }
    if 7 < value { // 12: the value
        return Err(Refusal::MarksValue);
    }
    Ok(())
}

// The grounds of a team, in their order.
pub fn team_grounds(limited: bool, n: usize, state: usize, team: usize) -> Result<(), Refusal>
    ensures { said result ≡ first (limits_row limited ∷ team_grounds n state team) }
{
    if !limited {
        return Err(Refusal::PlanLimits);
    }
    if n <= state {
        return Err(Refusal::StateNumber);
    }
    if 31 < team { // 18: the team
        return Err(Refusal::TeamNumber);
    }
    Ok(())
}

// The grounds of a join, in their order.
pub fn join_grounds(
    limited: bool,
    n: usize,
    m: usize,
    from: usize,
    to: usize,
    low: usize,
    high: usize,
) -> Result<(), Refusal>
    ensures { said result ≡ first (limits_row limited ∷ join_grounds n m (transition from to low high)) }
{
    if !limited {
        return Err(Refusal::PlanLimits);
    }
    transition_grounds::checked(n, from, to, low, high)?;
    if 2048 <= m {
        return Err(Refusal::ListFull);
    }
    Ok(())
}

// The grounds of an unjoin, in their order.
pub fn unjoin_grounds(limited: bool, m: usize, number: usize) -> Result<(), Refusal>
    ensures { said result ≡ first (limits_row limited ∷ unjoin_grounds m number) }
{
    if !limited {
        return Err(Refusal::PlanLimits);
    }
    if m <= number {
        return Err(Refusal::TransitionNumber);
    }
    Ok(())
}
