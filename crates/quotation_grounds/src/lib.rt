// The grounds on which a quotation is refused, apart from the plan value: the plan's limits, the team that it names, then the lent places.
#![tactic(auto)]

ghost use Rattle.std.specs.Prelude.{[], ◌∷◌, ◌++◌, ◌≡◌, ltb};
ghost use Rattle.graph.specs.Class.{name_ok};
ghost use Rattle.rules.specs.declared.Refusal.TheVariants.{BufferLength};
ghost use Rattle.rules.specs.Quotations.{name_rows};
ghost use Rattle.rules.specs.Refusal.{said};
ghost use Rattle.rules.specs.Rules.{limits_row};
ghost use Rattle.rules.specs.Table.{first};

use graph::Asked;
use rules::Refusal;

// Whether the team that is named, if one is, is a team.
fn name_ok(asked: Asked) -> bool
    ensures { result ≡ name_ok asked }
{
    match asked {
        Asked::One(_) => true,
        Asked::LeastCountFor(team) => team <= 31,
        Asked::GreatestCountFor(team) => team <= 31,
    }
}

// The grounds of a quotation that needs so many places, and was lent so many.
pub fn ask(asked: Asked, limited: bool, needed: usize, places: usize) -> Result<(), Refusal>
    ensures { said result ≡ first (limits_row limited ∷ (name_rows asked ++ ((BufferLength, ltb places needed) ∷ []))) }
{
    let named = name_ok(asked);
    if !limited {
        return Err(Refusal::PlanLimits); // 0
    }
    if !named {
        return Err(Refusal::TeamNumber); // 18
    }
    if places < needed {
        return Err(Refusal::BufferLength); // 11
    }
    Ok(())
}

// The grounds of a quotation of all four figures: four parts of 512 places.
pub fn ask_all(limited: bool, places: usize) -> Result<(), Refusal>
    ensures { said result ≡ first (limits_row limited ∷ (BufferLength, ltb places 2048) ∷ []) }
{
    if !limited {
        return Err(Refusal::PlanLimits);
    }
    if places < 2048 {
        return Err(Refusal::BufferLength);
    }
    Ok(())
}
