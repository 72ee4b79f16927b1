// A plan made of a text and nothing else: the text is imported over a fresh plan.
#![tactic(auto)]

ghost use Rattle.rules.specs.declared.Format.TheVariants.{Text};
ghost use Rattle.plan.specs.Promise.{HeldIn};

use plan::Edited;
use rules::Format;

// The plan that a text holds, or the refusal of it. A refusal makes none: the plan value beside it has 0 states, all else zero.
pub fn held(text: &[u8]) -> Edited
    ensures { HeldIn Text text.now result }
{
    let fresh = plan::fresh(1);
    let imported = plan::replace(fresh.plan, Format::Text, text);
    let answer = imported.answer;
    if let Err(_) = answer {
        let none = plan::fresh(0); // refused, with no plan beside it
        let plan = none.plan;
        return Edited {
            plan,
            answer,
            taken: 0,
        };
    }
    imported
}
