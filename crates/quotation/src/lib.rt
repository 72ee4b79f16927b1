// The quotations of a plan, one by one and all four at once, and the record of its figures. Each call takes the plan by value, refuses bad input by its row of
// the table, and writes the walk that it shows, or the record, to the front of a lent slice.
#![tactic(auto)]

ghost use Rattle.std.specs.Prelude.{List, ◌≡◌, ℕ, ◌<◌, length};
ghost use Rattle.graph.specs.declared.Asked.TheVariants.{One, LeastCountFor, GreatestCountFor};
ghost use Rattle.graph.specs.declared.Which.TheVariants.{LeastDelay, GreatestDelay, LeastCount, GreatestCount};
ghost use Rattle.plan.specs.Promise.{Held};
ghost use Rattle.plan.specs.View.{view};
ghost use Rattle.rules.specs.Quotations.{record_octets, record_rule, quote_rule, Quotes, QuotesAll, Write};
ghost use Rattle.rules.specs.Refusal.{said};
ghost use Rattle.taken.specs.Taken.{QuotesImage};

use graph::{Asked, Which};
use plan::{Edited, Plan};
use rules::{FourQuotes, HeldQuotations, Quote, Refusal};

// Whether a quotation is refused that was lent so many places: the plan's limits, the team that it names, then the places.
fn ask(asked: Asked, p: Plan, places: usize) -> Result<(), Refusal>
    ensures { (lent : List ℕ) → length lent ≡ places → said result ≡ quote_rule asked (view p) lent }
{
    let limited = plan::within(p);
    let n = p.states;
    quotation_grounds::ask(asked, limited, n, places)
}

// A quotation of what is asked for, with the walk that shows it.
pub fn quote(asked: Asked, p: Plan, walk: &mut [u16]) -> Result<Quote, Refusal>
    ensures { Quotes asked (view p) walk.old walk.new result }
{
    ask(asked, p, walk.len())?;
    Ok(shown::show(asked, p, walk))
}

// The least delay, with a route that attains it.
pub fn least_delay(plan: Plan, walk: &mut [u16]) -> Result<Quote, Refusal>
    ensures { Quotes (One LeastDelay) (view plan) walk.old walk.new result }
{
    quote(Asked::One(Which::LeastDelay), plan, walk)
}

// The greatest delay, with the walk that shows it.
pub fn greatest_delay(plan: Plan, walk: &mut [u16]) -> Result<Quote, Refusal>
    ensures { Quotes (One GreatestDelay) (view plan) walk.old walk.new result }
{
    quote(Asked::One(Which::GreatestDelay), plan, walk)
}

// The least count, with a route that attains it.
pub fn least_count(plan: Plan, walk: &mut [u16]) -> Result<Quote, Refusal>
    ensures { Quotes (One LeastCount) (view plan) walk.old walk.new result }
{
    quote(Asked::One(Which::LeastCount), plan, walk)
}

// The greatest count, with the walk that shows it.
pub fn greatest_count(plan: Plan, walk: &mut [u16]) -> Result<Quote, Refusal>
    ensures { Quotes (One GreatestCount) (view plan) walk.old walk.new result }
{
    quote(Asked::One(Which::GreatestCount), plan, walk)
}

// The least count for the class of a team, with a route that attains it.
pub fn least_count_for(team: usize, plan: Plan, walk: &mut [u16]) -> Result<Quote, Refusal>
    ensures { Quotes (LeastCountFor team) (view plan) walk.old walk.new result }
{
    quote(Asked::LeastCountFor(team), plan, walk)
}

// The greatest count for the class of a team, with the walk that shows it.
pub fn greatest_count_for(team: usize, plan: Plan, walk: &mut [u16]) -> Result<Quote, Refusal>
    ensures { Quotes (GreatestCountFor team) (view plan) walk.old walk.new result }
{
    quote(Asked::GreatestCountFor(team), plan, walk)
}

// All four figures, with the walks that show them, one after another in four parts of 512 places.
pub fn all(p: Plan, walks: &mut [u16]) -> Result<FourQuotes, Refusal>
    ensures { QuotesAll (view p) walks.old walks.new result }
{
    let limited = plan::within(p);
    quotation_grounds::ask_all(limited, walks.len())?;
    Ok(shown::show_all(&p, walks))
}

// The plan that an image holds, in a frame of its own: what it fills is not on the stack while the figures are searched for.
#[inline(never)]
fn plan_held(octets: &[u8]) -> Edited
    ensures { Held octets.now result }
{
    plan::held(octets)
}

// All four figures of the plan that an image holds, with their walks, as `all` has them, and the bits that were taken of it. The plan that was read is within the
// limits, so it is not looked at again.
pub fn held(octets: &[u8], walks: &mut [u16]) -> HeldQuotations
    ensures { QuotesImage octets.now walks.old walks.new result }
{
    let edited = plan_held(octets);
    let read = edited.answer;
    let taken = edited.taken;
    if let Err(r) = read {
        return HeldQuotations {
            quotations: Err(r),
            taken,
        };
    }
    if walks.len() < 2048 {
        return HeldQuotations {
            quotations: Err(Refusal::BufferLength),
            taken,
        };
    }
    let quotes = shown::show_all(&edited.plan, walks);
    HeldQuotations {
        quotations: Ok(quotes),
        taken,
    }
}

// Puts the record of the four figures, 11 octets, at the front of the buffer.
pub fn record(p: Plan, buffer: &mut [u8]) -> Result<usize, Refusal>
    ensures { Write (record_octets (view p)) (record_rule (view p) buffer.old) buffer.old buffer.new result }
{
    if !plan::within(p) {
        return Err(Refusal::PlanLimits);
    }
    if buffer.len() < 11 {
        return Err(Refusal::BufferLength);
    }
    let mut walks = [0u16; 2048];
    let quotes = shown::show_all(&p, &mut walks);
    record_fields::put_record(buffer, quotes);
    Ok(11)
}
