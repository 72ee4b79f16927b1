// A list of calls, lent as slices of numbers: made in turn from a fresh plan on the plan that three more lent slices hold, and the last plan quoted.
#![tactic(auto)]

ghost use Rattle.std.specs.Prelude.{◌≡◌};
ghost use Rattle.plan.specs.declared.Edited.{Edited};
ghost use Rattle.plan.specs.Promise.{Edit};
ghost use Rattle.plan.specs.View.{no_plan, view};
ghost use Rattle.rules.specs.Quotations.{QuotesAll};
ghost use Rattle.rules.specs.Rules.{fresh_rule};
ghost use Rattle.slices.specs.Lent.{Roomy, lent_plan, plan_in, slices, storing};
ghost use Rattle.replay.specs.Replayed.{LentReplay, places};

use rules::{FourQuotes, Refusal};

// Stores a fresh plan of n states, in a frame of its own: it is not on the stack while the calls are made.
#[inline(never)]
fn begin(n: usize, counts: &mut [usize], states: &mut [u8], fields: &mut [u16])
    requires { Roomy counts.old states.old fields.old }
    ensures { (e : Edited) × Edit no_plan (fresh_rule n) 0 e
        × ((slices counts.new states.new fields.new
        ≡ storing e.plan (slices counts.old states.old fields.old))
        × (plan_in (slices counts.new states.new fields.new) ≡ e.plan)) }
{
    let first = plan::fresh(n).plan;
    slices::store(first, counts, states, fields);
}

// The four figures of the plan that lent slices hold, in a frame of its own for the same reason.
#[inline(never)]
fn quoted(
    counts: &[usize],
    states: &[u8],
    fields: &[u16],
    walks: &mut [u16],
) -> Result<FourQuotes, Refusal>
    requires { Roomy counts.now states.now fields.now }
    ensures { QuotesAll (view (lent_plan counts.now states.now fields.now)) walks.old walks.new result }
{
    let plan = slices::load(counts, states, fields);
    quotation::all(plan, walks)
}

// Makes a list of calls in turn from a fresh plan of n states, stores the plan after it, and quotes its four figures. A call is a kind (0 mark, 1 join,
// 2 unjoin, 3 read, 4 import, 5 team) and four arguments; those of a read or an import are the start and the end of its octets. Each call has a place for its
// answer. Ten slices and numbers: the list is three of them, the plan three.
pub fn replay(
    n: usize,
    counts: &mut [usize],
    states: &mut [u8],
    fields: &mut [u16],
    kinds: &[u8],
    arguments: &[usize],
    octets: &[u8],
    answers: &mut [u32],
    walks: &mut [u16],
    out: &mut [u32],
) -> u32
    ensures { LentReplay n kinds.now arguments.now octets.now
        (places answers.old (slices counts.old states.old fields.old) walks.old out.old)
        (places answers.new (slices counts.new states.new fields.new) walks.new out.new)
        result }
{
    let room = slices::has_room(counts.len(), states.len(), fields.len());
    let asked = calls::ask(room, n, kinds, arguments, octets, answers, walks, out);
    if asked < 256 {
        return asked;
    }
    begin(n, counts, states, fields);
    runs::in_turn(kinds, arguments, octets, counts, states, fields, answers);
    let quotations = quoted(counts, states, fields, walks);
    answers::four(quotations, out)
}
