// The figures of a plan within the limits, with the walks that show them: what is asked for, or all four, by one search for what the starts reach.
#![tactic(auto)]

ghost use Rattle.std.specs.Prelude.{true, ◌≡◌, ◌≤◌, ◌<◌, ℕ, length};
ghost use Rattle.plan.specs.View.{view};
ghost use Rattle.rules.specs.Limits.{within};
ghost use Rattle.rules.specs.Quotations.{says_asked, Stated, AllStated};
ghost use Rattle.search.specs.Arrays.{at};
ghost use Rattle.search.specs.Chain.{Chains};

use graph::{Asked, Which};
use plan::Plan;
use reach::explore;
use rules::{Figure, FourQuotes, Quote};
use search::chain;
use search::chain::Chain;

// What is asked for of a plan, with the walk that shows it.
pub fn show(asked: Asked, p: Plan, walk: &mut [u16]) -> Quote
    requires { (within (view p) ≡ true) × (p.states ≤ length walk.old) }
    ensures { Stated (says_asked asked (view p)) result walk.old walk.new }
{
    let out = chain::chains(&p.from, p.transitions);
    let reached = explore::reach(p.states, &p.marks, &p.to, &out);
    figures::figure(asked, &p, &out, &reached, walk)
}

// The transitions by the state that they leave, in a frame of its own: what it fills is not on the stack while the figures are searched for.
#[inline(never)]
fn chains(from: &[u16; 2048], m: usize) -> Chain
    requires { (m ≤ 2048) × ((t : ℕ) → t < m → at from.now t < 512) }
    ensures { Chains from.now m result.head result.link }
{
    chain::chains(from, m)
}

// The four figures of a plan, by one search for what the starts reach; the walks stand in four parts of 512 places.
pub fn show_all(p: &Plan, walks: &mut [u16]) -> FourQuotes
    requires { (within (view p.now) ≡ true) × (2048 ≤ length walks.old) }
    ensures { AllStated (view p.now) result walks.old walks.new }
{
    let out = chains(&p.from, p.transitions);
    let reached = explore::reach(p.states, &p.marks, &p.to, &out);
    // in the order of the record
    let order = [
        Which::LeastDelay,
        Which::GreatestDelay,
        Which::LeastCount,
        Which::GreatestCount,
    ];
    let mut quotes = [Quote {
        figure: Figure::None,
        k: 0,
        j: 0,
    }; 4];
    for i in 0..4 {
        let at = 512 * i;
        let asked = Asked::One(order[i]);
        quotes[i] = figures::figure(asked, p, &out, &reached, &mut walks[at..at + 512]);
    }
    let [least_delay, greatest_delay, least_count, greatest_count] = quotes;
    FourQuotes {
        least_delay,
        greatest_delay,
        least_count,
        greatest_count,
    }
}
