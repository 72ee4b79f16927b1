// Each figure of a plan: its weights, the search over them, and the walk that shows it; before that an open transition by which it is ENDLESS.
#![tactic(auto)]

ghost use Rattle.std.specs.Prelude.{true, ◌≡◌, ◌≤◌, length};
ghost use Rattle.costs.specs.Arrays.{no_weight, no_close};
ghost use Rattle.costs.specs.Scaled.{divided};
ghost use Rattle.graph.specs.Class.{figure_of};
ghost use Rattle.graph.specs.Which.{is_least};
ghost use Rattle.plan.specs.View.{view};
ghost use Rattle.reach.specs.Explored.{Reached};
ghost use Rattle.rules.specs.Limits.{within};
ghost use Rattle.rules.specs.Quotations.{meant, says_asked, Stated};
ghost use Rattle.search.specs.Weights.{weights_of};
ghost use Rattle.figures.specs.Figures.{arrays_of, OutOf, Weighs, NoneOpen};

use graph::{Asked, Which};
use plan::Plan;
use reach::Searched;
use rules::{Figure, Quote};
use search::chain::Chain;

// A figure with its number divided by the scale: what a search over scaled weights found.
fn divide(figure: Figure) -> Figure
    ensures { meant result ≡ divided (meant figure) }
{
    match figure {
        Figure::Number(x) => Figure::Number(x / costs::SCALE),
        other => other,
    }
}

// Which of the four figures is asked for.
fn figure_of(asked: Asked) -> Which
    ensures { result ≡ figure_of asked }
{
    match asked {
        Asked::One(which) => which,
        Asked::LeastCountFor(_) => Which::LeastCount,
        Asked::GreatestCountFor(_) => Which::GreatestCount,
    }
}

// Fills the weights and the closes of what is asked for.
fn weigh(asked: Asked, p: &Plan, weight: &mut [u32; 2048], close: &mut [u32; 512])
    requires limits { within (view p.now) ≡ true }
    requires weight_value { (weight.old ≡ no_weight) × (close.old ≡ no_close) }
    ensures { Weighs asked p.now (weights_of weight.new close.new) }
{
    let n = p.states;
    let m = p.transitions;
    match figure_of(asked) {
        Which::LeastDelay => costs::fill_lows(&p.low, m, costs::SCALE, 1, weight),
        Which::GreatestDelay => costs::fill_highs(&p.high, m, weight),
        Which::LeastCount => {
            costs::fill_closes(asked, &p.marks, &p.teams, n, costs::SCALE, close);
            costs::fill_leaving(close, &p.from, m, 1, weight)
        }
        Which::GreatestCount => {
            costs::fill_closes(asked, &p.marks, &p.teams, n, 1, close);
            costs::fill_leaving(close, &p.from, m, 0, weight)
        }
    }
}

// Whether it is a least figure.
fn is_least(which: Which) -> bool
    ensures { result ≡ is_least which }
{
    matches!(which, Which::LeastDelay | Which::LeastCount)
}

// What is asked for of a plan, by a search over weights, where no open transition decides it.
fn search(asked: Asked, p: &Plan, out: &Chain, reached: &Searched, walk: &mut [u16]) -> Quote
    requires limits { (within (view p.now) ≡ true) × (p.now.states ≤ length walk.old) }
    requires chains { OutOf p.now out.now × Reached (arrays_of p.now) reached.now.table reached.now.found }
    requires none_open { NoneOpen asked (view p.now) }
    ensures { Stated (says_asked asked (view p.now)) result walk.old walk.new }
{
    let n = p.states;
    let m = p.transitions;
    let mut weight = [0u32; 2048];
    let mut close = [0u32; 512];
    weigh(asked, p, &mut weight, &mut close);
    if is_least(figure_of(asked)) {
        let found = least_search::least(
            n, m, &p.marks, &p.from, &p.to, out, reached, &weight, close, walk,
        );
        return Quote {
            figure: divide(found.figure),
            ..found
        };
    }
    greatest_search::greatest(
        n, &p.marks, &p.from, &p.to, out, reached, &weight, close, walk,
    )
}

// What is asked for of a plan, from what the starts reach, with the walk that shows it.
pub fn figure(asked: Asked, p: &Plan, out: &Chain, reached: &Searched, walk: &mut [u16]) -> Quote
    requires limits { (within (view p.now) ≡ true) × (p.now.states ≤ length walk.old) }
    requires chains { OutOf p.now out.now × Reached (arrays_of p.now) reached.now.table reached.now.found }
    ensures { Stated (says_asked asked (view p.now)) result walk.old walk.new }
{
    let found = open_search::find(figure_of(asked), reached, p.transitions, &p.from, &p.high);
    match found {
        Some(open) => open_search::show(open, &p.from, reached, walk),
        None => search(asked, p, out, reached, walk),
    }
}
