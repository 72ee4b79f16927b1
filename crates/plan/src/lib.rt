// The call plan: its edits, its image and its text. Every call takes the plan, p as in the definitions, by value, refuses bad input by its row of the table, and
// returns a plan.
#![tactic(auto)]

ghost use Rattle.std.specs.Prelude.{◌≡◌};
ghost use Rattle.rules.specs.Limits.{within as withinLimits};
ghost use Rattle.rules.specs.Aldebaran.{export_text, export_rule};
ghost use Rattle.rules.specs.Image.{image};
ghost use Rattle.rules.specs.Calls.{mark, team, join, unjoin, replacing};
ghost use Rattle.rules.specs.Quotations.{Write};
ghost use Rattle.rules.specs.Rules.{fresh_rule, write_rule};
ghost use Rattle.arrays.specs.Tables.{transition};
ghost use Rattle.plan.specs.View.{view, blank_plan, no_plan};
ghost use Rattle.plan.specs.Promise.{Edit, Turn, Held, refusing, accepting, answered};

pub use arrays::Plan;
use arrays::{Counts, limits};
use image::reading;
use rules::{Format, Refusal};

// The answer of a call that makes or changes a plan, the plan afterwards, and the bits of an image that the call took. The plan comes first: it then lies there as it
// lies by itself, and one copy is enough to hand it on.
#[derive(Drop)]
pub struct Edited {
    pub plan: Plan,
    pub answer: Result<(), Refusal>,
    pub taken: usize,
}

// Whether a plan value is within the limits of a plan.
pub fn within(p: Plan) -> bool
    ensures { result ≡ withinLimits (view p) }
{
    plan_limits::in_limits(&p)
}

// A refusal, with the plan as it was.
fn refuse(plan: Plan, refusal: Refusal) -> Edited
    ensures { result ≡ refusing plan refusal }
{
    Edited {
        plan,
        answer: Err(refusal),
        taken: 0,
    }
}

// An accepted call, with the plan that it made.
fn accept(plan: Plan) -> Edited
    ensures { result ≡ accepting plan }
{
    Edited {
        plan,
        answer: Ok(()),
        taken: 0,
    }
}

// The plan with n states, all marks and teams 0 and no transitions.
fn blank(n: usize) -> Plan
    ensures { result ≡ blank_plan n }
{
    Plan {
        states: n,
        transitions: 0,
        marks: [0u8; 512],
        teams: [0u8; 512],
        from: [0u16; 2048],
        to: [0u16; 2048],
        low: [0u16; 2048],
        high: [0u16; 2048],
    }
}

// A fresh plan with n states. A refusal makes none: the plan value beside it has 0 states, all else zero.
pub fn fresh(n: usize) -> Edited
    ensures { Edit no_plan (fresh_rule n) 0 result }
{
    if !limits::state_count_ok(n) {
        return refuse(blank(0), Refusal::StateCount);
    }
    accept(blank(n))
}

// Makes a state's marks value the value given.
pub fn mark(mut p: Plan, state: usize, value: usize) -> Edited
    ensures { Turn p (mark state value) result }
{
    let n = p.states;
    let limited = plan_limits::in_limits(&p);
    let answer = grounds::mark_grounds(limited, n, state, value);
    match answer {
        Ok(()) => {
            p.marks[state] = value as u8;
        }
        Err(_) => {}
    }
    Edited {
        plan: p,
        answer,
        taken: 0,
    }
}

// Makes a state's team the team given.
pub fn team(mut p: Plan, state: usize, number: usize) -> Edited
    ensures { Turn p (team state number) result }
{
    let n = p.states;
    let limited = plan_limits::in_limits(&p);
    let answer = grounds::team_grounds(limited, n, state, number);
    match answer {
        Ok(()) => {
            p.teams[state] = number as u8;
        }
        Err(_) => {}
    }
    Edited {
        plan: p,
        answer,
        taken: 0,
    }
}

// Puts a transition at the end of the list.
pub fn join(mut p: Plan, from: usize, to: usize, low: usize, high: usize) -> Edited
    ensures { Turn p (join (transition from to low high)) result }
{
    let n = p.states;
    let m = p.transitions;
    let limited = plan_limits::in_limits(&p);
    let answer = grounds::join_grounds(limited, n, m, from, to, low, high);
    match answer {
        Ok(()) => {
            p.from[m] = from as u16;
            p.to[m] = to as u16;
            p.low[m] = low as u16;
            p.high[m] = high as u16;
            p.transitions = m + 1;
        }
        Err(_) => {}
    }
    Edited {
        plan: p,
        answer,
        taken: 0,
    }
}

// Takes a transition out of the list; later ones move down by one.
pub fn unjoin(mut p: Plan, number: usize) -> Edited
    ensures { Turn p (unjoin number) result }
{
    let m = p.transitions;
    let limited = plan_limits::in_limits(&p);
    let answer = grounds::unjoin_grounds(limited, m, number);
    match answer {
        Ok(()) => {
            places::remove(&mut p.from, number, m);
            places::remove(&mut p.to, number, m);
            places::remove(&mut p.low, number, m);
            places::remove(&mut p.high, number, m);
            p.transitions = m - 1;
        }
        Err(_) => {}
    }
    Edited {
        plan: p,
        answer,
        taken: 0,
    }
}

// What a call is answered that takes octets.
fn answered(taken: Result<Counts, Refusal>) -> Result<(), Refusal>
    ensures { result ≡ answered taken }
{
    match taken {
        Ok(_) => Ok(()),
        Err(refusal) => Err(refusal),
    }
}

// Replaces the whole plan by the one that octets hold: reads an image, or imports a text. It is taken into arrays of its own, and laid over the plan's;
// the bits that were taken are counted.
pub fn replace(mut p: Plan, format: Format, octets: &[u8]) -> Edited
    ensures { Turn p (replacing format octets.now) result }
{
    let limited = plan_limits::in_limits(&p);
    let mut marks = [0u8; 512];
    let mut teams = [0u8; 512];
    let mut from = [0u16; 2048];
    let mut to = [0u16; 2048];
    let mut low = [0u16; 2048];
    let mut high = [0u16; 2048];
    let mut bits = 0;
    let taken = replacement::take(
        format, limited, octets, &mut bits, &mut marks, // not the plan's: a refusal leaves those
        &mut teams, &mut from, &mut to, &mut low, &mut high,
    );
    let answer = answered(taken);
    match taken {
        Ok(counts) => {
            let states = counts.states;
            let transitions = counts.transitions;
            places::lay(&mut p.marks, &marks, states);
            places::lay(&mut p.teams, &teams, states);
            places::lay(&mut p.from, &from, transitions);
            places::lay(&mut p.to, &to, transitions);
            places::lay(&mut p.low, &low, transitions);
            places::lay(&mut p.high, &high, transitions);
            p.states = states;
            p.transitions = transitions;
        }
        Err(_) => {} // the old plan
    }
    Edited {
        plan: p,
        answer,
        taken: bits,
    }
}

// The plan that an image holds, or the refusal of it. A refusal makes none: the plan value beside it has 0 states, all else zero.
pub fn held(octets: &[u8]) -> Edited
    ensures { Held octets.now result }
{
    let mut marks = [0u8; 512];
    let mut teams = [0u8; 512];
    let mut from = [0u16; 2048];
    let mut to = [0u16; 2048];
    let mut low = [0u16; 2048];
    let mut high = [0u16; 2048];
    let mut bits = 0;
    let filled = reading::fill(
        octets, &mut bits, &mut marks, &mut teams, &mut from, &mut to, &mut low, &mut high,
    );
    let mut plan = Plan {
        states: 0,
        transitions: 0,
        marks,
        teams,
        from,
        to,
        low,
        high,
    };
    let answer = answered(filled);
    match filled {
        Ok(counts) => {
            plan.states = counts.states;
            plan.transitions = counts.transitions;
        }
        Err(_) => {
            plan = blank(0); // no plan
        }
    }
    Edited {
        plan,
        answer,
        taken: bits,
    }
}

// Puts the image at the front of the buffer, and returns its length.
pub fn write(p: Plan, buffer: &mut [u8]) -> Result<usize, Refusal>
    ensures { Write (image (view p)) (write_rule (view p) buffer.old)
        buffer.old buffer.new result }
{
    written::write(&p, buffer)
}

// Puts the plan's text at the front of the buffer, and returns its length.
pub fn export(p: Plan, buffer: &mut [u8]) -> Result<usize, Refusal>
    ensures { Write (export_text (view p)) (export_rule (view p) buffer.old)
        buffer.old buffer.new result }
{
    exported::export(&p, buffer)
}
