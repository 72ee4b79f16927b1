// A plan's image, of version 2, written from the arrays that hold its marks, teams and transitions: its header, states and transitions as packed fields.
#![tactic(auto)]

ghost use Rattle.std.specs.Prelude.{◌≡◌, ◌+◌, ◌*◌, ◌%◌, ◌≤◌, ◌<◌, length, true};
ghost use Rattle.field.specs.Field.{Spans, AllFit, put_all};
ghost use Rattle.graph.specs.Graph.{state_with};
ghost use Rattle.rules.specs.Image.{header_fields, state_fields, transition_fields, fields_of_each};
ghost use Rattle.rules.specs.Limits.{all, state_ok, transition_ok};
ghost use Rattle.arrays.specs.Tables.{states_of, transition_of, transitions_of};

use arrays::{FINAL, Plan, START};
use field::Four;

// Puts the fields of the header at the front.
pub fn header(buffer: &mut [u8], n: usize, m: usize)
    requires { (n ≤ 512) × (m ≤ 2048) × (4 ≤ length buffer.old) }
    ensures { buffer.new ≡ put_all buffer.old 0 (header_fields 2 n m) }
{
    let fields = Four {
        first: 2,
        second: n,
        third: m,
        fourth: 0,
    };
    store::put_four(buffer, 0, 4, 10, 12, 6, fields);
}

// Puts the fields of a state at a bit position.
fn state(buffer: &mut [u8], at: usize, value: u8, team: u8)
    requires { Spans buffer.old at 8 × (at % 8 ≡ 0) × (team ≤ 31) }
    ensures { buffer.new ≡ put_all buffer.old at (state_fields (state_with value team)) }
{
    let fields = Four {
        first: usize::from(value / START % 2),
        second: usize::from(value / FINAL % 2),
        third: usize::from(value % 2),
        fourth: usize::from(team),
    };
    store::put_four(buffer, at, 1, 1, 1, 5, fields);
}

// Puts the fields of a plan's transition at place i at a bit position.
fn transition(buffer: &mut [u8], at: usize, p: &Plan, i: usize)
    requires spans { Spans buffer.old at 40 × (at % 8 ≡ 0) × (i < 2048) }
    requires all_fit { AllFit (transition_fields (transition_of p.now.from p.now.to p.now.low p.now.high i)) }
    ensures { buffer.new ≡ put_all buffer.old at
        (transition_fields (transition_of p.now.from p.now.to p.now.low p.now.high i)) }
{
    let fields = Four {
        first: usize::from(p.from[i]),
        second: usize::from(p.to[i]),
        third: usize::from(p.low[i]),
        fourth: usize::from(p.high[i]),
    };
    store::put_four(buffer, at, 9, 9, 11, 11, fields);
}

// Puts the fields of a plan's states, by number.
pub fn states(buffer: &mut [u8], p: &Plan)
    requires room { (p.now.states ≤ 512) × (4 + p.now.states ≤ length buffer.old) }
    requires each_state { all state_ok (states_of p.now.states p.now.marks p.now.teams) ≡ true }
    ensures { buffer.new ≡ put_all buffer.old 32
        (fields_of_each state_fields (states_of p.now.states p.now.marks p.now.teams)) }
{
    for i in 0..p.states {
        state(buffer, 32 + 8 * i, p.marks[i], p.teams[i]);
    }
}

// Puts the fields of a plan's transitions, by number.
pub fn transitions(buffer: &mut [u8], p: &Plan)
    requires room { (p.now.states ≤ 512) × (p.now.transitions ≤ 2048)
        × (4 + p.now.states + 5 * p.now.transitions ≤ length buffer.old) }
    requires each_transition { all (transition_ok p.now.states)
        (transitions_of p.now.transitions p.now.from p.now.to p.now.low p.now.high) ≡ true }
    ensures { buffer.new ≡ put_all buffer.old (32 + 8 * p.now.states)
        (fields_of_each transition_fields
        (transitions_of p.now.transitions p.now.from p.now.to p.now.low p.now.high)) }
{
    for i in 0..p.transitions {
        transition(buffer, 32 + 8 * p.states + 40 * i, p, i);
    }
}
