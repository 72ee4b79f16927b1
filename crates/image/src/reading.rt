// A plan read from the octets of an image in one pass: every field is taken once, in order, by the reader, which moves a bit position and counts the bits that it takes.
ghost use Rattle.std.specs.Prelude.{not, ◌≡◌, ◌+◌, ◌*◌, ◌≤◌, ◌<◌, ◌^◌, eqb, length};
ghost use Rattle.field.specs.Field.{Spans};
ghost use Rattle.rules.specs.Image.{spare_in, version_of, transition_at};
ghost use Rattle.rules.specs.Table.{first};
ghost use Rattle.arrays.specs.Tables.{fields};
ghost use Rattle.image.specs.Read.{StatesRead, TransitionsRead, Fills};
ghost use Rattle.image.specs.Values.{meant};

use crate::Transition;
use arrays::{Counts, FINAL, START};
use field::Four;
use rules::Refusal;

// The marks value of three fields of one bit.
fn marks_of(fields: Four) -> u8
    requires { (fields.first < 2) × (fields.second < 2) × (fields.third < 2) }
    ensures { result ≡ 4 * fields.first + 2 * fields.second + fields.third }
{
    let start = fields.first as u8;
    let last = fields.second as u8;
    let counted = fields.third as u8;
    START * start + FINAL * last + counted
}

// Whether the last field of a state has a spare bit set: five bits of version 1 are spare.
fn is_spare(version: usize, five: usize) -> bool
    ensures { result ≡ not (eqb (spare_in version five) 0) }
{
    if version == 1 { five != 0 } else { false }
}

// Reads the marks values and teams of n states, by number, 8 bits each; later places stay. Where no spare bit is set, version 1 has zero for every team.
fn states(
    octets: &[u8],
    at: &mut usize,
    taken: &mut usize,
    version: usize,
    n: usize,
    marks: &mut [u8; 512],
    teams: &mut [u8; 512],
) -> Result<(), Refusal>
    requires { (n ≤ 512) × (n ≤ length marks.old) × (n ≤ length teams.old) × (4 + n ≤ length octets.now) × (at.old ≡ 32) × (taken.old < 2 ^ 31)
        × (version ≡ version_of octets.now) }
    ensures { StatesRead octets.now n marks.old marks.new teams.old teams.new at.new
        taken.old taken.new result }
{
    for i in 0..n {
        let fields = image_fields::state(octets, at, taken);
        let five = fields.fourth;
        if is_spare(version, five) {
            return Err(Refusal::SpareBits); // 6: a state
        }
        marks[i] = marks_of(fields);
        teams[i] = five as u8;
    }
    Ok(())
}

// Takes the fields of a transition, 40 bits.
fn transition(octets: &[u8], at: &mut usize, taken: &mut usize) -> Transition
    requires { Spans octets.now at.old 40 × (taken.old + 40 < 2 ^ 32) }
    ensures { (meant result ≡ transition_at octets.now at.old) × (at.new ≡ at.old + 40)
        × (taken.new ≡ taken.old + 40) }
{
    let fields = image_fields::transition(octets, at, taken);
    Transition {
        from: fields.first,
        to: fields.second,
        low: fields.third,
        high: fields.fourth,
    }
}

// Reads m transitions of a plan with n states, by number, 40 bits each; later places stay.
fn transitions(
    octets: &[u8],
    at: &mut usize,
    taken: &mut usize,
    n: usize,
    m: usize,
    from: &mut [u16; 2048],
    to: &mut [u16; 2048],
    low: &mut [u16; 2048],
    high: &mut [u16; 2048],
) -> Result<(), Refusal>
    requires n_bound { (n ≤ 512) × (m ≤ 2048) × (4 + n + 5 * m ≤ length octets.now) × (at.old ≡ 32 + 8 * n) × (taken.old < 2 ^ 31) }
    requires m_in_bounds { (m ≤ length from.old) × (m ≤ length to.old) × (m ≤ length low.old) × (m ≤ length high.old) }
    ensures { TransitionsRead octets.now n m
        (fields from.old to.old low.old high.old)
        (fields from.new to.new low.new high.new)
        taken.old taken.new result }
{
    for i in 0..m {
        let t = transition(octets, at, taken);
        transition_grounds::checked(n, t.from, t.to, t.low, t.high)?;
        from[i] = t.from as u16;
        to[i] = t.to as u16;
        low[i] = t.low as u16;
        high[i] = t.high as u16;
    }
    Ok(())
}

// Reads an image into arrays, adds the bits that it takes to the count, and returns the counts of the states and transitions; places past the counts stay.
pub fn fill(
    octets: &[u8],
    taken: &mut usize,
    marks: &mut [u8; 512],
    teams: &mut [u8; 512],
    from: &mut [u16; 2048],
    to: &mut [u16; 2048],
    low: &mut [u16; 2048],
    high: &mut [u16; 2048],
) -> Result<Counts, Refusal>
    requires { (taken.old < 2 ^ 30) × (512 ≤ length marks.old) × (512 ≤ length teams.old) × (2048 ≤ length from.old) × (2048 ≤ length to.old)
        × (2048 ≤ length low.old) × (2048 ≤ length high.old) }
    ensures { Fills octets.now taken.old taken.new marks.old marks.new teams.old teams.new
        (fields from.old to.old low.old high.old)
        (fields from.new to.new low.new high.new) result }
{
    let mut position = 0;
    let at = &mut position;
    let heading = header::header(octets, at, taken)?;
    let n = heading.states;
    let m = heading.transitions;
    states(octets, at, taken, heading.version, n, marks, teams)?;
    transitions(octets, at, taken, n, m, from, to, low, high)?;
    Ok(Counts {
        states: n,
        transitions: m,
    })
}
