// The calls that make or change a plan, on the plan that three lent slices hold: each answers its number, 256 for accepted, and 255 where the slices are too
// short to hold a plan. Each is a function of its own: in one function their plan values would stand on the stack beside each other.
#![tactic(auto)]

ghost use Rattle.arrays.specs.Tables.{transition};
ghost use Rattle.rules.specs.Calls.{mark, team, join, unjoin, replacing};
ghost use Rattle.slices.specs.Lent.{slices};
ghost use Rattle.edits.specs.Lent.{LentFresh, LentGenerate, LentHeld, LentTurn};

use rules::Format;

// A fresh plan with n states.
pub fn fresh(n: usize, counts: &mut [usize], states: &mut [u8], fields: &mut [u16]) -> u32
    ensures { LentFresh n
        (slices counts.old states.old fields.old)
        (slices counts.new states.new fields.new) result }
{
    if !slices::has_room(counts.len(), states.len(), fields.len()) {
        return 255;
    }
    slices::finish(plan::fresh(n), counts, states, fields)
}

// The plan of n states and m transitions that a seed makes.
pub fn generate(
    seed: u32,
    n: usize,
    m: usize,
    counts: &mut [usize],
    states: &mut [u8],
    fields: &mut [u16],
) -> u32
    ensures { LentGenerate seed n m
        (slices counts.old states.old fields.old)
        (slices counts.new states.new fields.new) result }
{
    if !slices::has_room(counts.len(), states.len(), fields.len()) {
        return 255;
    }
    slices::finish(generation::generate(seed, n, m), counts, states, fields)
}

// The plan that an image holds, whatever the slices held before.
pub fn from_image(octets: &[u8], counts: &mut [usize], states: &mut [u8], fields: &mut [u16]) -> u32
    ensures { LentHeld octets.now
        (slices counts.old states.old fields.old)
        (slices counts.new states.new fields.new) result }
{
    if !slices::has_room(counts.len(), states.len(), fields.len()) {
        return 255;
    }
    slices::finish(plan::held(octets), counts, states, fields)
}

// Makes a state's marks value the value given.
pub fn mark(
    counts: &mut [usize],
    states: &mut [u8],
    fields: &mut [u16],
    state: usize,
    value: usize,
) -> u32
    ensures { LentTurn (slices counts.old states.old fields.old)
        (slices counts.new states.new fields.new)
        (mark state value) result }
{
    if !slices::has_room(counts.len(), states.len(), fields.len()) {
        return 255;
    }
    let plan = slices::load(counts, states, fields);
    let edited = plan::mark(plan, state, value);
    slices::update(edited, counts, states, fields)
}

// Makes a state's team the team given.
pub fn team(
    counts: &mut [usize],
    states: &mut [u8],
    fields: &mut [u16],
    state: usize,
    number: usize,
) -> u32
    ensures { LentTurn (slices counts.old states.old fields.old)
        (slices counts.new states.new fields.new)
        (team state number) result }
{
    if !slices::has_room(counts.len(), states.len(), fields.len()) {
        return 255;
    }
    let plan = slices::load(counts, states, fields);
    let edited = plan::team(plan, state, number);
    slices::update(edited, counts, states, fields)
}

// Puts a transition at the end of the list.
pub fn join(
    counts: &mut [usize],
    states: &mut [u8],
    fields: &mut [u16],
    from: usize,
    to: usize,
    low: usize,
    high: usize,
) -> u32
    ensures { LentTurn (slices counts.old states.old fields.old)
        (slices counts.new states.new fields.new)
        (join (transition from to low high)) result }
{
    if !slices::has_room(counts.len(), states.len(), fields.len()) {
        return 255;
    }
    let plan = slices::load(counts, states, fields);
    let edited = plan::join(plan, from, to, low, high);
    slices::update(edited, counts, states, fields)
}

// Takes a transition out of the list.
pub fn unjoin(counts: &mut [usize], states: &mut [u8], fields: &mut [u16], number: usize) -> u32
    ensures { LentTurn (slices counts.old states.old fields.old)
        (slices counts.new states.new fields.new)
        (unjoin number) result }
{
    if !slices::has_room(counts.len(), states.len(), fields.len()) {
        return 255;
    }
    let plan = slices::load(counts, states, fields);
    let edited = plan::unjoin(plan, number);
    slices::update(edited, counts, states, fields)
}

// Reads an image or imports a text, in place of the plan.
pub fn replace(
    format: Format,
    counts: &mut [usize],
    states: &mut [u8],
    fields: &mut [u16],
    octets: &[u8],
) -> u32
    ensures { LentTurn (slices counts.old states.old fields.old)
        (slices counts.new states.new fields.new)
        (replacing format octets.now) result }
{
    if !slices::has_room(counts.len(), states.len(), fields.len()) {
        return 255;
    }
    let plan = slices::load(counts, states, fields);
    let edited = plan::replace(plan, format, octets);
    slices::update(edited, counts, states, fields)
}
