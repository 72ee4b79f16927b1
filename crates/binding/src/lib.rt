// The calculator for programs in other languages: each function hands on to one of a crate below. A plan crosses as three lent slices: the two counts; the
// states, 512 marks values and 512 teams; and the transitions' fields, 2,048 places each for from, to, low and high. A call answers a refusal by its number and 256
// for accepted; write, export and record answer 256 plus the octets' number. 255 is no number of the table: the three slices are too short to hold a plan, so there is
// none to look at. A quotation answers in four more lent places: the figure's kind (0 number, 1 NONE, 2 STRANDED, 3 ENDLESS) and number, k and j; too few of
// these or for a walk are 11. One call takes no plan: an image in, its four figures out. Another takes a list of calls, and answers 254 where the slices are none.
#![tactic(auto)]

ghost use Rattle.std.specs.Prelude.{◌≡◌};
ghost use Rattle.arrays.specs.Tables.{transition};
ghost use Rattle.edits.specs.Lent.{LentFresh, LentGenerate, LentHeld, LentTurn};
ghost use Rattle.graph.specs.declared.Asked.TheVariants.{One, LeastCountFor, GreatestCountFor};
ghost use Rattle.graph.specs.declared.Which.TheVariants.{LeastDelay, GreatestDelay, LeastCount, GreatestCount};
ghost use Rattle.lent.specs.declared.Content.TheVariants.{Image, Record, Text};
ghost use Rattle.lent.specs.Quoted.{LentQuote, LentQuotes};
ghost use Rattle.lent.specs.Written.{LentFill};
ghost use Rattle.replay.specs.Replayed.{LentReplay, places};
ghost use Rattle.rules.specs.Calls.{mark, team as teamCall, join, unjoin, read, import};
ghost use Rattle.slices.specs.Lent.{slices};

use graph::{Asked, Which};
use lent::Content;
use rules::Format;

// The version of the archive: 10,000 times the first number, 100 times the second, and the third.
#[unsafe(no_mangle)]
pub extern "C" fn callplan_lent_version() -> u32
    ensures { result ≡ 900 }
{
    900
}

// A fresh plan with n states.
#[unsafe(no_mangle)]
pub extern "C" fn callplan_lent_fresh(
    n: usize,
    counts: &mut [usize],
    states: &mut [u8],
    fields: &mut [u16],
) -> u32
    ensures { LentFresh n
        (slices counts.old states.old fields.old)
        (slices counts.new states.new fields.new) result }
{
    edits::fresh(n, counts, states, fields)
}

// The plan of n states and m transitions that a seed makes.
#[unsafe(no_mangle)]
pub extern "C" fn callplan_lent_generate(
    seed: u32,
    n: usize,
    m: usize,
    counts: &mut [usize],
    states: &mut [u8],
    fields: &mut [u16],
) -> u32
    ensures { LentGenerate seed n m
        (slices counts.old states.old fields.old)
        (slices counts.new states.new fields.new) result }
{
    edits::generate(seed, n, m, counts, states, fields)
}

// The plan that an image holds, whatever the slices held before.
#[unsafe(no_mangle)]
pub extern "C" fn callplan_lent_from_image(
    octets: &[u8],
    counts: &mut [usize],
    states: &mut [u8],
    fields: &mut [u16],
) -> u32
    ensures { LentHeld octets.now
        (slices counts.old states.old fields.old)
        (slices counts.new states.new fields.new) result }
{
    edits::from_image(octets, counts, states, fields)
}

// Makes a state's marks value the value given.
#[unsafe(no_mangle)]
pub extern "C" fn callplan_lent_mark(
    counts: &mut [usize],
    states: &mut [u8],
    fields: &mut [u16],
    state: usize,
    value: u32,
) -> u32
    ensures { LentTurn
        (slices counts.old states.old fields.old)
        (slices counts.new states.new fields.new)
        (mark state value) result }
{
    edits::mark(counts, states, fields, state, value as usize)
}

// Makes a state's team the team given.
#[unsafe(no_mangle)]
pub extern "C" fn callplan_lent_team(
    counts: &mut [usize],
    states: &mut [u8],
    fields: &mut [u16],
    state: usize,
    team: u32,
) -> u32
    ensures { LentTurn
        (slices counts.old states.old fields.old)
        (slices counts.new states.new fields.new)
        (teamCall state team) result }
{
    edits::team(counts, states, fields, state, team as usize)
}

// Puts a transition at the end of the list.
#[unsafe(no_mangle)]
pub extern "C" fn callplan_lent_join(
    counts: &mut [usize],
    states: &mut [u8],
    fields: &mut [u16],
    from: usize,
    to: usize,
    low: u32,
    high: u32,
) -> u32
    ensures { LentTurn
        (slices counts.old states.old fields.old)
        (slices counts.new states.new fields.new)
        (join (transition from to low high)) result }
{
    edits::join(
        counts,
        states,
        fields,
        from,
        to,
        low as usize,
        high as usize,
    )
}

// Takes a transition out of the list.
#[unsafe(no_mangle)]
pub extern "C" fn callplan_lent_unjoin(
    counts: &mut [usize],
    states: &mut [u8],
    fields: &mut [u16],
    number: usize,
) -> u32
    ensures { LentTurn
        (slices counts.old states.old fields.old)
        (slices counts.new states.new fields.new)
        (unjoin number) result }
{
    edits::unjoin(counts, states, fields, number)
}

// Reads an image.
#[unsafe(no_mangle)]
pub extern "C" fn callplan_lent_read(
    counts: &mut [usize],
    states: &mut [u8],
    fields: &mut [u16],
    octets: &[u8],
) -> u32
    ensures { LentTurn
        (slices counts.old states.old fields.old)
        (slices counts.new states.new fields.new)
        (read octets.now) result }
{
    edits::replace(Format::Image, counts, states, fields, octets)
}

// Puts the image at the front of the buffer.
#[unsafe(no_mangle)]
pub extern "C" fn callplan_lent_write(
    counts: &[usize],
    states: &[u8],
    fields: &[u16],
    buffer: &mut [u8],
) -> u32
    ensures { LentFill Image (slices counts.now states.now fields.now)
        buffer.old buffer.new result }
{
    lent::fill(Content::Image, counts, states, fields, buffer)
}

// Imports a text.
#[unsafe(no_mangle)]
pub extern "C" fn callplan_lent_import(
    counts: &mut [usize],
    states: &mut [u8],
    fields: &mut [u16],
    text: &[u8],
) -> u32
    ensures { LentTurn
        (slices counts.old states.old fields.old)
        (slices counts.new states.new fields.new)
        (import text.now) result }
{
    edits::replace(Format::Text, counts, states, fields, text)
}

// Puts the plan's text at the front of the buffer.
#[unsafe(no_mangle)]
pub extern "C" fn callplan_lent_export(
    counts: &[usize],
    states: &[u8],
    fields: &[u16],
    buffer: &mut [u8],
) -> u32
    ensures { LentFill Text (slices counts.now states.now fields.now)
        buffer.old buffer.new result }
{
    lent::fill(Content::Text, counts, states, fields, buffer)
}

// The least delay, with a route that attains it.
#[unsafe(no_mangle)]
pub extern "C" fn callplan_lent_least_delay(
    counts: &[usize],
    states: &[u8],
    fields: &[u16],
    walk: &mut [u16],
    out: &mut [u32],
) -> u32
    ensures { LentQuote (One LeastDelay)
        (slices counts.now states.now fields.now)
        walk.old walk.new out.old out.new result }
{
    lent::quote(
        Asked::One(Which::LeastDelay),
        counts,
        states,
        fields,
        walk,
        out,
    )
}

// The greatest delay, with the walk that shows it.
#[unsafe(no_mangle)]
pub extern "C" fn callplan_lent_greatest_delay(
    counts: &[usize],
    states: &[u8],
    fields: &[u16],
    walk: &mut [u16],
    out: &mut [u32],
) -> u32
    ensures { LentQuote (One GreatestDelay)
        (slices counts.now states.now fields.now)
        walk.old walk.new out.old out.new result }
{
    lent::quote(
        Asked::One(Which::GreatestDelay),
        counts,
        states,
        fields,
        walk,
        out,
    )
}

// The least count, with a route that attains it.
#[unsafe(no_mangle)]
pub extern "C" fn callplan_lent_least_count(
    counts: &[usize],
    states: &[u8],
    fields: &[u16],
    walk: &mut [u16],
    out: &mut [u32],
) -> u32
    ensures { LentQuote (One LeastCount)
        (slices counts.now states.now fields.now)
        walk.old walk.new out.old out.new result }
{
    lent::quote(
        Asked::One(Which::LeastCount),
        counts,
        states,
        fields,
        walk,
        out,
    )
}

// The greatest count, with the walk that shows it.
#[unsafe(no_mangle)]
pub extern "C" fn callplan_lent_greatest_count(
    counts: &[usize],
    states: &[u8],
    fields: &[u16],
    walk: &mut [u16],
    out: &mut [u32],
) -> u32
    ensures { LentQuote (One GreatestCount)
        (slices counts.now states.now fields.now)
        walk.old walk.new out.old out.new result }
{
    lent::quote(
        Asked::One(Which::GreatestCount),
        counts,
        states,
        fields,
        walk,
        out,
    )
}

// The least count for the class of a team, with a route that attains it.
#[unsafe(no_mangle)]
pub extern "C" fn callplan_lent_least_count_for(
    counts: &[usize],
    states: &[u8],
    fields: &[u16],
    team: u32,
    walk: &mut [u16],
    out: &mut [u32],
) -> u32
    ensures { LentQuote (LeastCountFor team)
        (slices counts.now states.now fields.now)
        walk.old walk.new out.old out.new result }
{
    lent::quote(
        Asked::LeastCountFor(team as usize),
        counts,
        states,
        fields,
        walk,
        out,
    )
}

// The greatest count for the class of a team, with the walk that shows it.
#[unsafe(no_mangle)]
pub extern "C" fn callplan_lent_greatest_count_for(
    counts: &[usize],
    states: &[u8],
    fields: &[u16],
    team: u32,
    walk: &mut [u16],
    out: &mut [u32],
) -> u32
    ensures { LentQuote (GreatestCountFor team)
        (slices counts.now states.now fields.now)
        walk.old walk.new out.old out.new result }
{
    lent::quote(
        Asked::GreatestCountFor(team as usize),
        counts,
        states,
        fields,
        walk,
        out,
    )
}

// Puts the record of the four figures at the front of the buffer.
#[unsafe(no_mangle)]
pub extern "C" fn callplan_lent_record(
    counts: &[usize],
    states: &[u8],
    fields: &[u16],
    buffer: &mut [u8],
) -> u32
    ensures { LentFill Record
        (slices counts.now states.now fields.now)
        buffer.old buffer.new result }
{
    lent::fill(Content::Record, counts, states, fields, buffer)
}

// Reads an image, and quotes all four figures of its plan. The walks have 512 places each, the figures four.
#[unsafe(no_mangle)]
pub extern "C" fn callplan_lent_quote(octets: &[u8], walks: &mut [u16], out: &mut [u32]) -> u32
    ensures { LentQuotes octets.now walks.old walks.new out.old out.new result }
{
    lent::held(octets, walks, out)
}

// Makes a list of calls in turn from a fresh plan of n states, stores the plan after it, and quotes its four figures. A call is a kind (0 mark, 1 join,
// 2 unjoin, 3 read, 4 import, 5 team) and four arguments; those of a read or an import are the start and the end of its octets. Each call has a place for its
// answer. Ten slices and numbers: the list is three of them, the plan three.
#[unsafe(no_mangle)]
pub extern "C" fn callplan_lent_replay(
    n: usize,
    kinds: &[u8],
    arguments: &[usize],
    octets: &[u8],
    answers: &mut [u32],
    counts: &mut [usize],
    states: &mut [u8],
    fields: &mut [u16],
    walks: &mut [u16],
    out: &mut [u32],
) -> u32
    ensures { LentReplay n kinds.now arguments.now octets.now
        (places answers.old (slices counts.old states.old fields.old) walks.old out.old)
        (places answers.new (slices counts.new states.new fields.new) walks.new out.new)
        result }
{
    replay::replay(
        n, counts, states, fields, kinds, arguments, octets, answers, walks, out,
    )
}
