// One item of a list of calls, made on the plan that three lent slices hold. Each call is made by its own function, on the slices, so that no plan value is left
// on the stack between two calls.
#![tactic(auto)]

ghost use Rattle.std.specs.Prelude.{◌≡◌, true, ◌≤◌, ◌<◌, ◌/◌, length};
ghost use Rattle.calls.specs.Slices.{call_of, call_in, is_one, is_call, item_at};
ghost use Rattle.edits.specs.Lent.{LentTurn};
ghost use Rattle.slices.specs.Lent.{slices};

use rules::Format;

// One call of a list, on the plan that lent slices hold. Nine arguments: an item's five numbers, the octets that a read or an import is a part of, and the plan's three slices.
fn perform(
    kind: u8,
    a: usize,
    b: usize,
    c: usize,
    d: usize,
    octets: &[u8],
    counts: &mut [usize],
    states: &mut [u8],
    fields: &mut [u16],
) -> u32
    requires { is_one (length octets.now) kind a b ≡ true }
    ensures { LentTurn (slices counts.old states.old fields.old)
        (slices counts.new states.new fields.new)
        (call_of octets.now kind a b c d) result }
{
    match kind {
        0 => edits::mark(counts, states, fields, a, b),
        1 => edits::join(counts, states, fields, a, b, c, d),
        2 => edits::unjoin(counts, states, fields, a),
        3 => edits::replace(Format::Image, counts, states, fields, &octets[a..b]),
        4 => edits::replace(Format::Text, counts, states, fields, &octets[a..b]),
        _ => edits::team(counts, states, fields, a, b),
    }
}

// The call numbered `turn` of a list, on the plan that lent slices hold.
pub fn obey(
    turn: usize,
    kinds: &[u8],
    arguments: &[usize],
    octets: &[u8],
    counts: &mut [usize],
    states: &mut [u8],
    fields: &mut [u16],
) -> u32
    requires turn_in_bounds { (turn < length kinds.now) × (length kinds.now ≤ length arguments.now / 4) }
    requires turn_value { is_call (length octets.now) (item_at kinds.now arguments.now turn) ≡ true }
    ensures { LentTurn (slices counts.old states.old fields.old)
        (slices counts.new states.new fields.new)
        (call_in octets.now (item_at kinds.now arguments.now turn)) result }
{
    let at = 4 * turn;
    let a = arguments[at];
    let b = arguments[at + 1];
    let c = arguments[at + 2];
    let d = arguments[at + 3];
    perform(kinds[turn], a, b, c, d, octets, counts, states, fields)
}
