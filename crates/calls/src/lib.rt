// A list of calls in lent slices of numbers: whether the slices are one, and whether a row refuses to make it. What comes of it is one number, asked for before
// anything is written.
#![tactic(auto)]

ghost use Rattle.std.specs.Prelude.{◌≡◌, ◌&&◌, leb, ◌≤◌, ◌/◌, length};
ghost use Rattle.rules.specs.Image.{tabulate};
ghost use Rattle.rules.specs.Limits.{all};
ghost use Rattle.rules.specs.Refusal.{code as code_of, said};
ghost use Rattle.calls.specs.Rows.{replay_rule, asked};
ghost use Rattle.calls.specs.Slices.{is_one, is_call, item_at, are_calls};

use arrays::limits;
use rules::Refusal;

// Whether a part lies within so many octets.
fn part_ok(start: usize, end: usize, long: usize) -> bool
    ensures { result ≡ (leb start end && leb end long) }
{
    start <= end && end <= long
}

// Whether a kind and its first two arguments are a call's.
fn is_call(kind: u8, a: usize, b: usize, long: usize) -> bool
    ensures { result ≡ is_one long kind a b }
{
    match kind {
        0..=2 | 5 => true,
        3 | 4 => part_ok(a, b, long),
        _ => false,
    }
}

// Whether every item is a call.
fn each_call(kinds: &[u8], arguments: &[usize], long: usize) -> bool
    requires { length kinds.now ≤ length arguments.now / 4 }
    ensures { result ≡ all (is_call long) (tabulate (length kinds.now) (item_at kinds.now arguments.now)) }
{
    for i in 0..kinds.len() {
        let at = 4 * i;
        if !is_call(kinds[i], arguments[at], arguments[at + 1], long) {
            return false;
        }
    }
    true
}

// Whether the slices are a list of calls.
fn are_calls(kinds: &[u8], arguments: &[usize], octets: &[u8]) -> bool
    ensures { result ≡ are_calls kinds.now arguments.now octets.now }
{
    if arguments.len() / 4 < kinds.len() {
        return false;
    }
    each_call(kinds, arguments, octets.len())
}

// Whether a list of calls from a fresh plan of n states is refused: n, then the places for its answers, those for the walks, and those for the figures.
fn rows(n: usize, kinds: &[u8], answers: &[u32], walks: &[u16], out: &[u32]) -> Result<(), Refusal>
    ensures { said result ≡ replay_rule n kinds.now answers.now walks.now out.now }
{
    if !limits::state_count_ok(n) {
        return Err(Refusal::StateCount);
    }
    if answers.len() < kinds.len() {
        return Err(Refusal::BufferLength);
    }
    if walks.len() < 2048 {
        return Err(Refusal::BufferLength);
    }
    if out.len() < 16 {
        return Err(Refusal::BufferLength);
    }
    Ok(())
}

// An answer as one number: 256 for accepted, or the refusal's.
fn code(answer: Result<(), Refusal>) -> u32
    ensures { result ≡ code_of (said answer) }
{
    match answer {
        Ok(()) => 256,
        Err(r) => numbers::number(r),
    }
}

// What a list of calls is answered before it is made, where `room` says whether its plan's slices have the places of a plan.
pub fn ask(
    room: bool,
    n: usize,
    kinds: &[u8],
    arguments: &[usize],
    octets: &[u8],
    answers: &[u32],
    walks: &[u16],
    out: &[u32],
) -> u32
    ensures { result ≡ asked room (are_calls kinds.now arguments.now octets.now)
        (replay_rule n kinds.now answers.now walks.now out.now) }
{
    if !room {
        return 255;
    }
    if !are_calls(kinds, arguments, octets) {
        return 254;
    }
    code(rows(n, kinds, answers, walks, out))
}
