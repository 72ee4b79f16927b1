// The octets that hold packed fields, at most six, make one number, their window, and a field is a part of the window: four fields are taken at once from any
// bit position, one after another.
#![tactic(auto)]

ghost use Rattle.std.specs.Prelude.{◌≡◌, ◌+◌, ◌/◌, ◌%◌, ◌^◌, ◌≤◌, ◌<◌, length, get_or};
ghost use Rattle.std.proofs.Math.Seq.{slice};
ghost use Rattle.field.specs.Field.{Spans, bits, number, four_at};

use field::Four;

// The octet at a place, as a word.
fn octet(octets: &[u8], i: usize) -> u64
    requires { i < length octets.now }
    ensures { (result ≡ get_or octets.now i 0) × (result < 256) }
{
    u64::from(octets[i])
}

// The number that the five octets from first on make.
fn five(octets: &[u8], first: usize) -> u64
    requires { first + 5 ≤ length octets.now }
    ensures { result ≡ number (bits (slice first (first + 5) octets.now)) }
{
    let a = octet(octets, first);
    let b = octet(octets, first + 1);
    let c = octet(octets, first + 2);
    let d = octet(octets, first + 3);
    let e = octet(octets, first + 4);
    (((a * 256 + b) * 256 + c) * 256 + d) * 256 + e
}

// The number that the octets from first up to end make. Five are the most common number: they go without the loop.
pub fn window(octets: &[u8], first: usize, end: usize) -> u64
    requires { (first ≤ end) × (end ≤ length octets.now) × (end ≤ first + 6) }
    ensures { result ≡ number (bits (slice first end octets.now)) }
{
    if end - first == 5 {
        return five(octets, first);
    }
    let mut value: u64 = 0;
    for i in first..end {
        value = value * 256 + octet(octets, i);
    }
    value
}

// The part of a number that has width bits, and after bits after it.
fn part(whole: u64, after: usize, width: usize) -> usize
    requires { (after < 64) × (width < 64) }
    ensures { result ≡ whole / 2 ^ after % 2 ^ width }
{
    ((whole >> after) & ((1u64 << width) - 1)) as usize
}

// The four fields of a, b, c and d bits, one after another from bit position at on. One window holds them all.
pub fn take_four(octets: &[u8], at: usize, a: usize, b: usize, c: usize, d: usize) -> Four
    requires { Spans octets.now at (a + b + c + d) }
    ensures { result ≡ four_at octets.now at a b c d }
{
    let stop = at + a + b + c + d;
    let end = (stop + 7) / 8;
    let after = 8 * end - stop;
    let whole = window(octets, at / 8, end);
    Four {
        first: part(whole, after + d + c + b, a),
        second: part(whole, after + d + c, b),
        third: part(whole, after + d, c),
        fourth: part(whole, after, d),
    }
}
