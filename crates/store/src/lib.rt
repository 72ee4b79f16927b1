// Numbers put into octets, most significant octet first: four packed fields that fill octets are put at once.
#![tactic(auto)]

ghost use Rattle.std.specs.Prelude.{◌≡◌, ◌+◌, ◌*◌, ◌%◌, ◌^◌, ◌≤◌, ◌<◌, length};
ghost use Rattle.field.specs.Field.{Spans, AllFit, fields_of, put_all, stored};

use field::Four;

// Puts the number value into the five octets from first on, most significant octet first.
fn store_five(octets: &mut [u8], first: usize, value: u64)
    requires { first + 5 ≤ length octets.old }
    ensures { octets.new ≡ stored octets.old first (first + 5) value }
{
    octets[first] = ((value >> 32) % 256) as u8;
    octets[first + 1] = ((value >> 24) % 256) as u8;
    octets[first + 2] = ((value >> 16) % 256) as u8;
    octets[first + 3] = ((value >> 8) % 256) as u8;
    octets[first + 4] = (value % 256) as u8;
}

// Puts the number value into the octets from first up to end, most significant octet first. Five go without the loop.
pub fn store(octets: &mut [u8], first: usize, end: usize, value: u64)
    requires { (first ≤ end) × (end ≤ length octets.old) × (end ≤ first + 5) }
    ensures { octets.new ≡ stored octets.old first end value }
{
    if end - first == 5 {
        store_five(octets, first, value);
        return;
    }
    for i in first..end {
        octets[i] = ((value >> (8 * (end - 1 - i))) % 256) as u8;
    }
}

// A number with width more bits after it.
fn beside(high: u64, width: usize, low: usize) -> u64
    requires { (width < 64) × (high * 2 ^ width + low < 2 ^ 64) }
    ensures { result ≡ high * 2 ^ width + low }
{
    (high << width) + low as u64
}

// Puts four fields of a, b, c and d bits, one after another from bit position at on. They fill whole octets, so no other bit is looked at.
pub fn put_four(octets: &mut [u8], at: usize, a: usize, b: usize, c: usize, d: usize, fields: Four)
    requires spans { Spans octets.old at (a + b + c + d) × (at % 8 ≡ 0) × ((a + b + c + d) % 8 ≡ 0) }
    requires all_fit { AllFit (fields_of a b c d fields) }
    ensures { octets.new ≡ put_all octets.old at (fields_of a b c d fields) }
{
    let two = beside(fields.first as u64, b, fields.second);
    let three = beside(two, c, fields.third);
    let four = beside(three, d, fields.fourth);
    store(octets, at / 8, (at + a + b + c + d) / 8, four);
}
