// A reader of a lent image, which counts the bits that it takes. Its functions over the struct are two: `take`, over the covered
// `window::take_four`, and `next`, which lends a reader to it for a caller that has a slice and a position. All other code calls `counted`.
#![tactic(auto)]

ghost use Rattle.std.specs.Prelude.{◌≡◌, ◌+◌, ◌<◌, ◌^◌};
ghost use Rattle.field.specs.Field.{Spans, four_at};
ghost use Rattle.reader.specs.Position.{past};

use field::Four;

// The octets, and the bit position of the next field.
#[derive(Drop)]
pub struct Reader<'a> {
    pub octets: &'a [u8],
    pub at: usize,
}

// The bit position, or the count, after fields of a, b, c and d bits.
fn after(at: usize, a: usize, b: usize, c: usize, d: usize) -> usize
    requires { at + (a + b + c + d) < 2 ^ 32 }
    ensures { result ≡ at + (a + b + c + d) }
{
    at + a + b + c + d
}

// Takes the next four fields, of a, b, c and d bits, one after another: the position moves by as many bits.
fn take<'s, 'a>(reader: &'s mut Reader<'a>, a: usize, b: usize, c: usize, d: usize) -> Four
    requires { Spans reader.old.octets.now reader.old.at (a + b + c + d) }
    ensures { (result ≡ four_at reader.old.octets.now reader.old.at a b c d)
        × (reader.new ≡ past reader.old (a + b + c + d)) }
{
    let fields = window::take_four(reader.octets, reader.at, a, b, c, d);
    reader.at = after(reader.at, a, b, c, d);
    fields
}

// The next four fields of a slice, from a bit position that a reader moves.
fn next(octets: &[u8], at: &mut usize, a: usize, b: usize, c: usize, d: usize) -> Four
    requires { Spans octets.now at.old (a + b + c + d) }
    ensures { (result ≡ four_at octets.now at.old a b c d)
        × (at.new ≡ at.old + (a + b + c + d)) }
{
    let mut reader = Reader { octets, at: *at };
    let fields = take(&mut reader, a, b, c, d);
    *at = reader.at;
    fields
}

// The next four fields of a slice, from a bit position that a reader moves, and their bits added to a count. A caller may set its position; what was taken by it stays
// counted.
pub fn counted(
    octets: &[u8],
    at: &mut usize,
    taken: &mut usize,
    a: usize,
    b: usize,
    c: usize,
    d: usize,
) -> Four
    requires { Spans octets.now at.old (a + b + c + d) × (taken.old + (a + b + c + d) < 2 ^ 32) }
    ensures { (result ≡ four_at octets.now at.old a b c d)
        × (at.new ≡ at.old + (a + b + c + d))
        × (taken.new ≡ taken.old + (a + b + c + d)) }
{
    let fields = next(octets, at, a, b, c, d);
    *taken = after(*taken, a, b, c, d);
    fields
}
