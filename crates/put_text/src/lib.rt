// Words, decimal numbers and lists of numbers, put into a lent slice of octets from a place on. Every function returns the place after what it put, so that
// the next one goes on from there. The caller has seen to room.
#![tactic(auto)]

ghost use Rattle.std.specs.Prelude.{◌+◌, ◌≤◌, ◌≡◌, length, take};
ghost use Rattle.text.specs.Text.{digits, spaced, listed};
ghost use Rattle.text.specs.Put.{Put};

// Puts octets.
pub fn word(buffer: &mut [u8], at: usize, octets: &[u8]) -> usize
    requires { at + length octets.now ≤ length buffer.old }
    ensures { Put buffer.old at octets.now buffer.new result }
{
    let end = at + octets.len();
    buffer[at..end].copy_from_slice(octets);
    end
}

// The number of digits of x.
fn width(x: u32) -> usize
    ensures { result ≡ length (digits x) }
{
    let mut rest = x;
    let mut count = 1;
    while rest >= 10 {
        rest = rest / 10;
        count += 1;
    }
    count
}

// Puts x in decimal, from its last digit to its first.
pub fn number(buffer: &mut [u8], at: usize, x: u32) -> usize
    requires { at + length (digits x) ≤ length buffer.old }
    ensures { Put buffer.old at (digits x) buffer.new result }
{
    let end = at + width(x);
    let mut rest = x;
    let mut place = end;
    while rest >= 10 {
        place -= 1;
        buffer[place] = (48 + rest % 10) as u8;
        rest = rest / 10;
    }
    buffer[at] = (48 + rest) as u8;
    end
}

// Puts a space and x in decimal.
fn spaced(buffer: &mut [u8], at: usize, x: u32) -> usize
    requires { at + length (spaced x) ≤ length buffer.old }
    ensures { Put buffer.old at (spaced x) buffer.new result }
{
    let first = word(buffer, at, b" ");
    number(buffer, first, x)
}

// Puts the first k numbers, each after a space.
pub fn list(buffer: &mut [u8], at: usize, numbers: &[u16], k: usize) -> usize
    requires k_in_bounds { k ≤ length numbers.now }
    requires numbers_in_bounds { at + length (listed (take k numbers.now)) ≤ length buffer.old }
    ensures { Put buffer.old at (listed (take k numbers.now)) buffer.new result }
{
    let mut place = at;
    for &x in &numbers[..k] {
        place = spaced(buffer, place, u32::from(x));
    }
    place
}
