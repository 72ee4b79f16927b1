// The items of an image: the four fields of its header, of a state and of a transition, each taken at a bit position that the reader moves behind them, and
// counted. All fields of an image are taken here.
#![tactic(auto)]

ghost use Rattle.std.specs.Prelude.{◌≡◌, ◌+◌, ◌<◌, ◌^◌};
ghost use Rattle.field.specs.Field.{Spans, four_at};

use field::Four;

// The header: the version, the two counts and the pad, 32 bits.
pub fn header(octets: &[u8], at: &mut usize, taken: &mut usize) -> Four
    requires { Spans octets.now at.old 32 × (taken.old + 32 < 2 ^ 32) }
    ensures { (result ≡ four_at octets.now at.old 4 10 12 6) × (at.new ≡ at.old + 32)
        × (taken.new ≡ taken.old + 32) }
{
    reader::counted(octets, at, taken, 4, 10, 12, 6)
}

// A state: its three marks and the five bits behind them, 8 bits.
pub fn state(octets: &[u8], at: &mut usize, taken: &mut usize) -> Four
    requires { Spans octets.now at.old 8 × (taken.old + 8 < 2 ^ 32) }
    ensures { (result ≡ four_at octets.now at.old 1 1 1 5) × (at.new ≡ at.old + 8)
        × (taken.new ≡ taken.old + 8) }
{
    reader::counted(octets, at, taken, 1, 1, 1, 5)
}

// A transition: from, to, low and high, 40 bits.
pub fn transition(octets: &[u8], at: &mut usize, taken: &mut usize) -> Four
    requires { Spans octets.now at.old 40 × (taken.old + 40 < 2 ^ 32) }
    ensures { (result ≡ four_at octets.now at.old 9 9 11 11) × (at.new ≡ at.old + 40)
        × (taken.new ≡ taken.old + 40) }
{
    reader::counted(octets, at, taken, 9, 9, 11, 11)
}
