// The grounds on which an image is refused by its header, apart from reading it, and the length that its counts give.
#![tactic(auto)]

ghost use Rattle.std.specs.Prelude.{◌≡◌, ◌≤◌, length};
ghost use Rattle.field.specs.Field.{four_at};
ghost use Rattle.rules.specs.Image.{header_rows, image_length, version_ok};
ghost use Rattle.rules.specs.Refusal.{said};
ghost use Rattle.rules.specs.Table.{first};

use arrays::limits;
use field::Four;
use rules::Refusal;

// How many octets the image of a plan with n states and m transitions has.
pub fn size(n: usize, m: usize) -> usize
    requires { (n ≤ 512) × (m ≤ 2048) }
    ensures { result ≡ image_length n m }
{
    4 + n + 5 * m
}

// Whether an image of this version is read.
fn version_ok(version: usize) -> bool
    ensures { result ≡ version_ok version }
{
    (version == 1) | (version == 2)
}

// The grounds of the header's fields and of the length, in their order.
pub fn grounds(octets: &[u8], fields: Four) -> Result<(), Refusal>
    requires { (4 ≤ length octets.now) × (fields ≡ four_at octets.now 0 4 10 12 6) }
    ensures { said result ≡ first (header_rows octets.now) }
{
    let version = fields.first;
    let n = fields.second;
    let m = fields.third;
    let pad = fields.fourth;
    if !version_ok(version) {
        return Err(Refusal::Version);
    }
    if !limits::state_count_ok(n) {
        return Err(Refusal::StateCount);
    }
    if 2048 < m {
        return Err(Refusal::TransitionCount);
    }
    if pad != 0 {
        return Err(Refusal::SpareBits); // 6: the pad
    }
    let needed = size(n, m);
    if octets.len() < needed {
        return Err(Refusal::ImageShort);
    }
    if needed < octets.len() {
        return Err(Refusal::ImageLong);
    }
    Ok(())
}
