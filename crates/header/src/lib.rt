// The header of an image: its four fields, read and tested.
#![tactic(auto)]

ghost use Rattle.std.specs.Prelude.{◌≡◌, ◌+◌, ◌<◌, ◌^◌};
ghost use Rattle.header.specs.Header.{HeaderRead};

use rules::Refusal;

// What a header says: its version, and the two counts.
#[derive(Drop)]
pub struct Heading {
    pub version: usize,
    pub states: usize,
    pub transitions: usize,
}

// Reads the header, 32 bits, and adds what it takes to the count.
pub fn header(octets: &[u8], at: &mut usize, taken: &mut usize) -> Result<Heading, Refusal>
    requires { (at.old ≡ 0) × (taken.old + 32 < 2 ^ 32) }
    ensures { HeaderRead octets.now at.new taken.old taken.new result }
{
    if octets.len() < 4 {
        return Err(Refusal::ImageShort);
    }
    let fields = image_fields::header(octets, at, taken);
    let heading = Heading {
        version: fields.first,
        states: fields.second,
        transitions: fields.third,
    };
    header_grounds::grounds(octets, fields)?;
    Ok(heading)
}
