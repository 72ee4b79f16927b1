// The lines that quote prints for an image: its four quotations, or the number that it is refused by.
#![tactic(auto)]

ghost use Rattle.lines.specs.Printed.{Printed};

use rules::Refusal;

// The octets that four lines can need: 512 transitions of a space and five digits, a figure and a j in each, and the names.
pub const ROOM: usize = 12_438;

// Puts what is printed for an image at the front of the buffer, and returns its length. A buffer that four lines could be too long for is refused.
pub fn answer(octets: &[u8], buffer: &mut [u8]) -> Result<usize, Refusal>
    ensures { Printed octets.now buffer.old buffer.new result }
{
    if buffer.len() < ROOM {
        return Err(Refusal::BufferLength);
    }
    let mut walks = [0u16; 2048];
    let held = quotation::held(octets, &mut walks);
    let quotations = held.quotations;
    match quotations {
        Ok(quotes) => Ok(four_lines::four(quotes, &walks, buffer)),
        Err(r) => Ok(line::refused(buffer, 0, numbers::number(r))),
    }
}
