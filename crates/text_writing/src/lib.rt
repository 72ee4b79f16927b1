// A plan's text, put into a lent buffer from the arrays that hold its transitions: the first line, and a line for each transition.
#![tactic(auto)]

ghost use Rattle.std.specs.Prelude.{◌++◌, ◌+◌, ◌≤◌, length};
ghost use Rattle.aldebaran.specs.Text.{line_text, lines_text, text_of};
ghost use Rattle.arrays.specs.Tables.{transition, transitions_of};
ghost use Rattle.text.specs.Put.{Put};
ghost use Rattle.text.specs.Text.{digits};
ghost use Rattle.text_length.specs.Parts.{first_text, holding};

use arrays::Plan;

// Puts a word and a number after it.
fn numbered(buffer: &mut [u8], at: usize, word: &[u8], x: u16) -> usize
    requires { at + length (word.now ++ digits x) ≤ length buffer.old }
    ensures { Put buffer.old at (word.now ++ digits x) buffer.new result }
{
    let place = put_text::word(buffer, at, word);
    put_text::number(buffer, place, u32::from(x))
}

// Puts the first line.
fn first(buffer: &mut [u8], at: usize, initial: u16, m: u16, n: u16) -> usize
    requires { at + length (first_text initial m n) ≤ length buffer.old }
    ensures { Put buffer.old at (first_text initial m n) buffer.new result }
{
    let begun = numbered(buffer, at, b"des (", initial);
    let counted = numbered(buffer, begun, b", ", m);
    let stated = numbered(buffer, counted, b", ", n);
    put_text::word(buffer, stated, b")\n")
}

// Puts a transition's line.
fn line(buffer: &mut [u8], at: usize, from: u16, to: u16, low: u16, high: u16) -> usize
    requires { at + length (line_text (transition from to low high)) ≤ length buffer.old }
    ensures { Put buffer.old at (line_text (transition from to low high)) buffer.new result }
{
    let left = numbered(buffer, at, b"(", from);
    let least = numbered(buffer, left, b", \"", low);
    let most = numbered(buffer, least, b"..", high);
    let entered = numbered(buffer, most, b"\", ", to);
    put_text::word(buffer, entered, b")\n")
}

// Puts the lines of a plan's transitions.
fn lines(buffer: &mut [u8], at: usize, p: &Plan) -> usize
    requires bound { p.now.transitions ≤ 2048 }
    requires room { at + length (lines_text (transitions_of p.now.transitions p.now.from p.now.to p.now.low p.now.high)) ≤ length buffer.old }
    ensures { Put buffer.old at
        (lines_text (transitions_of p.now.transitions p.now.from p.now.to p.now.low p.now.high)) buffer.new result }
{
    let mut place = at;
    for i in 0..p.transitions {
        place = line(buffer, place, p.from[i], p.to[i], p.low[i], p.high[i]);
    }
    place
}

// Puts a plan's text at the front of the buffer, by its initial state.
pub fn text(buffer: &mut [u8], initial: usize, p: &Plan) -> usize
    requires bounds { (initial ≤ 512) × (p.now.states ≤ 512) × (p.now.transitions ≤ 2048) }
    requires room { length (text_of (holding initial p.now.states
        (transitions_of p.now.transitions p.now.from p.now.to p.now.low p.now.high))) ≤ length buffer.old }
    ensures { Put buffer.old 0 (text_of (holding initial p.now.states
        (transitions_of p.now.transitions p.now.from p.now.to p.now.low p.now.high))) buffer.new result }
{
    let place = first(
        buffer,
        0,
        initial as u16,
        p.transitions as u16,
        p.states as u16,
    );
    lines(buffer, place, p)
}
