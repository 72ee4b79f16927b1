// The length of a plan's text, from the arrays that hold its transitions.
#![tactic(auto)]

ghost use Rattle.std.specs.Prelude.{◌≡◌, ◌*◌, ◌≤◌, length};
ghost use Rattle.aldebaran.specs.Text.{line_text, lines_text, text_of};
ghost use Rattle.arrays.specs.Tables.{transition, transitions_of};
ghost use Rattle.text.specs.Text.{digits};
ghost use Rattle.text_length.specs.Parts.{first_text, holding};

use arrays::Plan;

// The number of digits of x.
fn width(x: u16) -> usize
    ensures { (result ≡ length (digits x)) × (result ≤ 5) }
{
    1 + (10 <= x) as usize + (100 <= x) as usize + (1000 <= x) as usize + (10000 <= x) as usize
}

// The length of a transition's line.
fn line_length(from: u16, to: u16, low: u16, high: u16) -> usize
    ensures { (result ≡ length (line_text (transition from to low high))) × (result ≤ 31) }
{
    11 + width(from) + width(to) + width(low) + width(high)
}

// The length of the first line.
fn first_length(initial: u16, m: u16, n: u16) -> usize
    ensures { (result ≡ length (first_text initial m n)) × (result ≤ 26) }
{
    11 + width(initial) + width(m) + width(n)
}

// The length of the lines of a plan's transitions.
fn lines_length(p: &Plan) -> usize
    requires { p.now.transitions ≤ 2048 }
    ensures { (result ≡ length (lines_text (transitions_of p.now.transitions p.now.from p.now.to p.now.low p.now.high)))
        × (result ≤ 31 * p.now.transitions) }
{
    let mut length = 0;
    for i in 0..p.transitions {
        length += line_length(p.from[i], p.to[i], p.low[i], p.high[i]);
    }
    length
}

// The length of a plan's text, by its initial state.
pub fn length(initial: usize, p: &Plan) -> usize
    requires { (initial ≤ 512) × (p.now.states ≤ 512) × (p.now.transitions ≤ 2048) }
    ensures { result ≡ length (text_of (holding initial p.now.states
        (transitions_of p.now.transitions p.now.from p.now.to p.now.low p.now.high))) }
{
    let first = first_length(initial as u16, p.transitions as u16, p.states as u16);
    first + lines_length(p)
}
