// The transitions' lines of a plan's text, read into the arrays that hold its transitions. The form of every line is looked at; of the grounds only the first one is
// kept, and after it nothing more is stored.
#![tactic(auto)]

ghost use Rattle.std.specs.Prelude.{◌≡◌, ◌≤◌, ◌<◌, length, drop, MatchOption};
ghost use Rattle.rules.specs.Answer.{Accepted};
ghost use Rattle.aldebaran.specs.Form.{off};
ghost use Rattle.aldebaran.specs.Text.{read_lines};
ghost use Rattle.arrays.specs.Tables.{fields};
ghost use Rattle.text_lines.specs.Lines.{Room, meant, Added, Lists};

use rules::Refusal;
use text_reading::Line;

// What came of lines: the answer so far, and the place after them.
#[derive(Drop)]
pub struct Listed {
    pub answer: Result<(), Refusal>,
    pub next: usize,
}

// One line more, after those that are answered so far: its grounds are looked at, and it is stored at place i, where no line before it was refused.
fn add(
    answer: Result<(), Refusal>,
    n: usize,
    i: usize,
    line: Line,
    from: &mut [u16; 2048],
    to: &mut [u16; 2048],
    low: &mut [u16; 2048],
    high: &mut [u16; 2048],
) -> Result<(), Refusal>
    requires { (answer ≡ Accepted → (n ≤ 512) × (i < 2048)) × Room (fields from.old to.old low.old high.old) }
    ensures { Added n i (meant line) answer
        (fields from.old to.old low.old high.old)
        (fields from.new to.new low.new high.new) result }
{
    answer?;
    transition_grounds::checked(n, line.from, line.to, line.low, line.high)?;
    from[i] = line.from as u16;
    to[i] = line.to as u16;
    low[i] = line.low as u16;
    high[i] = line.high as u16;
    Ok(())
}

// Reads m lines of a plan with n states from a place on, after a first line that was answered so. It is none where a line is off the form.
pub fn lines(
    text: &[u8],
    at: usize,
    first: Result<(), Refusal>,
    n: usize,
    m: usize,
    from: &mut [u16; 2048],
    to: &mut [u16; 2048],
    low: &mut [u16; 2048],
    high: &mut [u16; 2048],
) -> Option<Listed>
    requires { (at ≤ length text.now) × (first ≡ Accepted → (n ≤ 512) × (m ≤ 2048))
        × Room (fields from.old to.old low.old high.old) }
    ensures { MatchOption result (read_lines m (drop at text.now) ≡ off)
        (Lists text.now (read_lines m (drop at text.now)) n m first
        (fields from.new to.new low.new high.new))
        × Room (fields from.new to.new low.new high.new) }
{
    let mut next = at;
    let mut answer = first;
    for i in 0..m {
        let line = text_reading::read_line(text, next)?;
        next = line.next;
        answer = add(answer, n, i, line, from, to, low, high);
    }
    Some(Listed { answer, next })
}
