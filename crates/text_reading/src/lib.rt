// The lines of a plan's text, read from lent octets: the numbers of the first line, and those of a transition's. A line that is off the form is None.
#![tactic(auto)]

ghost use Rattle.std.specs.Prelude.{◌≡◌, ◌≤◌, length, MatchOption};
ghost use Rattle.aldebaran.specs.Form.{off};
ghost use Rattle.aldebaran.specs.Text.{first_form, line_form};
ghost use Rattle.text_reading.specs.Forms.{form_then, TellsForm, first_numbers, line_numbers};

// The numbers of the first line, and the place after it.
#[derive(Drop)]
pub struct First {
    pub initial: usize,
    pub transitions: usize,
    pub states: usize,
    pub next: usize,
}

// The numbers of a transition's line, and the place after it.
#[derive(Drop)]
pub struct Line {
    pub from: usize,
    pub to: usize,
    pub low: usize,
    pub high: usize,
    pub next: usize,
}

// Reads the first line.
pub fn read_first(text: &[u8]) -> Option<First>
    ensures { MatchOption result (form_then text.now 0 first_form ≡ off)
        (λ f. TellsForm text.now (form_then text.now 0 first_form) (first_numbers f) f.next) }
{
    let initial = scan::number(text, scan::word(text, 0, b"des (")?)?;
    let transitions = scan::number(text, scan::word(text, initial.next, b", ")?)?;
    let states = scan::number(text, scan::word(text, transitions.next, b", ")?)?;
    Some(First {
        initial: initial.value,
        transitions: transitions.value,
        states: states.value,
        next: scan::word(text, states.next, b")\n")?,
    })
}

// Reads a transition's line.
pub fn read_line(text: &[u8], at: usize) -> Option<Line>
    requires { at ≤ length text.now }
    ensures { MatchOption result (form_then text.now at line_form ≡ off)
        (λ l. TellsForm text.now (form_then text.now at line_form) (line_numbers l) l.next) }
{
    let from = scan::number(text, scan::word(text, at, b"(")?)?;
    let low = scan::number(text, scan::word(text, from.next, b", \"")?)?;
    let high = scan::number(text, scan::word(text, low.next, b"..")?)?;
    let to = scan::number(text, scan::word(text, high.next, b"\", ")?)?;
    Some(Line {
        from: from.value,
        to: to.value,
        low: low.value,
        high: high.value,
        next: scan::word(text, to.next, b")\n")?,
    })
}
