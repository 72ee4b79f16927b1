// Fixed words and decimal numbers, read from lent octets from a place on. What was read ends at a place of the octets, where what follows is read; what is off the form is None.
// A number may have any length: it is cut off where no test looks any more.
#![tactic(auto)]

ghost use Rattle.std.specs.Prelude.{true, ◌≡◌, ◌+◌, ◌≤◌, length, drop, MatchOption};
ghost use Rattle.aldebaran.specs.Form.{is_digit, is_numeral, front, off};
ghost use Rattle.scan.specs.Places.{word_then, number_then, more as moreOf, DigitsAt, Passed, Tells};

// Every number from here on is cut off to this one.
pub const MANY: usize = 10_000_000_000_000_000_000;

// A number, and the place after it.
#[derive(Drop)]
pub struct Taken {
    pub value: usize,
    pub next: usize,
}

// Reads a fixed word, and returns the place after it.
pub fn word(text: &[u8], at: usize, word: &[u8]) -> Option<usize>
    requires { at ≤ length text.now }
    ensures { MatchOption result (word_then text.now at word.now ≡ off)
        (Passed text.now (word_then text.now at word.now)) }
{
    if !text[at..].starts_with(word) {
        return None;
    }
    Some(at + word.len())
}

// A number with one digit more.
fn more(value: usize, digit: u8) -> usize
    requires { is_digit digit ≡ true }
    ensures { result ≡ moreOf value digit }
{
    if value < MANY / 10 {
        10 * value + usize::from(digit - b'0')
    } else {
        MANY
    }
}

// The digits from a place on: the number that they stand for, and where they end.
pub fn digits(text: &[u8], at: usize) -> Taken
    requires { at ≤ length text.now }
    ensures { DigitsAt text.now at result }
{
    let mut value = 0;
    let mut i = at;
    while i < text.len() && text[i].is_ascii_digit() {
        value = more(value, text[i]);
        i += 1;
    }
    Taken { value, next: i }
}

// Whether the digits from a place up to another are a numeral: some digits, and no leading zero.
fn is_numeral(text: &[u8], at: usize, end: usize) -> bool
    requires { (at ≤ length text.now) × (end ≡ at + length (front (drop at text.now))) }
    ensures { result ≡ is_numeral (front (drop at text.now)) }
{
    at < end && (end == at + 1 || text[at] != b'0')
}

// Reads a number.
pub fn number(text: &[u8], at: usize) -> Option<Taken>
    requires { at ≤ length text.now }
    ensures { MatchOption result (number_then text.now at ≡ off) (Tells text.now (number_then text.now at)) }
{
    let read = digits(text, at);
    if !is_numeral(text, at, read.next) {
        return None;
    }
    Some(read)
}
