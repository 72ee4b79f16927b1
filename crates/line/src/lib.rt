// Puts a line that quote prints into a lent buffer: the line of a quote with its walk, or of a refusal.
#![tactic(auto)]

ghost use Rattle.std.specs.Prelude.{◌+◌, ◌≤◌, length};
ghost use Rattle.rules.specs.Quotations.{meant, SmallQuote};
ghost use Rattle.text.specs.Put.{Put};
ghost use Rattle.wording.specs.Lines.{heading, added_text, line_of, refused_line};

use graph::Which;
use rules::{Figure, Quote};

// Puts a figure's name, a space, its number or kind, and a colon.
fn heading(buffer: &mut [u8], at: usize, which: Which, shown: Figure) -> usize
    requires { at + length (heading which (meant shown)) ≤ length buffer.old }
    ensures { Put buffer.old at (heading which (meant shown)) buffer.new result }
{
    let named = words::name(buffer, at, which);
    let spaced = put_text::word(buffer, named, b" ");
    let figured = words::figure(buffer, spaced, shown);
    put_text::word(buffer, figured, b":")
}

// Puts ` @` and j, for ENDLESS alone.
fn added(buffer: &mut [u8], at: usize, figure: Figure, j: u32) -> usize
    requires { at + length (added_text (meant figure) j) ≤ length buffer.old }
    ensures { Put buffer.old at (added_text (meant figure) j) buffer.new result }
{
    match figure {
        Figure::Number(_) | Figure::None | Figure::Stranded => at,
        Figure::Endless => {
            let place = put_text::word(buffer, at, b" @");
            put_text::number(buffer, place, j)
        }
    }
}

// Puts the line of a quote, with its walk at the front of the places.
pub fn line(buffer: &mut [u8], at: usize, which: Which, quote: Quote, walk: &[u16]) -> usize
    requires { SmallQuote quote × (quote.k ≤ length walk.now) × (at + length (line_of which quote walk.now) ≤ length buffer.old) }
    ensures { Put buffer.old at (line_of which quote walk.now) buffer.new result }
{
    let headed = heading(buffer, at, which, quote.figure);
    let walked = put_text::list(buffer, headed, walk, quote.k);
    let ended = added(buffer, walked, quote.figure, quote.j as u32);
    put_text::word(buffer, ended, b"\n")
}

// Puts the line of a refusal.
pub fn refused(buffer: &mut [u8], at: usize, number: u32) -> usize
    requires { at + length (refused_line number) ≤ length buffer.old }
    ensures { Put buffer.old at (refused_line number) buffer.new result }
{
    let said = put_text::word(buffer, at, b"refused ");
    let numbered = put_text::number(buffer, said, number);
    put_text::word(buffer, numbered, b"\n")
}
