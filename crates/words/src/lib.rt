// Puts the words of a line into a lent buffer: a figure's name, and its number or kind.
#![tactic(auto)]

ghost use Rattle.std.specs.Prelude.{◌+◌, ◌≤◌, length};
ghost use Rattle.rules.specs.Quotations.{meant};
ghost use Rattle.text.specs.Put.{Put};
ghost use Rattle.wording.specs.Lines.{name_text, figure_text};

use graph::Which;
use rules::Figure;

// Puts a figure's name.
pub fn name(buffer: &mut [u8], at: usize, which: Which) -> usize
    requires { at + length (name_text which) ≤ length buffer.old }
    ensures { Put buffer.old at (name_text which) buffer.new result }
{
    match which {
        Which::LeastDelay => put_text::word(buffer, at, b"least delay"),
        Which::GreatestDelay => put_text::word(buffer, at, b"greatest delay"),
        Which::LeastCount => put_text::word(buffer, at, b"least count"),
        Which::GreatestCount => put_text::word(buffer, at, b"greatest count"),
    }
}

// Puts a figure's number or kind.
pub fn figure(buffer: &mut [u8], at: usize, figure: Figure) -> usize
    requires { at + length (figure_text (meant figure)) ≤ length buffer.old }
    ensures { Put buffer.old at (figure_text (meant figure)) buffer.new result }
{
    match figure {
        Figure::Number(x) => put_text::number(buffer, at, x),
        Figure::None => put_text::word(buffer, at, b"NONE"),
        Figure::Stranded => put_text::word(buffer, at, b"STRANDED"),
        Figure::Endless => put_text::word(buffer, at, b"ENDLESS"),
    }
}
