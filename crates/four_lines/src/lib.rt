// Four lines in a row: those of the quotes of the four figures.
#![tactic(auto)]

ghost use Rattle.std.specs.Prelude.{◌^◌, ◌≤◌, ◌<◌, length};
ghost use Rattle.graph.specs.declared.Which.{Which};
ghost use Rattle.graph.specs.Figure.{value};
ghost use Rattle.rules.specs.Quotations.{meant, quote_of, SmallQuote};
ghost use Rattle.text.specs.Put.{Put};
ghost use Rattle.wording.specs.Lines.{lines_of};
ghost use Rattle.four_lines.specs.Room.{room};

use graph::Which;
use rules::FourQuotes;

// Puts the four lines of quotes whose walks stand in four parts of 512 places.
pub fn four(quotes: FourQuotes, walks: &[u16], buffer: &mut [u8]) -> usize
    requires which_bound { ((which : Which) → SmallQuote (quote_of quotes which)) × ((which : Which) → value (meant (quote_of quotes which).figure) < 2 ^ 32) }
    requires in_bounds { (2048 ≤ length walks.now) × (room ≤ length buffer.old) }
    ensures { Put buffer.old 0 (lines_of quotes walks.now) buffer.new result }
{
    let first = quotes.least_delay;
    let second = quotes.greatest_delay;
    let third = quotes.least_count;
    let fourth = quotes.greatest_count;
    let one = line::line(buffer, 0, Which::LeastDelay, first, &walks[0..512]);
    let two = line::line(buffer, one, Which::GreatestDelay, second, &walks[512..1024]);
    let three = line::line(buffer, two, Which::LeastCount, third, &walks[1024..1536]);
    line::line(
        buffer,
        three,
        Which::GreatestCount,
        fourth,
        &walks[1536..2048],
    )
}
