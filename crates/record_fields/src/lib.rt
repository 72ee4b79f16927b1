// The fields of the quotation record, put into a lent buffer: for each figure a kind of 2 bits and a number of 20.
#![tactic(auto)]

ghost use Rattle.std.specs.Prelude.{◌≡◌, ◌≤◌, ◌<◌, ◌^◌, length};
ghost use Rattle.field.specs.Field.{Within, put_all};
ghost use Rattle.graph.specs.declared.Which.{Which};
ghost use Rattle.graph.specs.Figure.{value};
ghost use Rattle.rules.specs.Quotations.{meant, figure_fields, quotes_fields, quote_of};

use rules::{FourQuotes, Quote};

// Puts the kind and the number of a quoted figure at a bit position: 2 bits and 20.
fn put_figure(buffer: &mut [u8], at: usize, quote: Quote)
    requires { Within buffer.old at 22 × (value (meant quote.figure) < 2 ^ 20) }
    ensures { buffer.new ≡ put_all buffer.old at (figure_fields (meant quote.figure)) }
{
    let kind = numbers::kind(quote.figure);
    let number = numbers::value(quote.figure);
    put_field::put(buffer, at, 2, u32::from(kind));
    put_field::put(buffer, at + 2, 20, number);
}

// Puts the record of four quotes at the front of the buffer.
pub fn put_record(buffer: &mut [u8], quotes: FourQuotes)
    requires in_bounds { 11 ≤ length buffer.old }
    requires which_bound { (which : Which) → value (meant (quote_of quotes which).figure) < 2 ^ 20 }
    ensures { buffer.new ≡ put_all buffer.old 0 (quotes_fields quotes) }
{
    put_figure(buffer, 0, quotes.least_delay);
    put_figure(buffer, 22, quotes.greatest_delay);
    put_figure(buffer, 44, quotes.least_count);
    put_figure(buffer, 66, quotes.greatest_count);
}
