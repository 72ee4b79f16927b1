// The answer of a quotation in a lent slice: four numbers for each figure, its kind (0 number, 1 NONE, 2 STRANDED, 3 ENDLESS) and number, k and j.
#![tactic(auto)]

ghost use Rattle.std.specs.Prelude.{◌≡◌, ◌+◌, ◌≤◌, length};
ghost use Rattle.std.proofs.Math.Seq.{paste};
ghost use Rattle.arrays.specs.Tables.{over};
ghost use Rattle.rules.specs.Quotations.{SmallQuote};
ghost use Rattle.answers.specs.Answered.{numbers_of, four_numbers, Small, Fits, FourSmall, AllSmall, AllFit, numbers_in, all_numbers_in, Answered};
ghost use Rattle.answers.specs.Handed.{Handed};

use rules::{FourQuotes, Quote, Refusal};

// Puts the four numbers of a quote into a slice, from a place on.
fn put_quote(quote: Quote, out: &mut [u32], at: usize)
    requires small_quote { SmallQuote quote }
    requires at_in_bounds { at + 4 ≤ length out.old }
    ensures { out.new ≡ paste out.old at (numbers_of quote) 4 }
{
    let figure = quote.figure;
    let k = quote.k;
    let j = quote.j;
    let kind = numbers::kind(figure);
    let value = numbers::value(figure);
    out[at] = kind as u32;
    out[at + 1] = value;
    out[at + 2] = k as u32;
    out[at + 3] = j as u32;
}

// Puts the numbers of an accepted quotation at the front of a slice, and gives the number of its answer.
pub fn one(quotation: Result<Quote, Refusal>, out: &mut [u32]) -> u32
    requires { Small quotation × Fits quotation out.old }
    ensures { Answered (numbers_in quotation) out.old out.new result }
{
    match quotation {
        Ok(quote) => {
            put_quote(quote, out, 0);
            256
        }
        Err(r) => numbers::number(r),
    }
}

// Puts the sixteen numbers of four quotes at the front of a slice.
pub fn put_quotes(quotes: FourQuotes, out: &mut [u32])
    requires four_small { FourSmall quotes }
    requires in_bounds { 16 ≤ length out.old }
    ensures { out.new ≡ over (four_numbers quotes) out.old }
{
    let least_delay = quotes.least_delay;
    let greatest_delay = quotes.greatest_delay;
    let least_count = quotes.least_count;
    let greatest_count = quotes.greatest_count;
    put_quote(least_delay, out, 0);
    put_quote(greatest_delay, out, 4);
    put_quote(least_count, out, 8);
    put_quote(greatest_count, out, 12);
}

// Puts the numbers of four accepted quotations at the front of a slice, and gives the number of their answer.
pub fn four(quotations: Result<FourQuotes, Refusal>, out: &mut [u32]) -> u32
    requires { AllSmall quotations × AllFit quotations out.old }
    ensures { Answered (all_numbers_in quotations) out.old out.new result }
{
    match quotations {
        Ok(quotes) => {
            put_quotes(quotes, out);
            256
        }
        Err(r) => numbers::number(r),
    }
}

// How many of the places lent for walks a quotation is handed: none where the answer's are fewer than it needs. Then the quotation's own row for the places
// refuses it, after the plan's or the image's: a plan has a state, so no places are too few.
pub fn handed(walks: usize, out: usize, needed: usize) -> usize
    ensures { Handed walks out needed result }
{
    if out < needed { 0 } else { walks }
}
