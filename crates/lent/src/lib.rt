// Quotations of the plan that three lent slices hold, with their answers in lent places, and fillings of a lent buffer: each one function, by an index. A call answers
// a refusal by its number and 256 for accepted, a filling 256 plus the octets' number, and 255 where the slices are too short to hold a plan.
#![tactic(auto)]

ghost use Rattle.plan.specs.View.{view};
ghost use Rattle.rules.specs.Quotations.{Write};
ghost use Rattle.slices.specs.Lent.{slices};
ghost use Rattle.lent.specs.Quoted.{LentQuote, LentQuotes};
ghost use Rattle.lent.specs.Written.{LentFill, octets_of, rule_of};

use graph::Asked;
use plan::Plan;
use rules::Refusal;

// What is put into a lent buffer: the plan's image, the record of its figures, or the plan's text.
#[derive(Drop)]
pub enum Content {
    Image,
    Record,
    Text,
}

// Puts a content of a plan at the front of the buffer.
fn put(content: Content, plan: Plan, buffer: &mut [u8]) -> Result<usize, Refusal>
    ensures { Write (octets_of content (view plan)) (rule_of content (view plan) buffer.old)
        buffer.old buffer.new result }
{
    match content {
        Content::Image => plan::write(plan, buffer),
        Content::Record => quotation::record(plan, buffer),
        Content::Text => plan::export(plan, buffer),
    }
}

// Puts a content of the plan that lent slices hold at the front of the buffer.
pub fn fill(
    content: Content,
    counts: &[usize],
    states: &[u8],
    fields: &[u16],
    buffer: &mut [u8],
) -> u32
    ensures { LentFill content (slices counts.now states.now fields.now)
        buffer.old buffer.new result }
{
    if !slices::has_room(counts.len(), states.len(), fields.len()) {
        return 255;
    }
    let written = put(content, slices::load(counts, states, fields), buffer);
    match written {
        Ok(n) => 256 + n as u32,
        Err(r) => numbers::number(r),
    }
}

// One quotation of the plan that lent slices hold.
pub fn quote(
    asked: Asked,
    counts: &[usize],
    states: &[u8],
    fields: &[u16],
    walk: &mut [u16],
    out: &mut [u32],
) -> u32
    ensures { LentQuote asked
        (slices counts.now states.now fields.now)
        walk.old walk.new out.old out.new result }
{
    if !slices::has_room(counts.len(), states.len(), fields.len()) {
        return 255;
    }
    let end = answers::handed(walk.len(), out.len(), 4);
    let plan = slices::load(counts, states, fields);
    let quotation = quotation::quote(asked, plan, &mut walk[..end]);
    answers::one(quotation, out)
}

// Reads an image, and quotes all four figures of its plan. The walks have 512 places each, the figures four.
pub fn held(octets: &[u8], walks: &mut [u16], out: &mut [u32]) -> u32
    ensures { LentQuotes octets.now walks.old walks.new out.old out.new result }
{
    let end = answers::handed(walks.len(), out.len(), 16);
    let held = quotation::held(octets, &mut walks[..end]);
    let quotations = held.quotations;
    answers::four(quotations, out)
}
