// Export: the text of a plan, put at the front of a lent buffer.
#![tactic(auto)]

ghost use Rattle.rules.specs.Aldebaran.{export_text, export_rule};
ghost use Rattle.rules.specs.Quotations.{Write};
ghost use Rattle.arrays.specs.Tables.{graph_in_arrays};

use arrays::Plan;
use rules::Refusal;

// Puts the text at the front of the buffer, and returns its length.
pub fn export(p: &Plan, buffer: &mut [u8]) -> Result<usize, Refusal>
    ensures { Write (export_text (graph_in_arrays p.now)) (export_rule (graph_in_arrays p.now) buffer.old)
        buffer.old buffer.new result }
{
    let limited = plan_limits::in_limits(p);
    if !limited {
        return Err(Refusal::PlanLimits);
    }
    let starts = starts::count(p);
    let count = starts.count;
    if count != 1 {
        return Err(Refusal::StartCount);
    }
    let initial = starts.last;
    let length = text_length::length(initial, p);
    if buffer.len() < length {
        return Err(Refusal::BufferLength);
    }
    text_writing::text(buffer, initial, p);
    Ok(length)
}
