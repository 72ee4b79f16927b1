// Write: the image of a plan, put at the front of a lent buffer.
#![tactic(auto)]

ghost use Rattle.rules.specs.Image.{image};
ghost use Rattle.rules.specs.Quotations.{Write};
ghost use Rattle.rules.specs.Rules.{write_rule};
ghost use Rattle.arrays.specs.Tables.{graph_in_arrays};

use arrays::Plan;
use rules::Refusal;

// Puts the image at the front of the buffer, and returns its length.
pub fn write(p: &Plan, buffer: &mut [u8]) -> Result<usize, Refusal>
    ensures { Write (image (graph_in_arrays p.now)) (write_rule (graph_in_arrays p.now) buffer.old)
        buffer.old buffer.new result }
{
    let limited = plan_limits::in_limits(p);
    if !limited {
        return Err(Refusal::PlanLimits);
    }
    let length = header_grounds::size(p.states, p.transitions);
    if buffer.len() < length {
        return Err(Refusal::BufferLength);
    }
    writing::header(buffer, p.states, p.transitions);
    writing::states(buffer, p);
    writing::transitions(buffer, p);
    Ok(length)
}
