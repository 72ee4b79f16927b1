// The octets that are to replace a plan, taken into arrays by what they are: an image or a text.
#![tactic(auto)]

ghost use Rattle.std.specs.Prelude.{◌≤◌, ◌<◌, ◌^◌, length};
ghost use Rattle.arrays.specs.Tables.{fields};
ghost use Rattle.text_lines.specs.Lines.{Room};
ghost use Rattle.replacement.specs.Take.{Takes};

use arrays::Counts;
use image::reading;
use rules::{Format, Refusal};

// Takes octets into arrays, where the plan that they are to replace is within the limits, adds the bits that are taken of an image to the count, and returns the counts of
// the states and transitions.
pub fn take(
    format: Format,
    limited: bool,
    octets: &[u8],
    taken: &mut usize,
    marks: &mut [u8; 512],
    teams: &mut [u8; 512],
    from: &mut [u16; 2048],
    to: &mut [u16; 2048],
    low: &mut [u16; 2048],
    high: &mut [u16; 2048],
) -> Result<Counts, Refusal>
    requires { (taken.old < 2 ^ 29) × (512 ≤ length marks.old) × (512 ≤ length teams.old) × Room (fields from.old to.old low.old high.old) }
    ensures { Takes format limited octets.now taken.old taken.new marks.new teams.new
        (fields from.new to.new low.new high.new) result }
{
    if !limited {
        return Err(Refusal::PlanLimits);
    }
    match format {
        Format::Image => reading::fill(octets, taken, marks, teams, from, to, low, high),
        Format::Text => imported::fill(octets, marks, teams, from, to, low, high),
    }
}
