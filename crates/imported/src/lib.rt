// A plan's text, read into the arrays that hold its marks, teams and transitions. It is gone over once: the form decides first, so the first ground of another kind is kept until
// the end of the text was seen.
#![tactic(auto)]

ghost use Rattle.std.specs.Prelude.{◌≡◌, ◌≤◌, ◌<◌, length};
ghost use Rattle.rules.specs.Aldebaran.{first_rows};
ghost use Rattle.rules.specs.Refusal.{said};
ghost use Rattle.rules.specs.Table.{first};
ghost use Rattle.arrays.specs.Tables.{fields};
ghost use Rattle.text_lines.specs.Lines.{Room};
ghost use Rattle.imported.specs.Import.{Marked, Imports};

use arrays::{Counts, START, limits};
use rules::Refusal;

// The grounds of the first line, in their order.
fn first_grounds(initial: usize, m: usize, n: usize) -> Result<(), Refusal>
    ensures { said result ≡ first (first_rows initial m n) }
{
    if !limits::state_count_ok(n) {
        return Err(Refusal::StateCount); // 4
    }
    if 2048 < m {
        return Err(Refusal::TransitionCount); // 5
    }
    if n <= initial {
        return Err(Refusal::StateNumber); // 7
    }
    Ok(())
}

// Marks the initial state as start, and no other of the n states; every team is 0.
fn mark_initial(marks: &mut [u8; 512], teams: &mut [u8; 512], n: usize, initial: usize)
    requires { (512 ≤ length marks.old) × (512 ≤ length teams.old) × (n ≤ 512) × (initial < n) }
    ensures { Marked n initial marks.new teams.new }
{
    marks[..n].fill(0);
    teams[..n].fill(0);
    marks[initial] = START;
}

// Reads a text into arrays, and returns the counts of the states and transitions.
pub fn fill(
    text: &[u8],
    marks: &mut [u8; 512],
    teams: &mut [u8; 512],
    from: &mut [u16; 2048],
    to: &mut [u16; 2048],
    low: &mut [u16; 2048],
    high: &mut [u16; 2048],
) -> Result<Counts, Refusal>
    requires { (512 ≤ length marks.old) × (512 ≤ length teams.old) × Room (fields from.old to.old low.old high.old) }
    ensures { Imports text.now marks.new teams.new
        (fields from.new to.new low.new high.new) result }
{
    let heading = text_reading::read_first(text).ok_or(Refusal::TextForm)?;
    let initial = heading.initial;
    let m = heading.transitions;
    let n = heading.states;
    let grounds = first_grounds(initial, m, n);
    let lines = text_lines::lines(text, heading.next, grounds, n, m, from, to, low, high);
    let listed = lines.ok_or(Refusal::TextForm)?;
    let end = listed.next;
    if end < text.len() {
        return Err(Refusal::TextForm);
    }
    listed.answer?;
    mark_initial(marks, teams, n, initial);
    Ok(Counts {
        states: n,
        transitions: m,
    })
}
