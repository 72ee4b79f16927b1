// A list of calls, lent as slices of numbers, made in turn on the plan that three more lent slices hold.
#![tactic(auto)]

ghost use Rattle.calls.specs.Slices.{calls_in};
ghost use Rattle.slices.specs.Lent.{Roomy, slices};
ghost use Rattle.runs.specs.Turns.{Callable, LentTurns};

// The calls of a list in turn, each on the plan that the one before it left in the slices. Each answer goes to its place.
pub fn in_turn(
    kinds: &[u8],
    arguments: &[usize],
    octets: &[u8],
    counts: &mut [usize],
    states: &mut [u8],
    fields: &mut [u16],
    answers: &mut [u32],
)
    requires { Callable kinds.now arguments.now octets.now answers.old × Roomy counts.old states.old fields.old }
    ensures { LentTurns (calls_in kinds.now arguments.now octets.now)
        answers.old answers.new
        (slices counts.old states.old fields.old)
        (slices counts.new states.new fields.new) }
{
    for turn in 0..kinds.len() {
        answers[turn] = item::obey(turn, kinds, arguments, octets, counts, states, fields);
    }
}
