// A test plan's grounds, its marks, and the transition that four draws make.
#![tactic(auto)]

ghost use Rattle.std.specs.Prelude.{◌≤◌, ◌≡◌};
ghost use Rattle.generated.specs.Generated.{transition_from, generate_rows};
ghost use Rattle.rules.specs.Refusal.{said};
ghost use Rattle.rules.specs.Table.{first};
ghost use Rattle.drawing.specs.Drawing.{meant, Marked};

use arrays::limits;
use rules::Refusal;

// The grounds of a test plan with n states and m transitions, in their order.
pub fn grounds(n: usize, m: usize) -> Result<(), Refusal>
    ensures { said result ≡ first (generate_rows n m) }
{
    if !limits::state_count_ok(n) {
        return Err(Refusal::StateCount);
    }
    if 2048 < m {
        return Err(Refusal::TransitionCount);
    }
    Ok(())
}

// A transition, as the arrays hold it.
#[derive(Drop)]
pub struct Fields {
    pub from: u16,
    pub to: u16,
    pub low: u16,
    pub high: u16,
}

// The transition that four draws make in a plan with n states.
pub fn transition(n: usize, from: u32, to: u32, low: u32, high: u32) -> Fields
    requires { (1 ≤ n) × (n ≤ 512) }
    ensures { meant result ≡ transition_from n from to low high }
{
    let count = n as u32;
    let least = low % 2048;
    let more = high % (2048 - least);
    Fields {
        from: (from % count) as u16,
        to: (to % count) as u16,
        low: least as u16,
        high: (least + more) as u16,
    }
}

// The marks values of n states: the last is final and the first start, which may be the same.
pub fn marks(n: usize) -> [u8; 512]
    requires { (1 ≤ n) × (n ≤ 512) }
    ensures { Marked n result }
{
    let mut marks = [0u8; 512];
    marks[n - 1] = 2;
    let first = marks[0];
    marks[0] = first + 4;
    marks
}
