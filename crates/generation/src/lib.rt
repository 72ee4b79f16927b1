// Test plans: a plan made from a seed and nothing else, so that it is the same one everywhere.
#![tactic(auto)]

ghost use Rattle.std.specs.Prelude.{◌≤◌, ◌<◌, length};
ghost use Rattle.arrays.specs.Tables.{fields};
ghost use Rattle.generated.specs.Generated.{generate_rule};
ghost use Rattle.plan.specs.Promise.{Edit};
ghost use Rattle.plan.specs.View.{no_plan};
ghost use Rattle.generation.specs.Drawn.{Room, Added, Drawn};

use plan::{Edited, Plan};

// Draws transition i into its place.
fn add(
    ring: &mut [u32; 55],
    n: usize,
    i: usize,
    from: &mut [u16; 2048],
    to: &mut [u16; 2048],
    low: &mut [u16; 2048],
    high: &mut [u16; 2048],
)
    requires { (1 ≤ n) × (n ≤ 512) × (i < 2048) × (55 ≤ length ring.old) × Room (fields from.old to.old low.old high.old) }
    ensures { Added n i ring.old ring.new
        (fields from.old to.old low.old high.old)
        (fields from.new to.new low.new high.new) }
{
    let draws = generator::four(ring, i);
    let fields = drawing::transition(n, draws.first, draws.second, draws.third, draws.fourth);
    from[i] = fields.from;
    to[i] = fields.to;
    low[i] = fields.low;
    high[i] = fields.high;
}

// Draws the m transitions of a plan with n states.
fn transitions(
    seed: u32,
    n: usize,
    m: usize,
    from: &mut [u16; 2048],
    to: &mut [u16; 2048],
    low: &mut [u16; 2048],
    high: &mut [u16; 2048],
)
    requires { (1 ≤ n) × (n ≤ 512) × (m ≤ 2048) × Room (fields from.old to.old low.old high.old) }
    ensures { Drawn seed n m
        (fields from.old to.old low.old high.old)
        (fields from.new to.new low.new high.new) }
{
    let mut ring = generator::seeded(seed);
    for i in 0..m {
        add(&mut ring, n, i, from, to, low, high);
    }
}

// The plan of n states and m transitions that a seed makes. A refusal makes none: the plan value beside it has 0 states, all else zero.
pub fn generate(seed: u32, n: usize, m: usize) -> Edited
    ensures { Edit no_plan (generate_rule seed n m) 0 result }
{
    let answer = drawing::grounds(n, m);
    if let Err(_) = answer {
        let none = plan::fresh(0); // refused, with no plan beside it
        let plan = none.plan;
        return Edited {
            plan,
            answer,
            taken: 0,
        };
    }
    let marks = drawing::marks(n);
    let mut from = [0u16; 2048];
    let mut to = [0u16; 2048];
    let mut low = [0u16; 2048];
    let mut high = [0u16; 2048];
    transitions(seed, n, m, &mut from, &mut to, &mut low, &mut high);
    Edited {
        plan: Plan {
            states: n,
            transitions: m,
            marks,
            teams: [0u8; 512],
            from,
            to,
            low,
            high,
        },
        answer,
        taken: 0,
    }
}
