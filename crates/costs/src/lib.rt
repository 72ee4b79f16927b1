// The cost of a figure as weights: one for each transition, and a close for each state, which the last state of a route adds.
//
// A greatest figure is searched over the costs themselves: scale 1 and extra 0. A least one is searched over SCALE and extra 1, where each
// transition weighs something: a route that visits no state twice, but perhaps its first as its last, has at most 512 transitions, so the figure is what is
// found, divided by SCALE.
#![tactic(auto)]

ghost use Rattle.std.specs.Prelude.{◌≡◌, ℕ, ◌*◌, ◌≤◌, ◌<◌, get_or};
ghost use Rattle.graph.specs.Route.{limit as limitOf, seconds as secondsOf, one};
ghost use Rattle.costs.specs.Arrays.{Filled, counts_in, low_weight, high_weight, leaving_weight, count_close, no_weight, no_close};
ghost use Rattle.costs.specs.Scaled.{scale as scale_of};

use graph::{Asked, Duration};

// What a least figure's costs are multiplied by.
pub const SCALE: u32 = 1024;

// Whether a state with this marks value and team counts.
fn counts(asked: Asked, value: u8, team: u8) -> bool
    ensures { result ≡ counts_in asked value team }
{
    match asked {
        Asked::One(_) => search::is_counted(value),
        Asked::LeastCountFor(named) | Asked::GreatestCountFor(named) => {
            classes::same_class(usize::from(team), named)
        }
    }
}

// The high of a transition: no limit where it is 2,047.
pub fn limit(high: u16) -> Duration
    ensures { result ≡ limitOf high }
{
    if high == 2047 {
        Duration::Open
    } else {
        Duration::Seconds(high)
    }
}

// What a high adds to a sum: nothing where it is open, since no sum is quoted where an open transition is reached.
fn seconds(high: u16) -> u32
    ensures { result ≡ secondsOf (limitOf high) }
{
    match limit(high) {
        Duration::Seconds(x) => u32::from(x),
        Duration::Open => 0,
    }
}

// Fills the weights of the first m transitions from their highs.
pub fn fill_highs(high: &[u16; 2048], m: usize, weight: &mut [u32; 2048])
    requires { (m ≤ 2048) × (weight.old ≡ no_weight) }
    ensures { Filled m (high_weight high.now) weight.new }
{
    for t in 0..m {
        weight[t] = seconds(high[t]);
    }
}

// Fills the weights of the first m transitions from their lows.
pub fn fill_lows(low: &[u16; 2048], m: usize, scale: u32, extra: u32, weight: &mut [u32; 2048])
    requires { (m ≤ 2048) × (scale ≤ scale_of) × (extra ≤ 1) × ((t : ℕ) → t < m → get_or low.now t 0 ≤ 2047) × (weight.old ≡ no_weight) }
    ensures { Filled m (low_weight scale extra low.now) weight.new }
{
    for t in 0..m {
        weight[t] = scale * u32::from(low[t]) + extra;
    }
}

// The close of such a state: the scale where it counts.
fn close_of(asked: Asked, value: u8, team: u8, scale: u32) -> u32
    ensures { result ≡ scale * one (counts_in asked value team) }
{
    if counts(asked, value, team) { scale } else { 0 }
}

// Fills the closes of the first n states.
pub fn fill_closes<'a>(
    asked: Asked,
    marks: &'a [u8; 512],
    teams: &'a [u8; 512],
    n: usize,
    scale: u32,
    close: &mut [u32; 512],
)
    requires { (n ≤ 512) × (close.old ≡ no_close) }
    ensures { Filled n (count_close asked scale marks.now teams.now) close.new }
{
    for s in 0..n {
        close[s] = close_of(asked, marks[s], teams[s], scale);
    }
}

// Fills the weights of the first m transitions from the closes of the states that they leave.
pub fn fill_leaving<'a>(
    close: &'a [u32; 512],
    from: &'a [u16; 2048],
    m: usize,
    extra: u32,
    weight: &mut [u32; 2048],
)
    requires { (m ≤ 2048) × (extra ≤ 1) × ((s : ℕ) → get_or close.now s 0 ≤ scale_of) × ((t : ℕ) → t < m → get_or from.now t 0 < 512) × (weight.old ≡ no_weight) }
    ensures { Filled m (leaving_weight extra close.now from.now) weight.new }
{
    for t in 0..m {
        weight[t] = close[usize::from(from[t])] + extra;
    }
}
