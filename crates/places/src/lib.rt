// Places of a plan's arrays: moved down by one, and laid over others.
#![tactic(auto)]

ghost use Rattle.std.specs.Prelude.{◌≡◌, suc, ◌-◌, ◌≤◌, ◌<◌, length, drop};
ghost use Rattle.std.proofs.Math.Seq.{paste};

// The places after number, up to the first m, move down by one.
pub fn remove(places: &mut [u16; 2048], number: usize, m: usize)
    requires { (number < m) × (m ≤ length places.old) × (m ≤ 2048) }
    ensures { places.new ≡ paste places.old number (drop (suc number) places.old) (m - suc number) }
{
    places.copy_within(number + 1..m, number);
}

// Lays the first k of some places over the first k of others.
pub fn lay<T: Copy>(places: &mut [T], over: &[T], k: usize)
    requires { (k ≤ length places.old) × (k ≤ length over.now) }
    ensures { places.new ≡ paste places.old 0 over.now k }
{
    places[..k].copy_from_slice(&over[..k]);
}
