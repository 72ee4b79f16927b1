// The words that test plans are drawn from: an additive lagged generator. Its last 55 words stand in a ring, word i in place i modulo 55.
#![tactic(auto)]

ghost use Rattle.std.specs.Prelude.{◌≡◌, ◌+◌, ◌%◌, ◌<◌, ◌≤◌, length};
ghost use Rattle.generator.specs.Ring.{Ring, Drawn, DrawsFour};

// Each of the first 55 words is the one before plus this.
const STEP: u32 = 0x9E37_79B9;

// Four draws, in their order.
#[derive(Drop)]
pub struct Draws {
    pub first: u32,
    pub second: u32,
    pub third: u32,
    pub fourth: u32,
}

// The ring of a seed: its first 55 words.
pub fn seeded(seed: u32) -> [u32; 55]
    ensures { Ring seed 0 result }
{
    let mut ring = [0u32; 55];
    ring[0] = seed;
    for i in 1..55 {
        ring[i] = ring[i - 1].wrapping_add(STEP);
    }
    ring
}

// A draw, at the place of the oldest word: the word 24 back plus the word 55 back, which it takes the place of.
fn draw(ring: &mut [u32; 55], at: usize) -> u32
    requires { (at < 55) × (55 ≤ length ring.old) }
    ensures { Drawn at ring.old ring.new result }
{
    let word = ring[(at + 31) % 55].wrapping_add(ring[at]);
    ring[at] = word;
    word
}

// The place after another. A division here would be a third of the time.
fn after(at: usize) -> usize
    requires { at < 55 }
    ensures { result ≡ (at + 1) % 55 }
{
    if at < 54 { at + 1 } else { 0 }
}

// The four draws of transition i.
pub fn four(ring: &mut [u32; 55], i: usize) -> Draws
    requires { (i < 2048) × (55 ≤ length ring.old) }
    ensures { DrawsFour i ring.old ring.new result }
{
    let one = 4 * i % 55;
    let two = after(one);
    let three = after(two);
    let four = after(three);
    let first = draw(ring, one);
    let second = draw(ring, two);
    let third = draw(ring, three);
    let fourth = draw(ring, four);
    Draws {
        first,
        second,
        third,
        fourth,
    }
}
