// The arguments of generate, read from lent octets: a seed, a state count and a transition count, each as a decimal number with a line feed after it.
#![tactic(auto)]

ghost use Rattle.std.specs.Prelude.{◌≡◌, ◌≤◌, length, MatchOption};
ghost use Rattle.aldebaran.specs.Form.{off};
ghost use Rattle.scan.specs.Places.{Tells};
ghost use Rattle.arguments.specs.Arguments.{decimal_then, argument_then, arguments_in};

use scan::Taken;

// The greatest seed: it has 32 bits.
const GREATEST_SEED: usize = 4_294_967_295;

// The three numbers, the first of which is a seed.
#[derive(Drop)]
pub struct Arguments {
    pub seed: u32,
    pub states: usize,
    pub transitions: usize,
}

// Reads a number, of one digit or more.
fn decimal(octets: &[u8], at: usize) -> Option<Taken>
    requires { at ≤ length octets.now }
    ensures { MatchOption result (decimal_then octets.now at ≡ off)
        (Tells octets.now (decimal_then octets.now at)) }
{
    let read = scan::digits(octets, at);
    if read.next <= at {
        return None;
    }
    Some(read)
}

// Reads a number and the line feed after it.
fn argument(octets: &[u8], at: usize) -> Option<Taken>
    requires { at ≤ length octets.now }
    ensures { MatchOption result (argument_then octets.now at ≡ off)
        (Tells octets.now (argument_then octets.now at)) }
{
    let number = decimal(octets, at)?;
    Some(Taken {
        value: number.value,
        next: scan::word(octets, number.next, b"\n")?,
    })
}

// Reads the three arguments, and looks whether that is all. It is none where they are something else, and then it is to be said how the program is used.
pub fn read(octets: &[u8]) -> Option<Arguments>
    ensures { result ≡ arguments_in octets.now }
{
    let seed = argument(octets, 0)?;
    let states = argument(octets, seed.next)?;
    let transitions = argument(octets, states.next)?;
    if transitions.next < octets.len() || seed.value > GREATEST_SEED {
        return None;
    }
    Some(Arguments {
        seed: seed.value as u32,
        states: states.value,
        transitions: transitions.value,
    })
}
