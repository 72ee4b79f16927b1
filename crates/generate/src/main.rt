// Reads a seed, a state count and a transition count on standard input, a line each, and prints the image of the plan that they make, or the number that it is
// refused by on standard error.
#![tactic(auto)]

use program::Status;
use std::process::ExitCode;

// The octets of the longest arguments that are answered, 393,216, and one more, by which longer ones are known: three lines of 131,072, as long as Linux hands on.
const ENOUGH: usize = 393_217;

// Prints the image of the plan that a seed makes.
fn print(rt: &HostRuntime, seed: u32, states: usize, transitions: usize) -> ExitCode {
    let mut buffer = [0u8; conversion::IMAGE_ROOM];
    let result = conversion::of_seed(seed, states, transitions, &mut buffer);
    program::written(
        rt,
        result,
        &buffer,
        b"generate: standard output cannot be written\n",
    )
}

// Answers the arguments: by an image, by a refusal, or by how the program is used.
fn answer(rt: &HostRuntime, octets: &[u8]) -> ExitCode {
    if octets.len() == ENOUGH {
        return program::fault(rt, b"generate: more than 393,216 octets of arguments\n");
    }
    match arguments::read(octets) {
        None => ExitCode::from(Status::Misused),
        Some(given) => print(rt, given.seed, given.states, given.transitions),
    }
}

fn main(rt: HostRuntime) -> ExitCode {
    program::run::<ENOUGH, _>(
        &rt,
        b"generate: standard input cannot be read\n",
        |octets| answer(&rt, octets),
    )
}
