// Reads a plan's text on standard input and prints the plan's image, or the number that the text is refused by on standard error.
#![tactic(auto)]

use std::process::ExitCode;

// The octets of the longest text that is answered, 1,048,576, and one more, by which a longer one is known: what it is refused by can depend on all of it.
const ENOUGH: usize = 1_048_577;

// Prints the image of the plan that a text holds.
fn print(rt: &HostRuntime, text: &[u8]) -> ExitCode {
    let mut buffer = [0u8; conversion::IMAGE_ROOM];
    let result = conversion::to_image(text, &mut buffer);
    program::written(
        rt,
        result,
        &buffer,
        b"import: standard output cannot be written\n",
    )
}

// Answers the octets that were read as a text, unless there are more than it can have.
fn answer(rt: &HostRuntime, octets: &[u8]) -> ExitCode {
    if octets.len() == ENOUGH {
        return program::fault(
            rt,
            b"import: more than 1,048,576 octets on standard input\n",
        );
    }
    print(rt, octets)
}

fn main(rt: HostRuntime) -> ExitCode {
    program::run::<ENOUGH, _>(
        &rt,
        b"import: standard input cannot be read\n",
        |octets| answer(&rt, octets),
    )
}
