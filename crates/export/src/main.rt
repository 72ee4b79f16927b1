// Reads a plan's image on standard input and prints the plan's text, or the number that the image is refused by on standard error.
#![tactic(auto)]

use std::process::ExitCode;

// The octets of the longest image, and one more, which says all that read has to know of a longer input.
const ENOUGH: usize = 10_757;

// Prints the text of the plan that an image holds.
fn print(rt: &HostRuntime, image: &[u8]) -> ExitCode {
    let mut buffer = [0u8; conversion::TEXT_ROOM];
    let result = conversion::to_text(image, &mut buffer);
    program::written(
        rt,
        result,
        &buffer,
        b"export: standard output cannot be written\n",
    )
}

fn main(rt: HostRuntime) -> ExitCode {
    program::run::<ENOUGH, _>(
        &rt,
        b"export: standard input cannot be read\n",
        |octets| print(&rt, octets),
    )
}
