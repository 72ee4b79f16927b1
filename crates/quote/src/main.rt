// Reads an image on standard input and prints its four figures with their walks, or the number that it is refused by.
#![tactic(auto)]

use program::Status;
use std::process::ExitCode;

// The octets of the longest image, 10,756, and one more, which says all that read has to know of a longer input.
const ENOUGH: usize = 10_757;

// Prints what the octets are answered by. The buffer has the room that any answer needs, so it is never refused.
fn print(rt: &HostRuntime, octets: &[u8]) -> ExitCode {
    let mut buffer = [0u8; lines::ROOM];
    let answer = lines::answer(octets, &mut buffer);
    match answer {
        Ok(length) => program::answer(
            rt,
            &buffer[..length],
            b"quote: standard output cannot be written\n",
        ),
        Err(_) => ExitCode::from(Status::Faulty),
    }
}

fn main(rt: HostRuntime) -> ExitCode {
    program::run::<ENOUGH, _>(
        &rt,
        b"quote: standard input cannot be read\n",
        |octets| print(&rt, octets),
    )
}
