// What the programs share. A program ends with the status that says how: its launcher goes by it (programs/launch).
#![tactic(auto)]

ghost use Rattle.std.specs.Prelude.{◌≡◌, ℕ, ◌≤◌, ◌<◌, ◌^◌, length};
ghost use Rattle.rules.specs.declared.Refusal.TheVariants.{BufferLength};

use rules::Refusal;
use std::io::{ErrorKind, Print, Read};
use std::process::ExitCode;

// How a program ends: its answer printed; refused, where the answer is an image or a text; its input not read or its output not written; or its arguments none
// of those that it takes, and then the launcher says how it is used.
#[derive(Drop)]
pub enum Status {
    Answered,
    Refused,
    Faulty,
    Misused,
}

impl From<Status> for ExitCode {
    fn from(status: Status) -> ExitCode {
        match status {
            Status::Answered => ExitCode::SUCCESS,
            Status::Refused => ExitCode::from(1),
            Status::Faulty => ExitCode::from(2),
            Status::Misused => ExitCode::from(3),
        }
    }
}

// Ends with a line on standard error, which is lost where it cannot be written.
pub fn fault(rt: &HostRuntime, line: &[u8]) -> ExitCode {
    rt.stderr().write_all(line).ok();
    ExitCode::from(Status::Faulty)
}

// Reads standard input until the places are full, the input ends or a read fails, and says how many octets it put at their front.
pub fn read_full(rt: &HostRuntime, octets: &mut [u8]) -> usize
    ensures { result ≤ length octets.new }
{
    let mut input = rt.stdin();
    let mut done = 0;
    while done < octets.len() {
        match input.read(&mut octets[done..]) {
            Ok(0) => break,
            Ok(n) => done += n,
            Err(_) => break,
        }
    }
    done
}

// Whether standard input, of which n octets were read, holds that many or is known to hold enough. After a read that failed it is not at its end: the
// next one fails too, or finds more.
pub fn is_read(rt: &HostRuntime, n: usize, enough: usize) -> bool {
    if n >= enough {
        return true;
    }
    let mut more = [0u8; 1];
    matches!(rt.stdin().read(&mut more), Ok(0))
}

// Reads standard input, and ends as its octets are answered: all of them, or as many as ENOUGH where there are more. Where it cannot be read, the line is told.
pub fn run<const ENOUGH: usize, F: FnOnce(&[u8]) -> ExitCode>(
    rt: &HostRuntime,
    unread: &[u8],
    answer: F,
) -> ExitCode
    requires callable { F.IsAlwaysCallable answer }
    requires in_memory { ENOUGH < 2 ^ 63 }
{
    let mut octets = [0u8; ENOUGH];
    let n = read_full(rt, &mut octets);
    if !is_read(rt, n, ENOUGH) {
        return fault(rt, unread);
    }
    answer(&octets[..n])
}

// The status of a program whose reader has gone: that of one which SIGPIPE ended. The kit's output raises no signal, and the launcher does.
const READER_GONE: u8 = 141;

// Prints the answer and ends; with the line on standard error where it cannot be written.
pub fn answer(rt: &HostRuntime, text: &[u8], line: &[u8]) -> ExitCode {
    match rt.stdout().write_all(text) {
        Ok(()) => ExitCode::from(Status::Answered),
        Err(error) => {
            if error.kind() == ErrorKind::BrokenPipe {
                return ExitCode::from(READER_GONE);
            }
            fault(rt, line)
        }
    }
}

// The octets that the line of a refusal can need.
const REFUSED_ROOM: usize = 19;

// Ends with the line of a refusal on standard error.
fn refused(rt: &HostRuntime, refusal: Refusal) -> ExitCode {
    let mut buffer = [0u8; REFUSED_ROOM];
    let length = line::refused(&mut buffer, 0, numbers::number(refusal));
    rt.stderr().write_all(&buffer[..length]).ok();
    ExitCode::from(Status::Refused)
}

// Ends a program that prints an image or a text: with what was put at the front of the buffer, or with the refusal. The buffer has room for any answer, so
// 11 is never told.
pub fn written(
    rt: &HostRuntime,
    res: Result<usize, Refusal>,
    buffer: &[u8],
    line: &[u8],
) -> ExitCode
    requires within { (n : ℕ) → res ≡ Ok n → n ≤ length buffer.now }
    requires room { res ≡ Err BufferLength → ⊥ }
{
    match res {
        Ok(length) => answer(rt, &buffer[..length], line),
        Err(refusal) => refused(rt, refusal),
    }
}
