//! Prints the boundaries of a text on standard input, each on a line of its own, or its lines, wrapped to columns.
#![tactic(auto)]

ghost use Rattle.std.specs.Prelude.{◌≡◌, ◌↔◌};
ghost use Rattle.textcut.specs.Command.{texts};
ghost use Rattle.textcut.specs.Request.{IsNoRequest};

mod arguments;
mod command;
mod failure;
mod lines;
mod request;
mod run;
mod wrapped;

use arguments::{LONGEST, two_words};
use failure::Failure;
use request::request_of;
use std::io::BufWriter;
use std::process::ExitCode;

// Room for some thousands of lines, so that few writes reach the system.
const OUTPUT_CAPACITY: usize = 65536;

fn main(rt: HostRuntime) -> ExitCode {
    let (mut first, mut second) = ([0; LONGEST], [0; LONGEST]);
    let status = match two_words(&rt, &mut first, &mut second) {
        Some((first, second)) => start(&rt, &[first, second]),
        None => Failure::Usage.report(&mut rt.stderr()),
    };
    ExitCode::from(status)
}

// Runs the program on the standard streams. It looks at the words before it asks for any memory, so that wrong ones always end with status 2.
fn start(rt: &HostRuntime, words: &[&str]) -> u8
    ensures usage { result ≡ 2 ↔ IsNoRequest (texts words.now) }
{
    let Some(request) = request_of(words) else {
        return Failure::Usage.report(&mut rt.stderr());
    };
    let alloc = rt.alloc();
    match BufWriter::with_capacity(alloc, OUTPUT_CAPACITY, rt.stdout()) {
        Ok(mut out) => run::run(alloc, request, &mut rt.stdin(), &mut out, &mut rt.stderr()),
        Err(_) => Failure::NoMemory.report(&mut rt.stderr()),
    }
}
