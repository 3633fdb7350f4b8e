// The acceptance report of document 02, L12: trials from standard input, the report to standard output. What is lost on
// the way is said on standard error: nothing is printed of an input that could not be read to its end.
#![tactic(auto)]

ghost use Rattle.std.specs.Prelude.{◌+◌, ◌≤◌, ◌≡◌, length, IfOk};

use std::io;
use std::io::{Lock, Read, Write};

// Room for more than the longest good input, 1,000 lines of 10 bytes. The report of the first 16,384 bytes is that of
// all, however many there are: `front_is_enough` of crate `report_rules`.
fn input_room() -> [u8; 16384]
    ensures { 16384 ≡ length result }
{
    [0; 16384]
}

fn main(rt: HostRuntime) {
    let mut input = input_room();
    match read_input(&mut rt.reader(), &mut input) {
        Ok(n) => print_report(&rt, &input[..n]),
        Err(_) => complain(&rt, b"report: input lost\n"),
    }
}

// One read behind the bytes that are there: how many came, and 0 at the end of input.
fn read_behind(reader: &mut impl Read, input: &mut [u8], done: usize) -> io::Result<usize>
    requires { done ≤ length input.old }
    ensures { IfOk result (λ n. done + n ≤ length input.old) }
{
    reader.read(&mut input[done..])
}

// Up to the end of input or of the room. (`read_to_end` would ask for memory.)
// (a) No `read_to_end`: it would ask for memory. (d) No `for`: the place moves by what was read.
fn read_input(reader: &mut impl Read, input: &mut [u8]) -> io::Result<usize>
    ensures { IfOk result (λ n. n ≤ length input.old) }
{
    let mut done = 0;
    while done < input.len() {
        let more = read_behind(reader, input, done)?;
        if more == 0 {
            return Ok(done);
        }
        done += more;
    }
    Ok(done)
}

// The room that the report asks for.
fn print_report(rt: &HostRuntime, input: &[u8]) {
    let mut out = [0u8; 4096];
    if let Ok(used) = report_call::report(input, &mut out) {
        write_text(rt, &out[..used.min(out.len())]);
    }
}

fn write_text(rt: &HostRuntime, text: &[u8]) {
    if rt.stdout().lock().write_all(text).is_err() {
        complain(rt, b"report: output lost\n");
    }
}

// A message on standard error. If that is lost too, nobody is left to tell.
fn complain(rt: &HostRuntime, message: &[u8]) {
    let _ = rt.stderr().lock().write_all(message);
}
