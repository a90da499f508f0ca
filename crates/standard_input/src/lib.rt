// Standard input, read into a buffer; and a program that reads a packet there and prints a line of it: one that is told into a buffer, or (`displayed`) one
// that `{}` writes.

#![tactic(auto)]

ghost use Rattle.std.specs.Prelude.{◌≤◌, ◌≡◌, length, IfOk, OnOk};
ghost use Rattle.std.specs.Io.KnownBytes.{Appends};
ghost use Rattle.std.specs.Process.{exit_status};
ghost use Rattle.standard_input.specs.Steps.Input.{after_read, Fits, EndsAs};

use lines::Line;
use std::io;
use std::io::{Read, Write};
use std::ops::ControlFlow;
use std::process::ExitCode;

mod displayed;

pub use displayed::{print_line, run};

// The bytes of standard input that a program takes (RULES, Reading program; Judging).
const INPUT: usize = 8192;

// The room for a line.
const LINE: usize = 128;

// The bytes so far after a read that answered `got`, with `done` bytes before it: whether more may come, or these are all.
fn taken(done: usize, got: io::Result<usize>) -> io::Result<ControlFlow<usize, usize>>
    requires { Fits done got }
    ensures { result ≡ after_read done got }
{
    match got? {
        0 => Ok(ControlFlow::Break(done)),
        n => Ok(ControlFlow::Continue(done + n)),
    }
}

// Reads until the buffer is full, the input ends or a read fails; the bytes that were read.
pub fn read_input<R: Read>(reader: &mut R, buffer: &mut [u8]) -> io::Result<usize>
    ensures { IfOk result (λ n. n ≤ length buffer.new) }
{
    let mut done: usize = 0;
    while done < buffer.len() {
        match taken(done, reader.read(&mut buffer[done..]))? {
            ControlFlow::Continue(n) => done = n,
            ControlFlow::Break(whole) => return Ok(whole),
        }
    }
    Ok(done)
}

// Says on standard error what failed, under the program's name; the program then ends with 2.
fn failed(rt: &impl Eprint, program: &str, what: &str) -> ExitCode
    ensures { exit_status result ≡ 2 }
{
    let _ = eprintln!(rt; "{program}: {what}");
    ExitCode::from(2)
}

// Prints a line in one piece. It asks for no memory, and fails only where the writing does.
pub fn print_told<W: Write, L: Line>(out: &mut W, line: &L) -> io::Result<()>
    ensures { OnOk result (Appends (W.contents out.old) (W.contents out.new) (L.told line.now)) }
{
    let mut row = [0u8; LINE];
    let end = line.put(&mut row);
    out.write_all(&row[..end])
}

// Reads the packet at the front of the input and prints the line that is reported of it. The program ends with 0, or with 2 where a read fails, and
// then without a line, or where the line cannot be written.
pub fn run_with<R: Read, W: Write, L: Line + Drop, F: FnOnce(&[u8]) -> L>(
    input: &mut R,
    out: &mut W,
    errors: &impl Eprint,
    program: &str,
    report: F,
) -> ExitCode
    requires { F.IsAlwaysCallable report }
    ensures { EndsAs result }
{
    let mut packet = [0u8; INPUT];
    let Ok(got) = read_input(input, &mut packet) else {
        return failed(errors, program, "standard input cannot be read");
    };
    let line = report(&packet[..got]);
    if print_told(out, &line).is_err() {
        return failed(errors, program, "the line could not be written");
    }
    ExitCode::SUCCESS
}
