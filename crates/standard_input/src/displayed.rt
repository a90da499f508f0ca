// A line printed as `{}` writes it, and a program that reports so, for what is no `Line`. Both ask for memory: where there is none, there is no line.

ghost use Rattle.std.specs.Prelude.{OnOk, IfSome};
ghost use Rattle.std.specs.Io.KnownBytes.{Appends};
ghost use Rattle.standard_input.specs.Steps.Input.{EndsAs};

use super::{INPUT, failed, read_input};
use std::alloc::Allocator;
use std::io::{Read, Write};
use std::process::ExitCode;
use std::{fmt, io};

// Prints a line in one piece: what `{}` writes of it. It fails where the writing does, where there is no memory for the line, and where formatting it fails.
pub fn print_line<W: Write, A: Allocator, D: fmt::Display + Drop>(
    out: &mut W,
    alloc: A,
    line: D,
) -> io::Result<()>
    ensures { OnOk result (IfSome (D.output line) (Appends (W.contents out.old) (W.contents out.new))) }
{
    let text = line.to_string(alloc)?;
    out.write_all(text.as_bytes())
}

// Reads the packet at the front of standard input and prints the line that is reported of it. The program ends with 0, or with 2 where a read fails, and
// then without a line, or where the line cannot be written, for want of memory too.
pub fn run<D: fmt::Display + Drop, F: FnOnce(&[u8]) -> D>(
    rt: &(impl Input + Print + Eprint + Alloc),
    program: &str,
    report: F,
) -> ExitCode
    requires { F.IsAlwaysCallable report }
    ensures { EndsAs result }
{
    let mut packet = [0u8; INPUT];
    let Ok(got) = read_input(&mut rt.reader(), &mut packet) else {
        return failed(rt, program, "standard input cannot be read");
    };
    let line = report(&packet[..got]);
    if print_line(&mut io::writer(rt), rt.alloc(), line).is_err() {
        return failed(rt, program, "the line could not be written");
    }
    ExitCode::SUCCESS
}

#[cfg(test)]
mod tests;
