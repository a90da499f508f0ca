// A line displayed, and a program that reports so, called: that they succeed, and what comes out.

use super::*;
use std::alloc::Global;
use std::io::{BufRead, Lines};
use std::test::Fail;

// Bytes that come, and whether the read behind them fails.
#[derive(Clone, Copy)]
struct Coming<'a> {
    bytes: &'a [u8],
    fails: bool,
}

impl Read for Coming<'_> {
    fn read(&mut self, buf: &mut [u8]) -> io::Result<usize> {
        if self.fails && self.bytes.len() == 0 {
            return Err(io::Error::from(io::ErrorKind::Interrupted));
        }
        self.bytes.read(buf)
    }
}

impl BufRead for Coming<'_> {
    fn fill_buf(&mut self) -> io::Result<&[u8]> {
        Ok(self.bytes)
    }

    fn consume(&mut self, amount: usize) {
        self.bytes.consume(amount);
    }
}

// Input that is known, and a line that is to come in one piece: any other cannot be written.
#[derive(Drop)]
struct Known<'a> {
    rt: &'a HostRuntime,
    input: Coming<'a>,
    wanted: &'a [u8],
}

impl<'a> Input for Known<'a> {
    type Reader = Coming<'a>;

    fn read_line<A: Allocator + Clone>(&self, buf: &mut String<A>) -> io::Result<usize> {
        self.reader().read_line(buf)
    }

    fn lines<A: Allocator>(&self, alloc: A) -> Lines<Coming<'a>, A> {
        self.reader().lines(alloc)
    }

    fn reader(&self) -> Coming<'a> {
        self.input
    }
}

impl Print for Known<'_> {
    fn print<D: fmt::Display + Drop>(&self, value: D) -> io::Result<()> {
        let text = value.to_string(self.alloc())?;
        self.write_all(text.as_bytes())
    }

    fn println<D: fmt::Display + Drop>(&self, value: D) -> io::Result<()> {
        self.print(value)?;
        self.write_all(b"\n")
    }

    fn write_all(&self, bytes: &[u8]) -> io::Result<()> {
        if bytes == self.wanted {
            return Ok(());
        }
        Err(io::Error::from(io::ErrorKind::InvalidData))
    }
}

impl Eprint for Known<'_> {
    fn eprint<D: fmt::Display + Drop>(&self, _value: D) -> io::Result<()> {
        Ok(())
    }

    fn eprintln<D: fmt::Display + Drop>(&self, _value: D) -> io::Result<()> {
        Ok(())
    }
}

impl Alloc for Known<'_> {
    type A = Global;

    fn alloc(&self) -> Global {
        self.rt.alloc()
    }
}

#[test]
fn a_displayed_line_comes_whole(rt: HostRuntime) -> Result<(), Fail> {
    let mut out = vec![in rt.alloc(); b'>']?;
    print_line(&mut out, rt.alloc(), "refused 1\n")?;
    assert_eq!(rt; out.as_slice(), b">refused 1\n".as_slice());
    Ok(())
}

#[test]
fn a_program_prints_what_is_reported(rt: HostRuntime) {
    let more = [7u8; INPUT + 1];
    let cases: [(&[u8], bool, &[u8], u8); 7] = [
        (b"", false, b"0", 0),
        (b"abc", false, b"3", 0),
        (&more, false, b"8192", 0),
        (b"abc", false, b"4", 2),
        (b"abc", false, b"3\n", 2),
        (b"", true, b"0", 2),
        (b"abc", true, b"3", 2),
    ];
    for (bytes, fails, wanted, status) in cases {
        let known = Known {
            rt: &rt,
            input: Coming { bytes, fails },
            wanted,
        };
        let ended = run(&known, "test", |packet| packet.len());
        assert_eq!(rt; ended, ExitCode::from(status));
    }
}
