// The data of a packet handed to its decoder: one section as the part of the packet where it lies, without a copy; several, which do not lie in one piece,
// joined on the stack. Open data needs no decoder: its sections, one or several, are joined right in the text buffer.

#![tactic(auto)]

ghost use Rattle.std.specs.Prelude.{◌++◌, ◌≡◌, ◌≤◌, length, drop};
ghost use Rattle.codes.specs.Steps.Measure.{TakesApart};
ghost use Rattle.formats.specs.Data.{CarriesIn, UnreadableAfter};
ghost use Rattle.formats.specs.Steps.Text.{HasRoom, PutsText};
ghost use Rattle.sections.specs.Sections.{sent_length, joined};

use codes::{Extent, Outcome};
use header::Format;
use sections::Section;

// Several sections taken apart.
fn take_apart_joined(format: Format, n: usize, came: &[u8]) -> Outcome
    requires { (n ≤ 16000) × (sent_length n ≤ length came.now) }
    ensures { TakesApart (CarriesIn format (joined n came.now)) (UnreadableAfter format (joined n came.now)) n result }
{
    let mut data = [0u8; Section::ALL];
    sections::join(n, came, &mut data);
    formats::take_apart(format, &data[..n])
}

// The n data bytes that came in sections taken apart.
pub fn take_apart(format: Format, n: usize, came: &[u8]) -> Outcome
    requires { (n ≤ 16000) × (sent_length n ≤ length came.now) }
    ensures { TakesApart (CarriesIn format (joined n came.now)) (UnreadableAfter format (joined n came.now)) n result }
{
    if format == Format::Open {
        return Ok(Extent {
            characters: n,
            codes: 0,
        });
    }
    if Section::MOST < n {
        return take_apart_joined(format, n, came);
    }
    formats::take_apart(format, &came[..n])
}

// Open data, which is the text, at the front of the buffer; its length.
fn put_open(n: usize, came: &[u8], out: &mut [u8]) -> usize
    requires { (n ≤ 16000) × (sent_length n ≤ length came.now) × (n ≤ length out.old) }
    ensures { (result ≡ n) × (out.new ≡ joined n came.now ++ drop n out.old) }
{
    if Section::MOST < n {
        sections::join(n, came, out);
        return n;
    }
    rows::copy(&came[..n], out)
}

// The text of several sections, at the front of the buffer; its length.
fn put_text_joined(format: Format, n: usize, came: &[u8], out: &mut [u8]) -> usize
    requires { (n ≤ 16000) × (sent_length n ≤ length came.now) × HasRoom format (joined n came.now) (length out.old) }
    ensures { PutsText format (joined n came.now) out.old out.new result }
{
    let mut data = [0u8; Section::ALL];
    sections::join(n, came, &mut data);
    formats::put_text(format, &data[..n], out)
}

// The text of the n data bytes that came in sections, at the front of the buffer; its length.
pub fn put_text(format: Format, n: usize, came: &[u8], out: &mut [u8]) -> usize
    requires { (n ≤ 16000) × (sent_length n ≤ length came.now) × HasRoom format (joined n came.now) (length out.old) }
    ensures { PutsText format (joined n came.now) out.old out.new result }
{
    if format == Format::Open {
        return put_open(n, came, out);
    }
    if Section::MOST < n {
        return put_text_joined(format, n, came, out);
    }
    formats::put_text(format, &came[..n], out)
}
