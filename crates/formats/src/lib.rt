// What all formats do: characters without a code found, data measured and written, data taken apart and its text put into a buffer. The format picks the
// format's own function; in Open Binary each byte is its own. The writer's are picked by the format's number, the lower two first: of a match of five LLVM
// makes a table of places to go to, and a logger has no room for one.

#![tactic(auto)]

ghost use Rattle.std.specs.Prelude.{◌≡◌, ◌≤◌, ◌<◌, length, take, get_or};
ghost use Rattle.bits.specs.Says.{Says};
ghost use Rattle.codes.specs.Steps.Laid.{Fronted};
ghost use Rattle.codes.specs.Steps.Measure.{countable, TakesApart};
ghost use Rattle.codes.specs.Steps.Size.{FindsUncoded, Needs};
ghost use Rattle.header.specs.declared.Format.TheVariants.{Open};
ghost use Rattle.formats.specs.Data.{CarriesIn, UnreadableAfter, coded, AllCoded, data_of};
ghost use Rattle.formats.specs.Steps.Text.{MeasuresData, HasRoom, PutsText};

use codes::{Extent, Measured, Needed, Outcome, Unfit, Unread};
use header::{Format, Header};

// One of five expressions, by the format: the lower two first, by its number.
macro_rules! by_format {
    (
        $format:expr;
        Open => $open:expr,
        PseudoBinary => $pseudo_binary:expr,
        Numeric => $numeric:expr,
        Shef => $shef:expr,
        FullAscii => $full_ascii:expr $(,)?
    ) => {{
        if Header::number($format) < Header::NUMERIC {
            if $format == Format::Open {
                $open
            } else {
                $pseudo_binary
            }
        } else {
            match $format {
                Format::Numeric => $numeric,
                Format::Shef => $shef,
                _ => $full_ascii,
            }
        }
    }};
}

// Whether the character at place i has a code.
fn has_code(format: Format, text: &[u8], i: usize) -> bool
    requires { i < length text.now }
    ensures { result ≡ coded format (take i text.now) (get_or text.now i 0) }
{
    by_format!(format;
        Open => true,
        PseudoBinary => pseudo_binary_writer::is_coded(text[i]),
        Numeric => numeric_writer::is_coded(text, i),
        Shef => shef_writer::is_coded(text[i]),
        FullAscii => full_ascii_writer::is_coded(text[i]),
    )
}

// Whether each character has a code. All are looked at, whatever is found: a loop with no way out before its end is done for many characters at once.
fn all_coded_in(format: Format, text: &[u8]) -> bool
    requires { 0 < length text.now }
    ensures { Says result (AllCoded format text.now) }
{
    let mut all = has_code(format, text, 0);
    for i in 1..text.len() {
        all &= has_code(format, text, i);
    }
    all
}

// The same, whatever the length. Each format has its own call, so that LLVM makes a loop of its own for each.
fn all_coded(format: Format, text: &[u8]) -> bool
    ensures { Says result (AllCoded format text.now) }
{
    if text.is_empty() {
        return true;
    }
    by_format!(format;
        Open => all_coded_in(Format::Open, text),
        PseudoBinary => all_coded_in(Format::PseudoBinary, text),
        Numeric => all_coded_in(Format::Numeric, text),
        Shef => all_coded_in(Format::Shef, text),
        FullAscii => all_coded_in(Format::FullAscii, text),
    )
}

// The index of the first character that has no code.
pub fn first_uncoded(format: Format, text: &[u8]) -> Option<usize>
    ensures { FindsUncoded (coded format) text.now result }
{
    if all_coded(format, text) {
        return None;
    }
    for i in 0..text.len() {
        if !has_code(format, text, i) {
            return Some(i);
        }
    }
    None
}

// How many bytes the data of an open text has: as many as it has characters.
fn open_length(text: &[u8], most: u16) -> Needed
    ensures { Needs most (coded Open) text.now text.now result }
{
    if (most as usize) < text.len() {
        return Err(Unfit::TooMany);
    }
    Ok(text.len())
}

// How many bytes our data of a text with codes has, or that they are more than `most`.
fn coded_length(format: Format, text: &[u8], most: u16) -> Needed
    requires { AllCoded format text.now }
    ensures { Needs most (coded format) text.now (data_of format text.now) result }
{
    by_format!(format;
        Open => open_length(text, most),
        PseudoBinary => pseudo_binary_writer::coded_length(text, most),
        Numeric => numeric_writer::coded_length(text, most),
        Shef => shef_writer::coded_length(text, most),
        FullAscii => full_ascii_writer::coded_length(text, most),
    )
}

// How many bytes our data of the text has; or the first character that has no code; or that the bytes are more than `most`.
pub fn data_length(format: Format, text: &[u8], most: u16) -> Needed
    ensures { Needs most (coded format) text.now (data_of format text.now) result }
{
    if let Some(index) = first_uncoded(format, text) {
        return Err(Unfit::NoCode(index));
    }
    coded_length(format, text, most)
}

// Our data of the text, at the front of the buffer; how many bytes it is.
pub fn put_data(format: Format, text: &[u8], out: &mut [u8]) -> usize
    requires { AllCoded format text.now × (length (data_of format text.now) ≤ length out.old) }
    ensures { Fronted (data_of format text.now) out.old out.new result }
{
    by_format!(format;
        Open => rows::copy(text, out),
        PseudoBinary => pseudo_binary_writer::put_data(text, out),
        Numeric => numeric_writer::put_data(text, out),
        Shef => shef_writer::put_data(text, out),
        FullAscii => full_ascii_writer::put_data(text, out),
    )
}

// The length of the text that the data carries, or the bit at which it is malformed, and how many codes were read; in Open there are none.
fn measure(format: Format, data: &[u8]) -> Measured
    requires { length «data».now < countable }
    ensures { MeasuresData format «data».now result }
{
    match format {
        Format::Open => Ok(Extent {
            characters: data.len(),
            codes: 0,
        }),
        Format::PseudoBinary => pseudo_binary_reader::measure(data),
        Format::Numeric => numeric_reader::measure(data),
        Format::Shef => shef_reader::measure(data),
        Format::FullAscii => full_ascii_reader::measure(data),
    }
}

// The data taken apart, whatever its length.
pub fn take_apart(format: Format, data: &[u8]) -> Outcome
    ensures { TakesApart (CarriesIn format «data».now) (UnreadableAfter format «data».now) (length «data».now) result }
{
    if codes::LIMIT <= data.len() {
        return Err(Unread::TooLong);
    }
    Ok(measure(format, data)?)
}

// The text that the data carries, at the front of the buffer; its length.
pub fn put_text(format: Format, data: &[u8], out: &mut [u8]) -> usize
    requires { (length «data».now < countable) × HasRoom format «data».now (length out.old) }
    ensures { PutsText format «data».now out.old out.new result }
{
    match format {
        Format::Open => rows::copy(data, out),
        Format::PseudoBinary => pseudo_binary_reader::put_text(data, out),
        Format::Numeric => numeric_reader::put_text(data, out),
        Format::Shef => shef_reader::put_text(data, out),
        Format::FullAscii => full_ascii_reader::put_text(data, out),
    }
}
