// Lines of text: words, numbers in decimal and hexadecimal, each after a single space; and what is told in a line.

#![tactic(auto)]

ghost use Rattle.std.specs.Prelude.{List, ℕ, [], ◌∷◌, ◌++◌, ◌≡◌, ◌+◌, ◌≤◌, ◌<◌, length};
ghost use Rattle.codes.specs.Steps.Laid.{Fronted};
ghost use Rattle.lines.specs.Line.{decimal, decimals, hexadecimal_digit, hexadecimal, spaced, refused, line};
ghost use Rattle.lines.specs.Steps.Put.{room, PutsRow};

// What is told in a line of its own.
pub trait Line {
    // the line, with its end
    ghost told: { Self → List ℕ };

    // The line, at the front of `out`; the place behind it. It cannot fail.
    fn put(&self, out: &mut [u8]) -> usize
        requires { room ≤ length out.old }
        ensures { Fronted (told self.now) out.old out.new result };
}

// A number in decimal, from place `at` on; the place behind it.
fn put_decimal(n: usize, out: &mut [u8], at: usize) -> usize
    requires { at + length (decimal n) ≤ length out.old }
    ensures { PutsRow (decimal n) out.old out.new at result }
{
    if n < 10 {
        out[at] = 48 + n as u8;
        return at + 1;
    }
    let last = put_decimal(n / 10, out, at);
    out[last] = 48 + (n % 10) as u8;
    last + 1
}

// Numbers in decimal, each after a single space.
pub fn put_spaced(numbers: &[usize], out: &mut [u8], at: usize) -> usize
    requires { at + length (spaced (decimals numbers.now)) ≤ length out.old }
    ensures { PutsRow (spaced (decimals numbers.now)) out.old out.new at result }
{
    let mut end = at;
    for number in numbers {
        out[end] = b' ';
        end = put_decimal(*number, out, end + 1);
    }
    end
}

// A digit of hexadecimal, in upper case.
fn hexadecimal_digit(digit: u32) -> u8
    requires { digit < 16 }
    ensures { result ≡ hexadecimal_digit digit }
{
    if digit < 10 {
        return 48 + digit as u8;
    }
    55 + digit as u8
}

// 32 bits in hexadecimal, eight digits, from place `at` on; the place behind them.
fn put_hexadecimal(n: u32, out: &mut [u8], at: usize) -> usize
    requires { at + length (hexadecimal n) ≤ length out.old }
    ensures { PutsRow (hexadecimal n) out.old out.new at result }
{
    let mut end = at;
    for place in (0..8u32).rev() {
        out[end] = hexadecimal_digit((n >> (4 * place)) % 16);
        end += 1;
    }
    end
}

// A mask after a single space.
pub fn put_mask(mask: u32, out: &mut [u8], at: usize) -> usize
    requires { at + length (32 ∷ hexadecimal mask) ≤ length out.old }
    ensures { PutsRow (32 ∷ hexadecimal mask) out.old out.new at result }
{
    out[at] = b' ';
    put_hexadecimal(mask, out, at + 1)
}

// A word and numbers, at the front of `out`; the place behind them.
pub fn put_word(word: &[u8], numbers: &[usize], out: &mut [u8]) -> usize
    requires { length word.now + length (spaced (decimals numbers.now)) ≤ length out.old }
    ensures { PutsRow (word.now ++ spaced (decimals numbers.now)) out.old out.new 0 result }
{
    let at = rows::copy(word, out);
    put_spaced(numbers, out, at)
}

// The end of the line, at place `at`.
pub fn put_end(out: &mut [u8], at: usize) -> usize
    requires { at < length out.old }
    ensures { PutsRow (10 ∷ []) out.old out.new at result }
{
    out[at] = b'\n';
    at + 1
}

// A word, numbers and the end of the line, at the front of `out`.
pub fn put_line(word: &[u8], numbers: &[usize], out: &mut [u8]) -> usize
    requires { length (line word.now (decimals numbers.now)) ≤ length out.old }
    ensures { Fronted (line word.now (decimals numbers.now)) out.old out.new result }
{
    let end = put_word(word, numbers, out);
    put_end(out, end)
}

// The line of a refusal, at the front of `out`.
pub fn put_refused(number: usize, out: &mut [u8]) -> usize
    requires { room ≤ length out.old }
    ensures { Fronted (line refused (decimal number ∷ [])) out.old out.new result }
{
    put_line(b"refused", &[number], out)
}
