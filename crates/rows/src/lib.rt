// A row of bytes copied byte by byte: `copy_from_slice` would ask for the C library's `memmove`, which a logger may be without.

#![tactic(auto)]

ghost use Rattle.std.specs.Prelude.{◌++◌, ◌≡◌, ◌≤◌, length, take, drop};

// Copies a row to the front of `out`; how many bytes that is.
pub fn copy(row: &[u8], out: &mut [u8]) -> usize
    requires { length row.now ≤ length out.old }
    ensures value { result ≡ length row.now }
    ensures after { out.new ≡ take (length row.now) row.now ++ drop (length row.now) out.old }
{
    for (i, byte) in row.iter().enumerate() {
        out[i] = *byte;
    }
    row.len()
}
