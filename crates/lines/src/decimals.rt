// Numbers as decimal digits.
ghost use Rattle.std.specs.Prelude.{◌+◌, ◌≤◌, length};
ghost use Rattle.rules.specs.Replays.{decimal};
ghost use Rattle.lines.specs.Puts.{Puts};

// Puts the digits of n from a position on.
fn put_digits(out: &mut [u8], at: usize, n: usize) -> usize
    requires { at + length (decimal n) ≤ length out.old }
    ensures { Puts out.old out.new at result (decimal n) }
{
    if n < 10 {
        out[at] = b'0' + n as u8;
        return at + 1;
    }
    let last = put_digits(out, at, n / 10);
    out[last] = b'0' + (n % 10) as u8;
    last + 1
}

// Puts n in decimal from a position on: at most 20 bytes.
pub fn put_decimal(out: &mut [u8], at: usize, n: usize) -> usize
    requires { at + 20 ≤ length out.old }
    ensures { Puts out.old out.new at result (decimal n) × (result ≤ at + 20) }
{
    put_digits(out, at, n)
}
