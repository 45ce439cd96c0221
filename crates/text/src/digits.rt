ghost use Rattle.std.specs.Prelude.{◌≡◌, ◌+◌, ◌≤◌, length, decimal};
ghost use Rattle.std.specs.Fmt.{signed_decimal};
ghost use Rattle.text.specs.Writing.{Wrote};

use itoa::write_digits;

// In a file of their own, since these clauses cite a definition that names Text, whose ghost field may not import it.

// How many digits a number has.
fn width(n: u64) -> usize
    ensures { result ≡ length (decimal n) }
{
    if n < 10 { 1 } else { 1 + width(n / 10) }
}

// Writes the digits where they stay: a row of offsets has one number a switch, and from a buffer each would be copied.
#[inline(never)]
pub(crate) fn put_number(row: &mut [u8], at: usize, n: u64) -> usize
    requires { at + length (decimal n) ≤ length row.old }
    ensures { Wrote row.old at (decimal n) row.new result }
{
    let end = at + width(n);
    write_digits(n, row, end);
    end
}

// The same with a `-` before a number below zero.
pub(crate) fn put_signed(row: &mut [u8], z: i64) -> usize
    requires { 20 ≤ length row.old }
    ensures { Wrote row.old 0 (signed_decimal z) row.new result }
{
    let n = z.unsigned_abs();
    if z >= 0 {
        return put_number(row, 0, n);
    }
    row[0] = b'-';
    put_number(row, 1, n)
}
