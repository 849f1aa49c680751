//! The pieces of a record, each written from a place on.

ghost use Rattle.std.specs.Prelude.{◌≡◌, ◌++◌, ◌∷◌, ◌+◌, ◌*◌, ◌<◌, ◌≤◌, take, length, decimal};
ghost use Rattle.text_output.specs.declared.pieces.TheConstants.{MAX_DIGITS};
ghost use Rattle.text_output.specs.Inside.Digits.{pair_of, four_of, eight_of};

/// How many decimal digits a number of 64 bits has at most.
pub const MAX_DIGITS: usize = 20;

/// The numbers below 100 in two digits each.
const PAIRS: &[u8; 200] =
    b"0001020304050607080910111213141516171819202122232425262728293031323334353637383940414243444546474849\
5051525354555657585960616263646566676869707172737475767778798081828384858687888990919293949596979899";

/// Writes bytes, and says where they end.
#[inline(always)]
pub fn put(bytes: &[u8], buf: &mut [u8], at: usize) -> usize
    requires { at + length bytes.now ≤ length buf.old }
    ensures end { result ≡ at + length bytes.now }
    ensures written { take result buf.new ≡ take at buf.old ++ bytes.now }
{
    for i in 0..bytes.len() {
        buf[at + i] = bytes[i];
    }
    at + bytes.len()
}

/// Writes a number below 100 in two digits.
#[inline(always)]
fn put_pair(pair: u32, buf: &mut [u8], at: usize)
    requires { (pair < 100) × (at + 2 ≤ length buf.old) }
    ensures written { take (at + 2) buf.new ≡ take at buf.old ++ pair_of pair }
{
    let pairs: &[u8] = PAIRS;
    let from = 2 * pair as usize;
    put(&pairs[from..from + 2], buf, at);
}

/// Writes a number below 10,000 in four digits.
#[inline(always)]
fn put_four(number: u32, buf: &mut [u8], at: usize)
    requires { (number < 10_000) × (at + 4 ≤ length buf.old) }
    ensures written { take (at + 4) buf.new ≡ take at buf.old ++ four_of number }
{
    put_pair(number / 100, buf, at);
    put_pair(number % 100, buf, at + 2);
}

/// Writes a number below 100,000,000 in eight digits.
#[inline]
fn put_eight(number: u32, buf: &mut [u8], at: usize)
    requires { (number < 100_000_000) × (at + 8 ≤ length buf.old) }
    ensures written { take (at + 8) buf.new ≡ take at buf.old ++ eight_of number }
{
    put_four(number / 10_000, buf, at);
    put_four(number % 10_000, buf, at + 4);
}

/// Writes a number below 100, and says where it ends.
#[inline(always)]
fn put_short(number: u32, buf: &mut [u8], at: usize) -> usize
    requires { (number < 100) × (at + 2 ≤ length buf.old) }
    ensures end { result ≤ at + 2 }
    ensures written { take result buf.new ≡ take at buf.old ++ decimal number }
{
    if number < 10 {
        buf[at] = b'0' + number as u8;
        return at + 1;
    }
    put_pair(number, buf, at);
    at + 2
}

/// Writes a number below 10,000, and says where it ends.
#[inline]
fn put_small(number: u32, buf: &mut [u8], at: usize) -> usize
    requires { (number < 10_000) × (at + 4 ≤ length buf.old) }
    ensures end { result ≤ at + 4 }
    ensures written { take result buf.new ≡ take at buf.old ++ decimal number }
{
    if number < 100 {
        return put_short(number, buf, at);
    }
    let end = put_short(number / 100, buf, at);
    put_pair(number % 100, buf, end);
    end + 2
}

/// Writes a number below 100,000,000, and says where it ends.
#[inline]
fn put_middle(number: u32, buf: &mut [u8], at: usize) -> usize
    requires { (number < 100_000_000) × (at + 8 ≤ length buf.old) }
    ensures end { result ≤ at + 8 }
    ensures written { take result buf.new ≡ take at buf.old ++ decimal number }
{
    if number < 10_000 {
        return put_small(number, buf, at);
    }
    let end = put_small(number / 10_000, buf, at);
    put_four(number % 10_000, buf, end);
    end + 4
}

/// Writes a number below 10^12, and says where it ends.
#[inline]
fn put_upper(number: u64, buf: &mut [u8], at: usize) -> usize
    requires { (number < 1_000_000_000_000) × (at + 12 ≤ length buf.old) }
    ensures end { result ≤ at + 12 }
    ensures written { take result buf.new ≡ take at buf.old ++ decimal number }
{
    if number < 100_000_000 {
        return put_middle(number as u32, buf, at);
    }
    let end = put_small((number / 100_000_000) as u32, buf, at);
    put_eight((number % 100_000_000) as u32, buf, end);
    end + 8
}

/// Writes a number of any length, and says where it ends.
#[inline(never)]
fn put_long(number: u64, buf: &mut [u8], at: usize) -> usize
    requires { at + MAX_DIGITS ≤ length buf.old }
    ensures end { result ≤ at + MAX_DIGITS }
    ensures written { take result buf.new ≡ take at buf.old ++ decimal number }
{
    if number < 100_000_000 {
        return put_middle(number as u32, buf, at);
    }
    let end = put_upper(number / 100_000_000, buf, at);
    put_eight((number % 100_000_000) as u32, buf, end);
    end + 8
}

/// Writes a number in decimal digits, and says where they end.
#[inline]
pub fn put_number(number: u64, buf: &mut [u8], at: usize) -> usize
    requires { at + MAX_DIGITS ≤ length buf.old }
    ensures end { result ≤ at + MAX_DIGITS }
    ensures written { take result buf.new ≡ take at buf.old ++ decimal number }
{
    if number < 100 {
        return put_short(number as u32, buf, at);
    }
    put_long(number, buf, at)
}

/// Writes two numbers with a comma between them, and says where they end.
#[inline]
pub fn put_two(first: u64, second: u64, buf: &mut [u8], at: usize) -> usize
    requires { at + (2 * MAX_DIGITS + 1) ≤ length buf.old }
    ensures end { result ≤ at + (2 * MAX_DIGITS + 1) }
    ensures written { take result buf.new ≡ take at buf.old ++ (decimal first ++ 44 ∷ decimal second) }
{
    let comma = put_number(first, buf, at);
    buf[comma] = b',';
    put_number(second, buf, comma + 1)
}
