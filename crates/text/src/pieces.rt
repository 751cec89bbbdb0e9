// Words and numbers.
ghost use Rattle.std.specs.Prelude.{◌≡◌, ◌+◌, ◌/◌, ◌%◌, ◌<◌, ◌∷◌, [], ◌++◌};
ghost use Rattle.rules.specs.Stream.{digits, decimal, signed};
ghost use Rattle.text.specs.Appended.{Appended};

use amounts::magnitude;

fn put_byte(out: &mut [u8], at: usize, byte: u8) -> usize
    ensures { Appended out.old at out.new result (byte ∷ []) }
{
    if out.len() <= at {
        return out.len();
    }
    out[at] = byte;
    at + 1
}

// As much of the word as there is room for, byte by byte: the exports would need `memmove` from outside for a `copy_from_slice`. Not inlined: a stream writes
// words on its rare paths alone, and its loop is faster without their code.
#[inline(never)]
pub fn put_word(out: &mut [u8], at: usize, word: &[u8]) -> usize
    ensures { Appended out.old at out.new result word.now }
{
    let mut end = at.min(out.len());
    for byte in word {
        end = put_byte(out, end, *byte);
    }
    end
}

// The last decimal digit of n.
fn last_digit(n: u64) -> u8
    ensures { result ≡ n % 10 + 48 }
{
    (n % 10) as u8 + b'0'
}

// The decimal digits of n, at most k of them. The last digit stands behind those of a tenth of n.
fn put_digits(out: &mut [u8], at: usize, n: u64, k: usize) -> usize
    ensures { Appended out.old at out.new result (digits k n) }
{
    if k == 0 {
        return at.min(out.len());
    }
    if n < 10 {
        return put_byte(out, at, last_digit(n));
    }
    let before = put_digits(out, at, n / 10, k - 1);
    put_byte(out, before, last_digit(n))
}

// The last three decimal digits of n.
fn put_three(out: &mut [u8], at: usize, n: u64) -> usize
    ensures { Appended out.old at out.new result ((n / 100 % 10 + 48) ∷ ((n / 10 % 10 + 48) ∷ ((n % 10 + 48) ∷ []))) }
{
    let hundreds = put_byte(out, at, last_digit(n / 100));
    let tens = put_byte(out, hundreds, last_digit(n / 10));
    put_byte(out, tens, last_digit(n))
}

// A number of at most three digits.
fn put_few(out: &mut [u8], at: usize, n: u64) -> usize
    requires { n < 1_000 }
    ensures { Appended out.old at out.new result (decimal n) }
{
    if n < 10 {
        return put_byte(out, at, last_digit(n));
    }
    if n < 100 {
        let tens = put_byte(out, at, last_digit(n / 10));
        return put_byte(out, tens, last_digit(n));
    }
    put_three(out, at, n)
}

// A number in decimal digits: three at a time below a million, else one after another; 20 are enough for any number of 64 bits.
pub fn put_decimal(out: &mut [u8], at: usize, n: u64) -> usize
    ensures { Appended out.old at out.new result (decimal n) }
{
    if n < 1_000 {
        return put_few(out, at, n);
    }
    if n < 1_000_000 {
        let thousands = put_few(out, at, n / 1_000);
        return put_three(out, thousands, n);
    }
    put_digits(out, at, n, 20)
}

// A word, and a number right behind it.
pub fn put_counted(out: &mut [u8], at: usize, word: &[u8], n: u64) -> usize
    ensures { Appended out.old at out.new result (word.now ++ decimal n) }
{
    let behind = put_word(out, at, word);
    put_decimal(out, behind, n)
}

pub fn put_signed(out: &mut [u8], at: usize, v: i64) -> usize
    ensures { Appended out.old at out.new result (signed v) }
{
    if v < 0 {
        return put_counted(out, at, b"-", magnitude(v));
    }
    put_decimal(out, at, magnitude(v))
}
