// What bytes stand for, read at an index of a part of the input. A byte that the part does not have reads as 0.
ghost use Rattle.std.specs.Prelude.{◌≡◌, ◌^◌, ◌<◌, ℕ, List, drop};
ghost use Rattle.std.proofs.Common.{lit<};
ghost use Rattle.rules.specs.Stream.{number_at};
ghost use Rattle.wire.specs.Operands.{padded_at};
ghost use Rattle.wire.specs.Padded.{number_padded, bytes_padded};

use rules::BIC;
use std::array;

// What N bytes stand for.
pub trait FromBytes<const N: usize>: Sized {
    // What stands at an index of a list of bytes.
    ghost read_at: { List ℕ → ℕ → Self };

    fn from_bytes(bytes: &[u8; N]) -> Self
        ensures { result ≡ read_at bytes.now 0 };

    // A byte that is not there is a 0.
    ghost padded: { (o : List ℕ) (at : ℕ) → read_at (padded_at o at N) 0 ≡ read_at o at };

    // So many bytes fit in memory.
    ghost fits: { N < 2 ^ 63 };
}

// The part from index `at` on, which is empty where that is behind the end.
fn part(operands: &[u8], at: usize) -> &[u8]
    ensures { result.now ≡ drop at operands.now }
{
    operands.get(at..).unwrap_or(&[])
}

// The N bytes from index `at` on, with 0 for those that the part does not have.
#[cold]
#[inline(never)]
fn padded<const N: usize>(operands: &[u8], at: usize) -> [u8; N]
    ensures { result ≡ padded_at operands.now at N }
{
    let part = part(operands, at);
    array::from_fn(|i| part.get(i).copied().unwrap_or(0))
}

// What stands at index `at`. Where its bytes are all there, they are read where they lie.
#[inline]
pub fn decode<T: FromBytes<N>, const N: usize>(operands: &[u8], at: usize) -> T
    ensures { result ≡ T.read_at operands.now at }
{
    if let Some(part) = operands.get(at..)
        && let Some(bytes) = part.first_chunk::<N>()
    {
        return T::from_bytes(bytes);
    }
    T::from_bytes(&padded(operands, at))
}

impl FromBytes<1> for u8 {
    ghost read_at = { λ o at. number_at o at 1 };

    ghost padded = { λ o at. number_padded o at 1 };

    ghost fits = { lit< tt };

    fn from_bytes(bytes: &[u8; 1]) -> u8 {
        bytes[0]
    }
}

impl FromBytes<2> for u16 {
    ghost read_at = { λ o at. number_at o at 2 };

    ghost padded = { λ o at. number_padded o at 2 };

    ghost fits = { lit< tt };

    fn from_bytes(bytes: &[u8; 2]) -> u16 {
        u16::from_be_bytes(*bytes)
    }
}

impl FromBytes<8> for u64 {
    ghost read_at = { λ o at. number_at o at 8 };

    ghost padded = { λ o at. number_padded o at 8 };

    ghost fits = { lit< tt };

    fn from_bytes(bytes: &[u8; 8]) -> u64 {
        u64::from_be_bytes(*bytes)
    }
}

impl FromBytes<BIC> for [u8; BIC] {
    ghost read_at = { λ o at. padded_at o at 11 };

    ghost padded = { λ o at. bytes_padded o at 11 };

    ghost fits = { lit< tt };

    fn from_bytes(bytes: &[u8; BIC]) -> [u8; BIC] {
        *bytes
    }
}
