// Operands, "big-endian of fixed widths". A decoder is handed the part of the input that starts at its command's operands; a byte that the part
// does not have reads as 0.
ghost use Rattle.std.specs.Prelude.{◌≡◌, ◌+◌, drop};
ghost use Rattle.std.proofs.Common.{lit<};
ghost use Rattle.rules.specs.Entries.{account_row, pair_row, link_row};
ghost use Rattle.rules.specs.Stream.{account_at, pair_at, link_at, half_width, half_at, sided_half_at, ordered_day_at, sided_day_at};
ghost use Rattle.wire.specs.Operands.{csd_in, security_in, account_in, pair_in, link_in, move_in, payment_in};
ghost use Rattle.wire.specs.Padded.{csd_padded, security_padded, account_padded, pair_padded, link_padded, move_padded, payment_padded, half_padded, sided_half_padded};

use crate::decoding::{FromBytes, decode};
use rules::{Account, BIC, Csd, Half, ISIN, Link, Pair, Security, SidedHalf};

// The operands of 06 and 07.
#[derive(Clone, Copy)]
pub struct Move {
    pub account: u16,
    pub security: u8,
    pub quantity: u64,
    pub day: u16,
}

// The operands of 08 and 09.
#[derive(Clone, Copy)]
pub struct Payment {
    pub account: u16,
    pub amount: u64,
}

// Bytes of a row, by its table.
pub const CSD_WIDTH: usize = 1 + BIC;

pub const SECURITY_WIDTH: usize = ISIN;

pub const ACCOUNT_WIDTH: usize = 2;

pub const PAIR_WIDTH: usize = 8;

pub const LINK_WIDTH: usize = 11;

// Bytes of a movement, of a payment, of a half, of a half with its side, and of a day.
pub const MOVE_WIDTH: usize = 13;

pub const PAYMENT_WIDTH: usize = 10;

pub const HALF_WIDTH: usize = 20;

pub const SIDED_HALF_WIDTH: usize = 1 + HALF_WIDTH;

pub const DAY_WIDTH: usize = 2;

// "01 type 1, BIC 11"
impl FromBytes<CSD_WIDTH> for Csd {
    ghost read_at = { λ o at. csd_in (drop at o) };

    ghost padded = { csd_padded };

    ghost fits = { lit< tt };

    fn from_bytes(bytes: &[u8; CSD_WIDTH]) -> Csd {
        Csd {
            external: decode(bytes, 0),
            bic: decode(bytes, 1),
        }
    }
}

// "02 ISIN 12"
impl FromBytes<SECURITY_WIDTH> for Security {
    ghost read_at = { λ o at. security_in (drop at o) };

    ghost padded = { security_padded };

    ghost fits = { lit< tt };

    fn from_bytes(bytes: &[u8; SECURITY_WIDTH]) -> Security {
        Security { isin: *bytes }
    }
}

// "03 CSD 1, kind 1"
impl FromBytes<ACCOUNT_WIDTH> for Account {
    ghost read_at = { λ o at. account_in (drop at o) };

    ghost padded = { account_padded };

    ghost fits = { lit< tt };

    fn from_bytes(bytes: &[u8; ACCOUNT_WIDTH]) -> Account {
        Account {
            csd: decode(bytes, 0),
            kind: decode(bytes, 1),
        }
    }
}

// "investor 1, technical 1, accounts 2 and 2", "served account last (2 bytes)"
impl FromBytes<PAIR_WIDTH> for Pair {
    ghost read_at = { λ o at. pair_in (drop at o) };

    ghost padded = { pair_padded };

    ghost fits = { lit< tt };

    fn from_bytes(bytes: &[u8; PAIR_WIDTH]) -> Pair {
        Pair {
            investor: decode(bytes, 0),
            technical: decode(bytes, 1),
            mirror: decode(bytes, 2),
            omnibus: decode(bytes, 4),
            served: decode(bytes, 6),
        }
    }
}

// "05 security 1, kind 1, CSD 1, technical 1, flag 1, account 2"; of the first and last day, "Both stand last in 05, 2 bytes each."
impl FromBytes<LINK_WIDTH> for Link {
    ghost read_at = { λ o at. link_in (drop at o) };

    ghost padded = { link_padded };

    ghost fits = { lit< tt };

    fn from_bytes(bytes: &[u8; LINK_WIDTH]) -> Link {
        Link {
            security: decode(bytes, 0),
            kind: decode(bytes, 1),
            csd: decode(bytes, 2),
            technical: decode(bytes, 3),
            flag: decode(bytes, 4),
            account: decode(bytes, 5),
            first: decode(bytes, 7),
            last: decode(bytes, 9),
        }
    }
}

// "06 in, 07 out: account 2, security 1, quantity 8"; they "carry a day as their last 2 bytes"
impl FromBytes<MOVE_WIDTH> for Move {
    ghost read_at = { λ o at. move_in (drop at o) };

    ghost padded = { move_padded };

    ghost fits = { lit< tt };

    fn from_bytes(bytes: &[u8; MOVE_WIDTH]) -> Move {
        Move {
            account: decode(bytes, 0),
            security: decode(bytes, 2),
            quantity: decode(bytes, 3),
            day: decode(bytes, 11),
        }
    }
}

// "08 in, 09 out: account 2, amount 8"
impl FromBytes<PAYMENT_WIDTH> for Payment {
    ghost read_at = { λ o at. payment_in (drop at o) };

    ghost padded = { payment_padded };

    ghost fits = { lit< tt };

    fn from_bytes(bytes: &[u8; PAYMENT_WIDTH]) -> Payment {
        Payment {
            account: decode(bytes, 0),
            amount: decode(bytes, 2),
        }
    }
}

// "each account 2, counterpart CSD 1, security 1, quantity 8, amount 8"
impl FromBytes<HALF_WIDTH> for Half {
    ghost read_at = { half_at };

    ghost padded = { half_padded };

    ghost fits = { lit< tt };

    fn from_bytes(bytes: &[u8; HALF_WIDTH]) -> Half {
        Half {
            account: decode(bytes, 0),
            counterpart: decode(bytes, 2),
            security: decode(bytes, 3),
            quantity: decode(bytes, 4),
            amount: decode(bytes, 12),
        }
    }
}

// "one byte before each half"
impl FromBytes<SIDED_HALF_WIDTH> for SidedHalf {
    ghost read_at = { sided_half_at };

    ghost padded = { sided_half_padded };

    ghost fits = { lit< tt };

    fn from_bytes(bytes: &[u8; SIDED_HALF_WIDTH]) -> SidedHalf {
        SidedHalf {
            side: decode(bytes, 0),
            half: decode(bytes, 1),
        }
    }
}

pub fn decode_csd(operands: &[u8]) -> Csd
    ensures { result ≡ csd_in operands.now }
{
    decode(operands, 0)
}

pub fn decode_security(operands: &[u8]) -> Security
    ensures { result ≡ security_in operands.now }
{
    decode(operands, 0)
}

pub fn decode_account(operands: &[u8]) -> Account
    ensures { account_row result ≡ account_at operands.now }
{
    decode(operands, 0)
}

pub fn decode_pair(operands: &[u8]) -> Pair
    ensures { pair_row result ≡ pair_at operands.now }
{
    decode(operands, 0)
}

pub fn decode_link(operands: &[u8]) -> Link
    ensures { link_row result ≡ link_at operands.now }
{
    decode(operands, 0)
}

pub fn decode_move(operands: &[u8]) -> Move
    ensures { result ≡ move_in operands.now }
{
    decode(operands, 0)
}

pub fn decode_payment(operands: &[u8]) -> Payment
    ensures { result ≡ payment_in operands.now }
{
    decode(operands, 0)
}

// "0A settle, 0B derive: two halves, delivering first"
pub fn decode_delivering(operands: &[u8]) -> Half
    ensures { result ≡ half_at operands.now 0 }
{
    decode(operands, 0)
}

pub fn decode_receiving(operands: &[u8]) -> Half
    ensures { result ≡ half_at operands.now half_width }
{
    decode(operands, HALF_WIDTH)
}

// The day behind the two halves: "Derive, settle, .. carry a day as their last 2 bytes"
pub fn decode_day(operands: &[u8]) -> u16
    ensures { result ≡ ordered_day_at operands.now }
{
    decode(operands, HALF_WIDTH + HALF_WIDTH)
}

// "0C (settle) and 0D (derive) are 0A and 0B with one byte before each half"
pub fn decode_first(operands: &[u8]) -> SidedHalf
    ensures { result ≡ sided_half_at operands.now 0 }
{
    decode(operands, 0)
}

pub fn decode_second(operands: &[u8]) -> SidedHalf
    ensures { result ≡ sided_half_at operands.now (half_width + 1) }
{
    decode(operands, SIDED_HALF_WIDTH)
}

// The day behind the two halves with their sides.
pub fn decode_sided_day(operands: &[u8]) -> u16
    ensures { result ≡ sided_day_at operands.now }
{
    decode(operands, SIDED_HALF_WIDTH + SIDED_HALF_WIDTH)
}
