// The refusals, with their numbers, in the order of places (specs/Refusals).
ghost use Rattle.std.specs.Prelude.{◌≡◌};
ghost use Rattle.rules.specs.Numbers.{number};

#[derive(Clone, Copy, Debug, PartialEq, Eq)]
pub enum Refusal {
    // "unknown byte; operands cut short"
    UnknownByte = 1,
    CutShort = 2,
    // A lent list has the wrong length.
    LentList = 3,
    // The directory is "not sound".
    Unsound = 4,
    // "table full"
    TableFull = 5,
    // "number names no row"
    NoRow = 6,
    // "value outside its list or range"
    OutOfRange = 7,
    // "ISIN check digit"
    CheckDigit = 8,
    // "already entered"
    AlreadyEntered = 9,
    // "account of wrong kind or CSD; account in external CSD"
    WrongAccount = 10,
    // "a link whose first day is after its last" (02)
    FirstAfterLast = 24,
    // "other pair or link rule broken"
    RuleBroken = 11,
    // "two halves of the same side" (02)
    SameSide = 23,
    // "security, quantity, amount differ, or a counterpart isn't the other's CSD"
    HalvesDiffer = 12,
    // "both accounts the same"
    SameAccount = 13,
    // "a side without link; too long"
    NoLink = 14,
    SideTooLong = 15,
    // "D inside, R outside; the reverse"
    ReceiverOutside = 16,
    DelivererOutside = 17,
    // "chain needs a pair not entered"
    NoPair = 18,
    // "no issuer link and no default link to an external CSD, or no pair for it"
    NoContra = 19,
    // "securities short; cash short"
    SecuritiesShort = 20,
    CashShort = 21,
    // "beyond ±10^15"
    Beyond = 22,
}

impl From<Refusal> for u8 {
    ghost from_gives = { λ refusal n. n ≡ number refusal };

    fn from(refusal: Refusal) -> u8 {
        refusal as u8
    }
}
