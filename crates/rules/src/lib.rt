// The types that every crate shares. Their meaning is document 01's, written in specs/.
#![tactic(auto)]

pub mod refusal; // refusal.rt: the refusals and their numbers
pub mod answer; // answer.rt: what a call answers

pub use answer::Answer;
pub use refusal::Refusal;

// Rows that each table holds at most.
pub const CSDS: usize = 32;

pub const SECURITIES: usize = 16;

pub const ACCOUNTS: usize = 256;

pub const PAIRS: usize = 512;

pub const LINKS: usize = 128;

// "hex FF": no CSD. "hex FFFF for none": no account.
pub const NO_CSD: u8 = 0xff;

pub const NO_ACCOUNT: u16 = 0xffff;

// Bytes of a BIC and of an ISIN.
pub const BIC: usize = 11;

pub const ISIN: usize = 12;

// CSDs that a side names at most, and steps of a chain.
pub const SIDE: usize = 8;

pub const STEPS: usize = 16;

// Positions of a store, "at account × 16 + security"; of cash there is one balance for each account.
pub const POSITIONS: usize = ACCOUNTS * SECURITIES;

// 10^15: the largest quantity and amount, and the bound of every number booked.
pub const LIMIT: u64 = 1_000_000_000_000_000;

// A central securities depository: 0 in T2S, 1 external, and its BIC.
#[derive(Clone, Copy)]
pub struct Csd {
    pub external: u8,
    pub bic: [u8; BIC],
}

#[derive(Clone, Copy)]
pub struct Security {
    pub isin: [u8; ISIN],
}

// The kinds of account.
pub const PARTICIPANT: u8 = 0;

pub const OMNIBUS: u8 = 1;

pub const MIRROR: u8 = 2;

pub const INTER_CSD: u8 = 3;

pub const ISSUANCE: u8 = 4;

// An account of a CSD, of one of the kinds.
#[derive(Clone, Copy)]
pub struct Account {
    pub csd: u8,
    pub kind: u8,
}

// An investor CSD and its technical issuer with an account of each: a mirror and an omnibus account,
// or, where the technical issuer is external, an inter-CSD account and hex FFFF. They are chosen by the account of the investor CSD
// that is served, a participant's or an omnibus account.
#[derive(Clone, Copy)]
pub struct Pair {
    pub investor: u8,
    pub technical: u8,
    pub mirror: u16,
    pub omnibus: u16,
    pub served: u16,
}

// Kind 0 issuer, 1 investor; flag 1 default, 0 alternative. Days are counted from 1 January 2020 as day 0; both are included.
#[derive(Clone, Copy)]
pub struct Link {
    pub security: u8,
    pub kind: u8,
    pub csd: u8,
    pub technical: u8,
    pub flag: u8,
    pub account: u16,
    pub first: u16,
    pub last: u16,
}

// A table: the first `count` of its N rows are in use.
#[derive(Clone, Copy)]
pub struct Table<T, const N: usize> {
    pub count: usize,
    pub rows: [T; N],
}

pub type CsdTable = Table<Csd, CSDS>;

pub type SecurityTable = Table<Security, SECURITIES>;

pub type AccountTable = Table<Account, ACCOUNTS>;

pub type PairTable = Table<Pair, PAIRS>;

pub type LinkTable = Table<Link, LINKS>;

#[derive(Clone, Copy)]
pub struct Directory {
    pub csds: CsdTable,
    pub securities: SecurityTable,
    pub accounts: AccountTable,
    pub pairs: PairTable,
    pub links: LinkTable,
}

// One half of an instruction: its account, the counterpart's CSD, and what is delivered for which amount.
#[derive(Clone, Copy)]
pub struct Half {
    pub account: u16,
    pub counterpart: u8,
    pub security: u8,
    pub quantity: u64,
    pub amount: u64,
}

// The sides of an instruction.
pub const DELIVERING: u8 = 0;

pub const RECEIVING: u8 = 1;

// A half with its side written out.
#[derive(Clone, Copy)]
pub struct SidedHalf {
    pub side: u8,
    pub half: Half,
}

// One step of a chain: the CSD, the account debited and the account credited in its books.
#[derive(Clone, Copy, Debug, PartialEq, Eq)]
pub struct Step {
    pub csd: u8,
    pub debited: u16,
    pub credited: u16,
}

// A number of units of a security, and a number of cents of cash. They never add up together.
#[derive(Clone, Copy)]
pub struct Units(pub i64);

#[derive(Clone, Copy)]
pub struct Cents(pub i64);

// The four ways in which a walk ends, with the CSD where it ended.
#[derive(Clone, Copy)]
pub enum WalkEnd {
    Inside(u8),
    Outside(u8),
    NoLink,
    TooLong,
}

// What a walk does at a CSD: it ends, or goes on to the next.
#[derive(Clone, Copy)]
pub enum Hop {
    Ends(WalkEnd),
    On(u8),
}

// How the two sides of a chain join: at one CSD, at an issuer each, or at an external CSD each.
#[derive(Clone, Copy)]
pub enum Join {
    Meeting,
    Issuers,
    Externals,
}

// What an entry answers, and the directory after it.
#[derive(Clone, Copy)]
pub struct Entered {
    pub answer: Answer,
    pub directory: Directory,
}

// Steps by value.
pub type Steps = Table<Step, STEPS>;

// What a derivation or settlement answers, with its steps by value.
#[derive(Clone, Copy)]
pub struct Reply {
    pub answer: Answer,
    pub steps: Steps,
}
