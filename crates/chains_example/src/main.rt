// Document 01's chains by example, by the desk's functions alone. A drawing has a link for each three letters: `A>C` is a default link, `A~B` an
// alternative, `I=I` an issuer.
#![tactic(auto)]

use desk::{derive_by_value, empty};
use examples::{DAY, Row, half, put_answer, with, with_all};
use rules::{
    ACCOUNTS, Answer, Directory, INTER_CSD, ISSUANCE, MIRROR, NO_ACCOUNT, NO_CSD, OMNIBUS,
    PARTICIPANT, STEPS, Steps,
};
use std::io;

// The CSDs by the letters of a drawing.
const LETTERS: [u8; 8] = *b"ABCDIJXY";

// Of them, those in T2S: X and Y are external.
const INSIDE: usize = 6;

// ---- what is printed

// "K steps mean 2 × K − 2 generated instructions."
fn put_chain(rt: &impl Print, answer: Answer) -> io::Result<()> {
    let count = put_answer(rt, answer)?;
    if (1..=STEPS).contains(&count) {
        print!(rt; ", generated {}", 2 * count - 2)?;
    }
    println!(rt; "")
}

fn letter_of(csd: u8) -> char {
    char::from(LETTERS[csd as usize % LETTERS.len()])
}

// The steps by their CSDs alone.
fn put_letters(rt: &impl Print, steps: Steps) -> io::Result<()> {
    for step in steps.rows.iter().take(steps.count) {
        print!(rt; "{} ", letter_of(step.csd))?;
    }
    Ok(())
}

fn put_steps(rt: &impl Print, steps: Steps) -> io::Result<()> {
    for step in steps.rows.iter().take(steps.count) {
        println!(rt;
            "- {} {} {}",
            letter_of(step.csd),
            step.debited,
            step.credited
        )?;
    }
    Ok(())
}

// ---- the directory that is drawn

fn csd_of(letter: u8) -> u8 {
    match LETTERS.iter().position(|known| *known == letter) {
        Some(csd) => csd as u8,
        None => NO_CSD,
    }
}

// A CSD in T2S with two participants and an issuance account: those of the CSD c are 3c, 3c + 1 and 3c + 2.
fn with_accounts(directory: Directory, letter: u8) -> Directory {
    let csd = csd_of(letter);
    let rows = [
        Row::csd(0, letter),
        Row::account(csd, PARTICIPANT),
        Row::account(csd, PARTICIPANT),
        Row::account(csd, ISSUANCE),
    ];
    with_all(directory, &rows)
}

fn start() -> Directory {
    let mut directory = empty();
    for letter in &LETTERS[..INSIDE] {
        directory = with_accounts(directory, *letter);
    }
    let rows = [Row::csd(1, b'X'), Row::csd(1, b'Y'), Row::security()];
    with_all(directory, &rows)
}

// A row for each participant and omnibus account of the investor CSD that is entered: all of them share the two accounts.
fn serving(directory: Directory, csd: u8, technical: u8, mirror: u16, omnibus: u16) -> Directory {
    let accounts = directory.accounts;
    let mut served = directory;
    for (i, account) in accounts.rows.iter().enumerate().take(accounts.count) {
        if account.csd == csd && account.kind <= OMNIBUS {
            served = with(served, Row::pair(csd, technical, mirror, omnibus, i as u16));
        }
    }
    served
}

// The rows of two CSDs, with new accounts, numbered by the count of those entered.
fn paired(directory: Directory, csd: u8, technical: u8) -> Directory {
    let new = (directory.accounts.count % ACCOUNTS) as u16;
    if INSIDE <= technical as usize {
        let inter = with(directory, Row::account(csd, INTER_CSD));
        return serving(inter, csd, technical, new, NO_ACCOUNT);
    }
    let rows = [Row::account(csd, MIRROR), Row::account(technical, OMNIBUS)];
    serving(with_all(directory, &rows), csd, technical, new, new + 1)
}

fn drawn_link(directory: Directory, from: u8, sign: u8, to: u8) -> Directory {
    let csd = csd_of(from);
    if sign == b'=' {
        return with(directory, Row::issuer(csd, 3 * u16::from(csd) + 2));
    }
    let technical = csd_of(to);
    let row = Row::investor(csd, technical, sign == b'>');
    with(paired(directory, csd, technical), row)
}

fn drawn(drawing: &str) -> Directory {
    let mut directory = start();
    for link in drawing.as_bytes().chunks(4) {
        if let [from, sign, to, ..] = link {
            directory = drawn_link(directory, *from, *sign, *to);
        }
    }
    directory
}

// ---- the chains

// The CSDs of the receiving participants, and the drawings. The first has D = R: no link is read.
const CHAINS: [(u8, &str); 13] = [
    (b'A', "B>I I=I"),
    (b'B', "A>C C>I B>D D>I I=I"),
    (b'B', "A>I B>I I=I"),
    (b'B', "A>B B>I I=I"),
    (b'B', "A>C B>C C>X"),
    (b'B', "A>I B>J I=I J=J"),
    (b'B', "A>I B>J I=I J=J A~B"),
    (b'B', "A>C C>X B>D D>X C~B"),
    (b'B', "A>X B>Y"),
    (b'B', "A>I B>X I=I"),
    (b'B', "A>X B>I I=I"),
    (b'B', "A>C C>I B>D D>I I=I A~B"),
    (b'B', "B>I I=I"),
];

// A delivery of 100 units from the first participant of A to the second of another CSD, or of A.
fn show(rt: &impl Print, letter: u8, drawing: &str) -> io::Result<()> {
    let csd = csd_of(letter);
    let delivering = half(0, csd, 100, 0);
    let receiving = half(3 * u16::from(csd) + 1, 0, 100, 0);
    let reply = derive_by_value(drawn(drawing), delivering, receiving, DAY);
    print!(rt; "A to {}, {drawing}: ", char::from(letter))?;
    put_letters(rt, reply.steps)?;
    put_chain(rt, reply.answer)?;
    put_steps(rt, reply.steps)
}

fn main(rt: HostRuntime) -> io::Result<()> {
    for (letter, drawing) in CHAINS {
        show(&rt, letter, drawing)?;
    }
    Ok(())
}
