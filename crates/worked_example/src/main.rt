// Document 01's worked example by the desk's functions alone: entered, booked, and taken back by the opposite pair.
#![tactic(auto)]

use desk::{
    bring_in, cash_total, empty, pay_in, pay_out, security_total, settle_by_value, take_out,
};
use examples::{DAY, Row, half, put_step, worked_rows};
use rules::{ACCOUNTS, Directory, POSITIONS, SECURITIES, Security};
use std::io;

#[derive(Drop)]
struct Store {
    directory: Directory,
    positions: [i64; POSITIONS],
    cash: [i64; ACCOUNTS],
}

impl Store {
    // Where the entry is refused, the directory stays as it is.
    fn enter(&mut self, rt: &impl Print, row: Row) -> io::Result<()> {
        let entered = row.entered(self.directory);
        self.directory = entered.directory;
        println!(rt; "{}", entered.answer)
    }

    // A delivery between the participants 0 of CSD 0 and 4 of CSD 1.
    fn settle(
        &mut self,
        rt: &impl Print,
        from: u16,
        to: u16,
        quantity: u64,
        amount: u64,
    ) -> io::Result<()> {
        let delivering = half(from, u8::from(0 < to), quantity, amount);
        let receiving = half(to, u8::from(0 < from), quantity, amount);
        let reply = settle_by_value(
            self.directory,
            &mut self.positions,
            &mut self.cash,
            delivering,
            receiving,
            DAY,
        );
        println!(rt; "{}", reply.answer)?;
        for step in reply.steps.rows.iter().take(reply.steps.count) {
            put_step(rt, *step)?;
        }
        self.put(rt)
    }

    // Rows of securities, positions of accounts 0 to 4, and the totals.
    fn put(&self, rt: &impl Print) -> io::Result<()> {
        print!(rt; "securities {}, positions", self.directory.securities.count)?;
        for account in 0..5 {
            print!(rt; " {}", self.positions[account * SECURITIES])?;
        }
        match security_total(self.directory, &self.positions, 0) {
            Ok(units) => print!(rt; ", total {}", units.0)?,
            Err(refusal) => print!(rt; ", no {}", u8::from(refusal))?,
        }
        match cash_total(&self.cash) {
            Ok(cents) => println!(rt; ", cash {}", cents.0),
            Err(refusal) => println!(rt; ", no {}", u8::from(refusal)),
        }
    }
}

fn book(rt: &impl Print, store: &mut Store) -> io::Result<()> {
    let brought = bring_in(store.directory, &mut store.positions, 4, 0, 100, DAY);
    println!(rt; "{brought}")?;
    store.put(rt)?;
    store.settle(rt, 4, 0, 40, 0)?;
    let paid = pay_in(store.directory, &mut store.cash, 4, 500);
    println!(rt; "{paid}")?;
    store.settle(rt, 0, 4, 40, 500)?;
    store.settle(rt, 4, 0, 101, 0)?;
    store.enter(
        rt,
        Row::Security(Security {
            isin: *b"XS0000000008",
        }),
    )?;
    store.put(rt)?;
    let taken = take_out(store.directory, &mut store.positions, 4, 0, 100, DAY);
    println!(rt; "{taken}")?;
    let paid = pay_out(store.directory, &mut store.cash, 0, 500);
    println!(rt; "{paid}")?;
    store.put(rt)
}

fn main(rt: HostRuntime) -> io::Result<()> {
    let mut store = Store {
        directory: empty(),
        positions: [0; POSITIONS],
        cash: [0; ACCOUNTS],
    };
    for row in worked_rows() {
        store.enter(&rt, row)?;
    }
    book(&rt, &mut store)
}
