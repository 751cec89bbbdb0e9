// Derivation and settlement in a lent list of steps that is longer than any chain and full of other numbers. After each call the steps behind the K that
// it writes, or all of them where it refuses, are held against what they were. The list is filled anew for each call.
#![tactic(auto)]

ghost use Rattle.std.specs.Prelude.{◌≡◌, ◌≤◌, take, drop};
ghost use Rattle.rules.specs.Outcomes.{derivation_on, settlement_on};
ghost use Rattle.lent_steps.specs.Lent.{size, halves_of, left, back_from};

use examples::{DAY, put_answer, put_step, wider};
use rules::{
    ACCOUNTS, Answer, DELIVERING, Directory, Half, POSITIONS, RECEIVING, STEPS, SidedHalf, Step,
};
use std::{fmt, io};

// Steps in the list, of which a call is lent the first ones or all.
const LIST: usize = 20;

// What a call answered, and the list after it.
#[derive(Clone, Copy)]
struct Back {
    answer: Answer,
    steps: [Step; LIST],
}

// Two halves as a call is given them: delivering first, or with their sides, in either order.
#[derive(Clone, Copy)]
enum Halves {
    Ordered(Half, Half),
    Sided(SidedHalf, SidedHalf),
}

// ---- the calls

impl Halves {
    // A derivation that is lent the first `lent` steps of the list.
    fn derive(self, directory: Directory, list: [Step; LIST], lent: usize) -> Back
        requires { lent ≤ size }
        ensures { result ≡ back_from (derivation_on directory (take lent list) (halves_of self) 0) (drop lent list) }
    {
        let mut steps = list;
        let lent = &mut steps[..lent];
        let answer = match self {
            Halves::Ordered(delivering, receiving) => desk::derive(
                directory, lent, delivering, receiving, DAY,
            ),
            Halves::Sided(first, second) => desk::derive_sided(directory, lent, first, second, DAY),
        };
        Back { answer, steps }
    }

    // A settlement, likewise.
    fn settle(
        self,
        directory: Directory,
        positions: &mut [i64],
        cash: &mut [i64],
        list: [Step; LIST],
        lent: usize,
    ) -> Back
        requires { lent ≤ size }
        ensures { (result
            ≡ back_from (settlement_on directory positions.old cash.old (take lent list) (halves_of self) 0) (drop lent list))
            × (positions.new
            ≡ (settlement_on directory positions.old cash.old (take lent list) (halves_of self) 0).store.positions)
            × (cash.new ≡ (settlement_on directory positions.old cash.old (take lent list) (halves_of self) 0).store.cash) }
    {
        let mut steps = list;
        let lent = &mut steps[..lent];
        let answer = match self {
            Halves::Ordered(delivering, receiving) => {
                desk::settle(directory, positions, cash, lent, delivering, receiving, DAY)
            }
            Halves::Sided(first, second) => {
                desk::settle_sided(directory, positions, cash, lent, first, second, DAY)
            }
        };
        Back { answer, steps }
    }
}

// ---- the list

// What stands at i before a call: a step of no chain.
fn other(i: usize) -> Step {
    let n = (i % LIST) as u16;
    Step {
        csd: 77,
        debited: 7_000 + n,
        credited: 8_000 + n,
    }
}

fn others() -> [Step; LIST] {
    std::array::from_fn(other)
}

impl Back {
    // How many of the steps behind the first `count` are what they were.
    fn untouched(&self, count: usize) -> usize {
        let before = others();
        self.steps
            .iter()
            .zip(&before)
            .skip(count)
            .filter(|(after, before)| after == before)
            .count()
    }

    // The answer, how many of the other steps are untouched, and the K steps.
    fn put(&self, rt: &impl Print) -> io::Result<()> {
        let count = put_answer(rt, self.answer)?;
        print!(rt; ", {}", self.untouched(count))?;
        if count < LIST {
            print!(rt; " of {}", LIST - count)?;
        }
        println!(rt; " other steps untouched")?;
        for step in self.steps.iter().take(count) {
            put_step(rt, *step)?;
        }
        Ok(())
    }
}

// ---- the calls that are shown

// The quantity and account of each half, or its side and account.
impl fmt::Display for Halves {
    fn fmt<W: fmt::Write>(&self, f: &mut fmt::Formatter<W>) -> fmt::Result {
        match self {
            Halves::Ordered(delivering, receiving) => write!(
                f,
                "{} from {}, {} to {}",
                delivering.quantity, delivering.account, receiving.quantity, receiving.account
            ),
            Halves::Sided(first, second) => write!(
                f,
                "side {} of {}, side {} of {}",
                first.side, first.half.account, second.side, second.half.account
            ),
        }
    }
}

// The CSD of a participant.
fn home(account: u16) -> u8 {
    match account {
        0 => 0,
        4 | 5 => 1,
        6 => 2,
        _ => 3,
    }
}

fn half(account: u16, counterpart: u16, quantity: u64) -> Half {
    examples::half(account, home(counterpart), quantity, 0)
}

// A delivery between two participants, of which the receiving half may have another quantity.
fn ordered(from: u16, to: u16, delivered: u64, received: u64) -> Halves {
    Halves::Ordered(half(from, to, delivered), half(to, from, received))
}

// Halves of 40 units, each of a side and an account.
fn sided(first: (u8, u16), second: (u8, u16)) -> Halves {
    Halves::Sided(
        SidedHalf {
            side: first.0,
            half: half(first.1, second.1, 40),
        },
        SidedHalf {
            side: second.0,
            half: half(second.1, first.1, 40),
        },
    )
}

fn show_derive(rt: &impl Print, directory: Directory, lent: usize, halves: Halves) -> io::Result<()>
    requires { lent ≤ size }
{
    print!(rt; "derive {halves}, lent {lent}: ")?;
    halves.derive(directory, others(), lent).put(rt)
}

// A settlement of units of the 100 that are brought in before it.
fn show_settle(rt: &impl Print, directory: Directory, lent: usize, halves: Halves) -> io::Result<()>
    requires { lent ≤ size }
{
    let mut positions = [0i64; POSITIONS];
    let mut cash = [0i64; ACCOUNTS];
    desk::bring_in(directory, &mut positions, 4, 0, 100, DAY);
    print!(rt; "settle {halves}, lent {lent}: ")?;
    halves
        .settle(directory, &mut positions, &mut cash, others(), lent)
        .put(rt)
}

fn derivations(rt: &impl Print, directory: Directory) -> io::Result<()> {
    show_derive(rt, directory, LIST, ordered(4, 5, 40, 40))?;
    show_derive(rt, directory, LIST, ordered(4, 0, 40, 40))?;
    show_derive(rt, directory, LIST, ordered(6, 0, 40, 40))?;
    show_derive(rt, directory, LIST, ordered(4, 0, 40, 41))?;
    show_derive(rt, directory, LIST, ordered(4, 4, 40, 40))?;
    show_derive(rt, directory, LIST, ordered(9, 0, 40, 40))?;
    show_derive(rt, directory, STEPS, ordered(6, 0, 40, 40))?;
    show_derive(rt, directory, STEPS - 1, ordered(6, 0, 40, 40))?;
    show_derive(rt, directory, 3, ordered(6, 0, 40, 40))
}

// The halves of one delivery in both orders, with one side twice, and with a byte that is no side.
fn sided_derivations(rt: &impl Print, directory: Directory) -> io::Result<()> {
    let in_order = sided((DELIVERING, 4), (RECEIVING, 0));
    show_derive(rt, directory, LIST, in_order)?;
    show_derive(rt, directory, LIST, sided((RECEIVING, 0), (DELIVERING, 4)))?;
    show_derive(rt, directory, LIST, sided((DELIVERING, 4), (DELIVERING, 0)))?;
    show_derive(rt, directory, LIST, sided((2, 4), (RECEIVING, 0)))?;
    show_derive(rt, directory, STEPS - 1, in_order)
}

fn settlements(rt: &impl Print, directory: Directory) -> io::Result<()> {
    show_settle(rt, directory, LIST, ordered(4, 0, 40, 40))?;
    show_settle(rt, directory, LIST, ordered(4, 0, 101, 101))?;
    show_settle(rt, directory, 3, ordered(4, 0, 40, 40))?;
    show_settle(rt, directory, LIST, sided((RECEIVING, 0), (DELIVERING, 4)))?;
    show_settle(rt, directory, LIST, sided((RECEIVING, 0), (RECEIVING, 4)))
}

fn main(rt: HostRuntime) -> io::Result<()> {
    let directory = wider();
    derivations(&rt, directory)?;
    sided_derivations(&rt, directory)?;
    settlements(&rt, directory)
}
