// The ways of a movement: incoming to the desk's books or the account credited, outgoing from the books or the account debited.
ghost use Rattle.std.specs.Prelude.{◌≡◌, ◌≤◌};
ghost use Rattle.rules.specs.Booking.{limit};
ghost use Rattle.rules.specs.Demands.{signed};
ghost use Rattle.booking.specs.Moves.{way_of};

#[derive(Clone, Copy, Debug, PartialEq, Eq)]
pub enum Way {
    Incoming,
    Outgoing,
}

impl Way {
    // n as a change of a balance: upwards where it comes in, downwards where it goes out.
    pub(crate) fn signed(self, n: u64) -> i64
        requires { n ≤ limit }
        ensures { result ≡ signed (way_of self) n }
    {
        match self {
            Way::Incoming => n as i64,
            Way::Outgoing => 0 - (n as i64),
        }
    }
}
