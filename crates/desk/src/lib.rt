// The functions that others call. The calls themselves stand in `calls`, their steps by value; here derivation and settlement also write them to a lent
// list. Each answers what the rules' call answers on what it is handed. Where that is Refused, nothing lent or handed in has changed.
#![tactic(auto)]

mod lent; // lent.rt: derivation and settlement, with their steps in a lent list

pub use calls::{
    bring_in, cash_total, derive_by_value, derive_reply, derive_sided_reply, empty, enter_account,
    enter_csd, enter_link, enter_pair, enter_security, pay_in, pay_out, security_total,
    settle_by_value, settle_reply, settle_sided_reply, take_out,
};
pub use lent::{derive, derive_sided, settle, settle_sided};
