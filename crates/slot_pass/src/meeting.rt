//! How the fronts of two passes lie to each other.
ghost use Rattle.std.specs.Prelude.{◌≡◌, IfErr, IfOk};
ghost use Rattle.slot_pass.specs.Passes.{IsMeetFault, IsOrder};

use crate::comparing::front_differs;
use crate::pass::Pass;

/// The front of two that begins the other.
#[derive(Clone, Copy, PartialEq, Eq, Debug)]
pub enum Order {
    /// They are equal.
    Same,
    /// The first begins the second, which is longer.
    First,
    /// The second begins the first, which is longer.
    Second,
}

/// Why two passes are not of one history.
#[derive(Clone, Copy, PartialEq, Eq, Debug)]
pub enum MeetFault {
    /// They are of different containers.
    Keys,
    /// Both fronts have an entry at this place, counted from 0. The two entries differ, and all entries before them are the same.
    Differ(usize),
}

/// The pass of two that was shown more of their container. Takes no memory. The time is linear in the shorter front.
///
/// `Keys` if the passes are of different containers, or else `Differ` if neither front begins the other.
#[tactic(auto, using(crate::proofs::ListLemmas::same_of, crate::proofs::ListLemmas::first_of, crate::proofs::ListLemmas::second_of, crate::proofs::ListLemmas::parts_of))]
pub fn meet(one: &Pass, other: &Pass) -> Result<Order, MeetFault>
    ensures order { IfOk result (λ order. (one.now.key ≡ other.now.key) × IsOrder one.now.front other.now.front order) }
    ensures fault { IfErr result (λ fault. IsMeetFault one.now other.now fault) }
{
    if !one.key.same(&other.key) {
        return Err(MeetFault::Keys);
    }
    match front_differs(one.front.as_slice(), other.front.as_slice()) {
        None if one.front.len() == other.front.len() => Ok(Order::Same),
        None => Ok(Order::First),
        Some(at) if at == other.front.len() => Ok(Order::Second),
        Some(at) => Err(MeetFault::Differ(at)),
    }
}
