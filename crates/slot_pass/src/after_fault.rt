//! Why a slot does not answer after a pass.

/// Why a slot does not answer after a pass.
#[derive(Clone, Copy, PartialEq, Eq, Debug)]
pub enum AfterFault {
    /// The pair of the pass at this place, counted from 0, is not the slot's pair of this place.
    Pairs(usize),
    /// The entry of the front at this place, counted from 0, is not the slot's entry of this place.
    Alien(usize),
    /// Memory ran out for the new front.
    NoMemory,
}
