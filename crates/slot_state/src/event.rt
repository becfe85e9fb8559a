//! What happens to histories.

use stamp_types::Past;

/// What happened to the lists at a key.
#[derive(Drop)]
pub enum Event {
    /// The entry became the last of its container.
    Pushed(Past),
    /// The last entry of the key's container went.
    TakenBack,
    /// Only the lists of the keys before the key are left.
    Below,
    /// Only the lists of the key and of the keys after it are left.
    From,
}
