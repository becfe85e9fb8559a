//! The reserve of memory is held, given up, and taken again.

use crate::reserve::Reserve;

#[test]
fn a_reserve_is_given_up_once_and_taken_again(rt: HostRuntime) {
    let reserve = Reserve::new(rt.alloc());
    assert!(rt; reserve.is_held());
    assert!(rt; reserve.give_up(&rt));
    assert!(rt; !reserve.is_held());
    assert!(rt; !reserve.give_up(&rt));
    assert!(rt; reserve.take_again(&rt, rt.alloc()));
    assert!(rt; reserve.is_held());
    assert!(rt; reserve.take_again(&rt, rt.alloc()));
}
