//! That keys are not printed.

use crate::access_cases::keys;

#[test]
fn no_byte_of_a_key_is_printed(rt: HostRuntime) {
    let alloc = rt.alloc();
    let keys = keys(&rt, alloc, "devstoreaccount1");
    let printed = format!(in alloc; "{keys:?} {keys:#?}").expect(&rt, "memory");
    assert!(rt; printed.as_str() == "Keys(..) Keys(..)");
}
