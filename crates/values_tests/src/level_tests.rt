//! That the order of the levels is the order of the reference.

use container_acl::permits;
use stamp_types::{Acl, Level, Policies};

// The container's level, the level needed, and whether the container permits what needs this level.
fn rows() -> [(Level, Level, bool); 9] {
    use Level::{Blob, Closed, Container};
    [
        (Closed, Closed, true),
        (Closed, Blob, false),
        (Closed, Container, false),
        (Blob, Closed, true),
        (Blob, Blob, true),
        (Blob, Container, false),
        (Container, Closed, true),
        (Container, Blob, true),
        (Container, Container, true),
    ]
}

#[test]
fn a_level_permits_itself_and_each_lower_level(rt: HostRuntime) {
    for (level, need, permitted) in rows() {
        let policies = Policies::empty(rt.alloc());
        let acl = Acl { level, policies };
        assert_eq!(rt; permits(&acl, need), permitted, "{level:?} {need:?}");
    }
}
