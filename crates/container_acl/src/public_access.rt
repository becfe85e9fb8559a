//! What a container's level of public access permits.
ghost use Rattle.std.specs.Prelude.{◌≡◌};
ghost use Rattle.container_acl.specs.PublicAccess.{permits};

use stamp_values::{Acl, Level};

/// Whether the container's level of public access is the level needed or a greater one. Blob service REST reference, 2012-02-12,
/// Set Container ACL.
pub fn permits(acl: &Acl, need: Level) -> bool
    ensures { result ≡ permits acl.now need }
{
    need.number() <= acl.level.number()
}
