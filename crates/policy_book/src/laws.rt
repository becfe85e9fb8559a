//! Laws of the audit book.
ghost use Rattle.std.specs.Prelude.{◌≡◌, false};
ghost use Rattle.stamp_types.specs.declared.rule.Rule.{Rule};
ghost use Rattle.access_rules.specs.Routes.{Admits};
ghost use Rattle.access_rules.specs.Rules.{holds, way_of};
ghost use Rattle.policy_book.specs.Entries.{AuditEntry, IsTrueEntry};

/// What is known of every entry of an audit book, since its type keeps `IsTrueEntry` and `Entry::revision` hands it out. Under the
/// access and the keys of its revision none of the rules K, S and P holds for its request at its moment. Its way is the route of its
/// request. And this route itself admits the request, as the reference says it: by a key of the revision, by a token that a key of the
/// revision signed, or by the level of the revision's access.
pub fn audit_entries_are_true()
    ensures rules { (e : AuditEntry) → IsTrueEntry e → (rule : Rule)
        → holds e.revision.keys e.revision.acl e.request.ask e.moment rule ≡ false }
    ensures way { (e : AuditEntry) → IsTrueEntry e → e.way ≡ way_of e.request.ask.credential }
    ensures route { (e : AuditEntry) → IsTrueEntry e
        → Admits e.revision.keys e.revision.acl e.request.ask.credential e.request.ask e.moment }
{}
