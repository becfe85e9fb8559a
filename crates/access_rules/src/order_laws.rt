//! Laws of the order of the rules.
ghost use Rattle.std.specs.Prelude.{◌≡◌, ℕ, Option, codes, map, true};
ghost use Rattle.std.specs.List.{join_with_byte};
ghost use Rattle.stamp_values.specs.Ascii.{space};
ghost use Rattle.stamp_values.specs.declared.acl.Acl.{Acl};
ghost use Rattle.stamp_types.specs.declared.ask.Ask.{Ask};
ghost use Rattle.stamp_types.specs.Rules.{rule_label};
ghost use Rattle.stamp_types.specs.declared.rule.Rule.{Rule};
ghost use Rattle.access_rules.specs.declared.judgement.Verdict.TheVariants.{Deny};
ghost use Rattle.access_rules.specs.declared.keys.Keys.{Keys};
ghost use Rattle.access_rules.specs.RuleOrder.{IsNotAfter};
ghost use Rattle.access_rules.specs.Rules.{access_rules, holds, verdict_of};

/// If two rules hold, the refusal names the one that comes first in the order of the rules, or another rule that holds and comes
/// before both. So the rule that is named is after no rule that holds.
pub fn the_refusal_names_the_first_rule_that_holds()
    ensures { (keys : Option Keys) (acl : Option Acl) (q : Ask) (t : ℕ) (one other : Rule)
        → holds keys acl q t one ≡ true → holds keys acl q t other ≡ true
        → (named : Rule) × (verdict_of keys acl q t ≡ Deny named)
        × (holds keys acl q t named ≡ true) × IsNotAfter named one × IsNotAfter named other }
{}

/// The rules of permission are judged in the order of their labels, which is the order of the enum `Rule`: K1 to K5, then S1 to S11, then
/// P1 and P2. For example, a token that begins at 13:00 and expires at 11:00 is refused at 12:00 by S8, and not by S9.
pub fn the_rules_of_permission_have_the_order_of_their_labels()
    ensures { join_with_byte space (map rule_label access_rules)
        ≡ codes "K1 K2 K3 K4 K5 S1 S2 S3 S4 S5 S6 S7 S8 S9 S10 S11 P1 P2" }
{}
