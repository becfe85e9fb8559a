//! What the token of a request replaces in the reply.
ghost use Rattle.std.specs.Prelude.{◌≡◌, IsTrue, true};
ghost use Rattle.std.specs.Option.{option_copied};
ghost use Rattle.sas_token.specs.TokenReading.{replaced_headers};
ghost use Rattle.sas_token.specs.Tokens.{are_visible};
ghost use Rattle.access_rules.specs.Rules.{on_token};
ghost use Rattle.policy_book.specs.Judgements.{IsOfAsk};
ghost use Rattle.stamp_model.specs.Overrides as overrides;

use policy_book::Judged;
use range_rows::Replacements;
use sas_token::{Overrides, replaced_headers};
use stamp_types::{Ask, Credential, Op};

fn tells_kept(op: Op) -> bool
    ensures { result ≡ overrides.tells_kept op }
{
    matches!(op, Op::GetBlob | Op::BlobProperties)
}

fn has_token(ask: &Ask) -> bool
    ensures { result ≡ on_token ask.now.credential }
{
    matches!(&ask.credential, Credential::Token)
}

// The texts that override headers, as those that replace headers of a blob.
fn replacing<'a>(texts: &Overrides<'a>) -> Replacements<'a>
    requires { IsTrue (are_visible texts.now) }
    ensures { result ≡ overrides.replaced_by texts.now }
{
    Replacements::new(
        texts.cache_control,
        texts.disposition,
        texts.encoding,
        texts.language,
        texts.content_type,
    )
}

// The headers that the token of a judgement replaces.
#[tactic(auto, using(crate::proofs::OverrideLemmas::is_visible_one, crate::proofs::OverrideLemmas::by_none, crate::proofs::OverrideLemmas::by_some))]
fn kept_replacements<'a>(judged: &Judged<'a>) -> Replacements<'a>
    requires { on_token judged.now.ask.credential ≡ true }
    ensures { result ≡ overrides.replaced_by (replaced_headers judged.now.ask.signing.query) }
{
    match judged.token() {
        Some(token) => replacing(&token.overrides),
        None => Replacements::none(),
    }
}

// The headers that the token of a query replaces.
fn query_replacements(ask: &Ask) -> Replacements<'_>
    ensures { result ≡ overrides.replaced_by (replaced_headers ask.now.signing.query) }
{
    let texts = replaced_headers(&ask.signing.query);
    replacing(&texts)
}

/// The replacements of a request's reply. The query is looked at only if the request is on the signature route and reads a blob or its
/// properties, and if no judgement keeps its token.
pub(crate) fn replacements<'a>(ask: &'a Ask, judged: Option<&'a Judged<'_>>) -> Replacements<'a>
    requires { IsOfAsk (option_copied judged) ask.now }
    ensures { result ≡ overrides.overrides_of ask.now }
{
    if !tells_kept(ask.op) || !has_token(ask) {
        return Replacements::none();
    }
    if let Some(judged) = judged {
        return kept_replacements(judged);
    }
    query_replacements(ask)
}
