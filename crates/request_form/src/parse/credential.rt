//! By which word a head asks.
ghost use Rattle.std.specs.Prelude.{◌≡◌, codes};
ghost use Rattle.stamp_values.specs.Fields.{is_sent};
ghost use Rattle.request_form.specs.HeadForms.{credential_by};

use stamp_types::{Bytes, Credential, FieldList, Items};

/// By which word a request with these Authorization headers and this query asks.
pub(crate) fn credential(authorization: Items<Bytes>, query: &FieldList) -> Credential
    ensures { result ≡ credential_by authorization (is_sent query.now (codes "sig")) }
{
    if !authorization.as_slice().is_empty() {
        Credential::Shared(authorization)
    } else if query.is_sent(b"sig") {
        Credential::Token
    } else {
        Credential::Anonymous
    }
}
