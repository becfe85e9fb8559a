//! Reading a request's head.
ghost use Rattle.std.specs.Prelude.{◌≡◌, ◌≤◌, Err, IfOk, MatchResult, None, Some, length};
ghost use Rattle.std.specs.Arc.{arc_value};
ghost use Rattle.std.specs.Str.{IsUtf8};
ghost use Rattle.stamp_values.specs.Fields.{fields_len};
ghost use Rattle.request_form.specs.HeadForms.{ask_of, form_of, header_args_of};
ghost use Rattle.request_form.specs.HeadForms as head_forms;
ghost use Rattle.request_form.specs.HeadReads.{AreNames, Denies, IsLine};
ghost use Rattle.request_form.specs.HeadRules.{denial_of, head_rules};
ghost use Rattle.request_form.specs.Heads.{Accepts, Refuses, head_limit};
ghost use Rattle.request_form.specs.declared.denial.Denial.{Denial};
ghost use Rattle.request_form.specs.declared.denial.HeadFault.TheVariants as fault;

use crate::denial::{HeadFault, no_head};
use crate::parse::connection_fields::{closes, expects};
use crate::parse::credential::credential;
use crate::parse::head_parts::parse_head;
use crate::parse::parsed_head::ParsedHead;
use crate::rules::f1_target::Target;
use crate::rules::f5_names::Names;
use crate::rules::header_lines::read_fields;
use crate::rules::request_line::{Line, read_line};
use stamp_types::{Args, Ask, Body, Request, Signing, Verb};
use std::alloc::{AllocError, Global};
use std::marker::Model;
use std::sync::Arc;

/// A head that no rule refuses: a request without its body.
#[derive(Drop)]
pub struct Head {
    ask: Arc<Ask>,
    body_len: u64,
    expects: bool,
    closes: bool,
}

impl Model for Head {
    ghost use Rattle.std.specs.Prelude.{◌≤◌};
    ghost use Rattle.std.specs.Arc.{arc_value};
    ghost use Rattle.stamp_types.specs.Requests.{IsAsk};
    ghost use Rattle.stamp_values.specs.Operations.{body_limit};
    ghost use Rattle.request_form.specs.HeadForms.{Form};

    ghost Value = { Form };

    ghost view = { λ h.
        record { ask = arc_value h.ask; body_len = h.body_len; expects = h.expects; closes = h.closes } };

    ghost invariant = { λ h. IsAsk (arc_value h.ask) × (h.body_len ≤ body_limit (arc_value h.ask).op) };
}

impl Head {
    /// What the request asks, without its body.
    pub fn ask(&self) -> &Ask
        ensures { result.now ≡ self.now.ask }
    {
        &self.ask
    }

    /// The method.
    pub fn verb(&self) -> Verb
        ensures { result ≡ self.now.ask.signing.verb }
    {
        self.ask.signing.verb
    }

    /// How many bytes the body has, which follows the head.
    pub fn body_len(&self) -> u64
        ensures { result ≡ self.now.body_len }
    {
        self.body_len
    }

    /// Whether the client waits for the interim reply before it sends the body (RFC 9110, section 10.1.1).
    pub fn expects(&self) -> bool
        ensures { result ≡ self.now.expects }
    {
        self.expects
    }

    /// Whether the connection ends after the reply (RFC 9112, section 9.6).
    pub fn closes(&self) -> bool
        ensures { result ≡ self.now.closes }
    {
        self.closes
    }

    /// The request of this head and its body, which has `body_len` bytes. The body of a method other than PUT is dropped. The call takes no memory.
    pub fn with_body(self, body: Body) -> Request
        requires { length body ≡ self.body_len }
        ensures { result ≡ head_forms.with_body self body }
    {
        let body = body_by(self.ask.signing.verb, body);
        Request::fitting(self.ask, body)
    }
}

// The body, if the method has a body.
fn body_by(verb: Verb, body: Body) -> Body
    ensures { result ≡ head_forms.body_by verb body }
{
    match verb {
        Verb::Put => body,
        _ => Body::empty(),
    }
}

// What a head asks for that no rule refuses. Its fields and its query move into the answer.
#[tactic(auto, unfolding(crate::specs::HeadForms::ask_of, crate::specs::HeadForms::args_of, crate::specs::HeadForms::signing_of, crate::specs::HeadForms::credential_of))]
fn ask(head: ParsedHead<'_>, line: Line, names: Names, mut args: Args) -> Ask
    requires line { IsLine head line }
    requires names { AreNames line.op line.target.path names }
    requires args { args ≡ header_args_of line.op head.fields }
    ensures { result ≡ ask_of line.op line.verb head.entry }
{
    let Target { path, query } = line.target;
    let credential = credential(head.authorization, &query);
    args.page = line.page;
    args.block = line.block;
    args.kinds = line.kinds;
    Ask {
        op: line.op,
        key: names.key,
        blob: names.blob,
        args,
        signing: Signing {
            verb: line.verb,
            headers: head.fields,
            path,
            query,
        },
        credential,
    }
}

// Moves what is asked into memory that can be shared. The head is then small, and its request takes the share over.
fn shared(alloc: Global, ask: Ask) -> Result<Arc<Ask>, AllocError>
    ensures { IfOk result (λ shared. arc_value shared ≡ ask) }
{
    let ask = Arc::new(alloc, ask)?;
    Ok(ask)
}

// The form of a head that no rule refuses.
fn form(alloc: Global, head: ParsedHead<'_>) -> Result<Head, HeadFault>
    requires target { (length head.target ≤ head_limit) × IsUtf8 head.target }
    requires short { fields_len head.fields ≤ head_limit }
    ensures { MatchResult result
        (λ form. (denial_of head.entry ≡ None) × (form_of head.entry ≡ Some form))
        (Denies head.entry head_rules) }
{
    let line = read_line(alloc, &head)?;
    let fields = read_fields(alloc, &head, &line)?;
    let expects = expects(&head);
    let closes = closes(&head);
    let ask = shared(alloc, ask(head, line, fields.names, fields.args))?;
    Ok(Head {
        ask,
        body_len: fields.body_len,
        expects,
        closes,
    })
}

/// Reads a head: a request line, and header lines up to the empty line after them (RFC 9112, section 2.1). A head has at most
/// 16,384 bytes and 64 header lines.
///
/// `Denied` by the first of the rules F1 to F8 that holds, and by F1 if the bytes are not a head. `NoMemory` if memory runs out.
pub fn read_head(alloc: Global, text: &[u8]) -> Result<Head, HeadFault>
    ensures accepted { IfOk result (λ head. Accepts text.now head) }
    ensures denied { (denial : Denial) →
        result ≡ Err (fault.Denied denial) → Refuses text.now denial }
{
    let Some(head) = parse_head(alloc, text)? else {
        return Err(HeadFault::Denied(no_head()));
    };
    form(alloc, head)
}
