//! The rules of the object on the body of a request.
ghost use Rattle.std.specs.Prelude.{◌≡◌, ℕ, if◌then◌else◌};
ghost use Rattle.stamp_types.specs.declared.code.Code.TheVariants.{InvalidBlockList, InvalidXmlDocument};
ghost use Rattle.stamp_types.specs.World.{Part};
ghost use Rattle.range_rows.specs.CauseGroups as groups;
ghost use Rattle.range_rows.specs.ObjectRules as rules;
ghost use Rattle.range_rows.specs.Readings.{is_list_fault, reading_of};

use crate::object_rules::refused;
use crate::reading::Reading;
use body_forms::BodyFault;
use stamp_types::{Ask, Body, Code, Op, Refusal, Request, Rule};

// Whether an MD5 is given that isn't the MD5 of the body. Reads no byte of the body.
fn has_other_md5(body: &Body, given: Option<[u8; 16]>) -> bool
    ensures { result ≡ rules.has_other_md5 body.now given }
{
    match given {
        Some(sum) => sum != body.sum(),
        None => false,
    }
}

// The value of x-ms-blob-content-md5.
fn kept_md5(ask: &Ask) -> Option<[u8; 16]>
    ensures { result ≡ rules.kept_md5 ask.now }
{
    match &ask.args.kept {
        Some(kept) => kept.md5,
        None => None,
    }
}

// Whether the body has another MD5 than the headers say. Put Block List keeps x-ms-blob-content-md5
// as it is.
fn is_damaged(request: &Request) -> bool
    ensures { result ≡ rules.is_damaged request.now }
{
    let ask = request.ask();
    let body = request.body();
    has_other_md5(body, ask.args.content_md5)
        || (ask.op == Op::PutBlob && has_other_md5(body, kept_md5(ask)))
}

// The code of a fault of a body: a bad id on Put Block List is a bad list, and each other fault is a bad document.
fn fault_code(op: Op, fault: BodyFault) -> Code
    ensures { result ≡ (if is_list_fault op fault then InvalidBlockList else InvalidXmlDocument) }
{
    match (op, fault) {
        (Op::PutBlockList, BodyFault::Id) => Code::InvalidBlockList,
        _ => Code::InvalidXmlDocument,
    }
}

/// The refusal because of the body alone: its MD5, its form or an id in it.
#[tactic(auto, unfolding(crate::specs::CauseGroups::group_refusal))]
pub(crate) fn body_refusal(request: &Request, reading: &Reading) -> Option<Refusal>
    requires { reading.now ≡ reading_of request.now }
    ensures { (p : Part ℕ)
        → result ≡ groups.group_refusal groups.body_causes p request.now }
{
    if is_damaged(request) {
        return Some(refused(Rule::O5, Code::Md5Mismatch));
    }
    match reading {
        Reading::Fault(fault) => Some(refused(Rule::O5, fault_code(request.ask().op, *fault))),
        _ => None,
    }
}
