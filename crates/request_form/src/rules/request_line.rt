//! What a request line says, by the rules F1, F2 and F3 in their order.
ghost use Rattle.std.specs.Prelude.{◌≤◌, IsUtf8, MatchResult, length};
ghost use Rattle.request_form.specs.Heads.{head_limit};
ghost use Rattle.request_form.specs.HeadReads.{Denies, IsLine, Passes, line_rules};

use crate::denial::{HeadFault, denied, no_head};
use crate::parse::parsed_head::ParsedHead;
use crate::rules::f1_target::{Target, read_target};
use crate::rules::f2_method::verb;
use crate::rules::f3_operation::{Operation, read_operation};
use crate::value_fault::ValueFault;
use stamp_types::{BlockId, BlockKinds, Code, Op, Page, Rule, Verb};
use std::alloc::Global;

/// What a request line says that no rule refuses.
#[derive(Drop)]
pub struct Line {
    pub verb: Verb,
    pub op: Op,
    /// The id of the block, if the operation is Put Block.
    pub block: Option<BlockId>,
    /// The kinds of blocks, if the operation is Get Block List.
    pub kinds: Option<BlockKinds>,
    /// The names that are to be listed, if the operation lists names.
    pub page: Option<Page>,
    pub target: Target,
}

/// What the request line says: the target by F1, the method by F2, the operation by F3.
///
/// `Denied` by the first of these rules that holds; `NoMemory` if memory runs out.
#[tactic(auto, unfolding(crate::specs::HeadRules::denial_among, crate::specs::HeadRules::op_of))]
pub(crate) fn read_line(alloc: Global, head: &ParsedHead<'_>) -> Result<Line, HeadFault>
    requires target { (length head.now.target ≤ head_limit) × IsUtf8 head.now.target }
    ensures { MatchResult result
        (λ l. Passes head.now line_rules × IsLine head.now l)
        (Denies head.now line_rules) }
{
    let Some(target) = read_target(alloc, head.target)? else {
        return Err(HeadFault::Denied(no_head()));
    };
    let Some(verb) = verb(alloc, head.method)? else {
        return Err(HeadFault::Denied(denied(Rule::F2, Code::UnsupportedHttpVerb, None)));
    };
    let Operation {
        op,
        block,
        kinds,
        page,
    } = match read_operation(alloc, verb, &target) {
        Ok(operation) => operation,
        Err(ValueFault::Refused(code)) => {
            return Err(HeadFault::Denied(denied(Rule::F3, code, Some(verb))));
        }
        Err(ValueFault::NoMemory) => return Err(HeadFault::NoMemory),
    };
    Ok(Line {
        verb,
        op,
        block,
        kinds,
        page,
        target,
    })
}
