//! Reading block lists.
ghost use Rattle.std.specs.Prelude.{◌≡◌, ◌≢◌, List, map, true, Ok, Err, Some, None, IfErr, IfOk, MatchResult};
ghost use Rattle.std.specs.List.{list_any};
ghost use Rattle.body_forms.specs.BlockLists.{IsBlockListBody, Entry};
ghost use Rattle.body_forms.specs.BlockListReading.{entry_view, body_entries};
ghost use Rattle.body_forms.specs.Ids.{block_list_reading, has_bad_id, wanted_entry};
ghost use Rattle.body_forms.specs.Outcomes.{FaultOf, OnForm};
ghost use Rattle.body_forms.specs.declared.body_fault.BodyFault.TheVariants as fault;

use crate::body_fault::BodyFault;
use crate::elements::{Element, read_elements};
use crate::ids::read_ids;
use stamp_values::{Items, Wanted};
use std::alloc::Global;
use xml_text::{after_mark, after_prolog, is_clean_text};

// The elements of the block list that the body is.
fn body_elements(alloc: Global, body: &[u8]) -> Result<Vec<Element<'_>>, BodyFault>
    ensures { MatchResult result
        (λ es. body_entries body.now ≡ Some (map entry_view es.items))
        (OnForm (body_entries body.now ≡ None)) }
{
    if !is_clean_text(body) {
        return Err(BodyFault::Form);
    }
    let Some(text) = after_prolog(after_mark(body)) else {
        return Err(BodyFault::Form);
    };
    read_elements(alloc, text)
}

// The blocks that the body wants, by the reading as a function.
fn wanted_blocks(alloc: Global, body: &[u8]) -> Result<Items<Wanted>, BodyFault>
    ensures value { MatchResult result
        (λ ws. block_list_reading body.now ≡ Ok ws)
        (FaultOf (block_list_reading body.now)) }
    ensures read { IfOk result (λ ws. body_entries body.now ≡ Some (map wanted_entry ws)) }
{
    let elements = body_elements(alloc, body)?;
    let wanted = read_ids(alloc, &elements)?;
    Ok(Items::new(wanted))
}

/// Reads the body of Put Block List: the blocks that it wants, in their order. The whole body is read before an id is judged.
///
/// `Form` if the body is not a block list, whatever its ids are. `Id` if it is a block list and the text of an entry is not the
/// strict Base64 of 1 to 64 bytes. `NoMemory` if memory runs out. Any number of entries is read.
///
/// Blob service REST reference, 2012-02-12, Put Block List; Extensible Markup Language 1.0.
pub fn read_block_list(alloc: Global, body: &[u8]) -> Result<Items<Wanted>, BodyFault>
    ensures read { IfOk result (λ wanted. IsBlockListBody body.now (map wanted_entry wanted)) }
    ensures form { (result ≡ Err fault.Form)
        → (entries : List Entry) → IsBlockListBody body.now entries → ⊥ }
    ensures id { (result ≡ Err fault.Id)
        → (entries : List Entry) × IsBlockListBody body.now entries
        × (list_any has_bad_id entries ≡ true) }
    ensures others { (result ≢ Err fault.TooMany) × (result ≢ Err fault.Letters)
        × (result ≢ Err fault.Time) }
    // The same reading as a function.
    ensures value { IfOk result (λ wanted. block_list_reading body.now ≡ Ok wanted) }
    ensures refused { IfErr result (FaultOf (block_list_reading body.now)) }
{
    wanted_blocks(alloc, body)
}
