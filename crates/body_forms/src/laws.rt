//! Laws of the grammar. Each law is the contract of a function that does nothing.
ghost use Rattle.std.specs.Prelude.{◌≡◌, ◌≢◌, ◌↔◌, List, ℕ, map, true, Option, Some, IfSome, Ok, Err, All};
ghost use Rattle.std.specs.List.{list_any};
ghost use Rattle.stamp_values.specs.declared.block.Wanted.{Wanted};
ghost use Rattle.stamp_values.specs.declared.policy.Policy.{Policy};
ghost use Rattle.stamp_types.specs.declared.args.Page.{Page};
ghost use Rattle.body_forms.specs.BlockLists.{IsBlockListBody, Entry};
ghost use Rattle.xml_text.specs.Elements.{HasNoWhiteEnds};
ghost use Rattle.body_forms.specs.BlockListReading.{body_entries};
ghost use Rattle.body_forms.specs.Ids.{block_list_reading, has_bad_id, wanted_entry, HaveBlockIds};
ghost use Rattle.body_forms.specs.declared.body_fault.BodyFault.{BodyFault};
ghost use Rattle.body_forms.specs.declared.body_fault.BodyFault.TheVariants as fault;
ghost use Rattle.body_forms.specs.PageTokens.{BlobEntries, ContainerEntries, blob_list_tokens, container_list_tokens, IsCleanBlob, IsCleanContainer, IsCleanEntry, IsCleanPage};
ghost use Rattle.xml_text.specs.WrittenTokens.{IsCleanText};
ghost use Rattle.body_forms.specs.PolicyReading.{body_policies};
ghost use Rattle.body_forms.specs.Policies.{Sent, ArePoliciesBody};
ghost use Rattle.body_forms.specs.PolicyValues.{policies_reading, SaysPolicies, SaysFault};
ghost use Rattle.body_forms.specs.KeptPolicies.{ArePolicies};
ghost use Rattle.xml_text.specs.TokenReading.{body_tokens};
ghost use Rattle.body_forms.specs.WrittenPages.{blob_list_text, container_list_text};
ghost use Rattle.body_forms.specs.WrittenPolicies.{policies_text};

/// A body is a block list in one way at most: it has one list of entries.
pub fn a_body_is_read_in_one_way()
    ensures { (body : List ℕ) (one other : List Entry)
        → IsBlockListBody body one → IsBlockListBody body other → one ≡ other }
{}

/// The reading as a function gives the entries of the grammar, and of nothing else.
pub fn the_reading_is_the_grammar()
    ensures { (body : List ℕ) (entries : List Entry)
        → IsBlockListBody body entries ↔ (body_entries body ≡ Some entries) }
{}

/// A body is read as these blocks if and only if it is the block list of these blocks. The fault is `Form` if and only if the body is
/// not a block list, and `Id` if and only if it is a block list with an id that is not the strict Base64 of 1 to 64 bytes. There is
/// no other fault.
pub fn block_lists_are_read_as_the_grammar_says()
    ensures read { (body : List ℕ) (wanted : List Wanted) → HaveBlockIds wanted
        → (block_list_reading body ≡ Ok wanted) ↔ IsBlockListBody body (map wanted_entry wanted) }
    ensures form { (body : List ℕ) → (block_list_reading body ≡ Err fault.Form)
        ↔ ((entries : List Entry) → IsBlockListBody body entries → ⊥) }
    ensures id { (body : List ℕ) → (block_list_reading body ≡ Err fault.Id)
        ↔ ((entries : List Entry) × IsBlockListBody body entries
        × (list_any has_bad_id entries ≡ true)) }
    ensures no_other { (body : List ℕ) (f : BodyFault) → f ≢ fault.Form → f ≢ fault.Id
        → block_list_reading body ≢ Err f }
{}

/// A body is a list of stored policies in one way at most.
pub fn policies_are_read_in_one_way()
    ensures { (body : List ℕ) (one other : List Sent)
        → ArePoliciesBody body one → ArePoliciesBody body other → one ≡ other }
{}

/// The reading as a function gives the policies of the grammar, and of nothing else.
pub fn the_reading_of_policies_is_the_grammar()
    ensures { (body : List ℕ) (policies : List Sent)
        → ArePoliciesBody body policies ↔ (body_policies body ≡ Some policies) }
{}

/// A body is read as these policies if and only if it says these policies, and a fault is answered if and only if it is the first fault
/// of the body.
pub fn policies_are_read_as_the_grammar_says()
    ensures read { (body : List ℕ) (policies : List Policy)
        → (policies_reading body ≡ Ok policies) ↔ SaysPolicies body policies }
    ensures fault { (body : List ℕ) (f : BodyFault) → f ≢ fault.NoMemory
        → (policies_reading body ≡ Err f) ↔ SaysFault body f }
{}

/// Stored policies that were written are read as these policies: policies that were read before, and any policies that a container may
/// have, if no id has white space at its ends.
pub fn policies_are_read_as_they_were_written()
    ensures read { (body : List ℕ) (policies : List Policy) → policies_reading body ≡ Ok policies
        → policies_reading (policies_text policies) ≡ Ok policies }
    ensures any { (policies : List Policy) → ArePolicies policies
        → All (λ p. HasNoWhiteEnds p.id) policies
        → policies_reading (policies_text policies) ≡ Ok policies }
{}

/// A list that was written is read as its entries: as the tags of one element, and between them the names, the values of metadata, the content
/// types, what was asked for and the next marker as they are. So no name ends an element or adds an entry. This holds if the texts are UTF-8
/// without control characters, as names of blobs and parameters of requests are.
pub fn a_written_list_reads_as_its_entries()
    ensures blobs { (page : Page) (entries : BlobEntries) (next : Option (List ℕ))
        → IsCleanPage page → All (IsCleanEntry IsCleanBlob) entries → IfSome next IsCleanText
        → body_tokens (blob_list_text page entries next) ≡ Some (blob_list_tokens page entries next) }
    ensures containers { (page : Page) (entries : ContainerEntries) (next : Option (List ℕ))
        → IsCleanPage page → All (IsCleanEntry IsCleanContainer) entries → IfSome next IsCleanText
        → body_tokens (container_list_text page entries next)
        ≡ Some (container_list_tokens page entries next) }
{}
