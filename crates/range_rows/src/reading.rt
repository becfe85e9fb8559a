//! What the body of a request says besides its bytes.
ghost use Rattle.std.specs.Prelude.{◌≡◌, ◌≢◌, IfOk, IsErr, IsTrue, Ok};
ghost use Rattle.body_forms.specs.Ids.{block_list_reading};
ghost use Rattle.body_forms.specs.PolicyValues.{policies_reading};
ghost use Rattle.body_forms.specs.declared.body_fault.BodyFault.TheVariants.{NoMemory};
ghost use Rattle.range_rows.specs.Readings as readings;
ghost use Rattle.range_rows.specs.declared.reading.Reading.TheVariants as reading;

use body_forms::{BodyFault, read_block_list, read_policies};
use stamp_types::{Items, Op, Policies, Request, Wanted};
use std::alloc::{AllocError, Global};

/// What the body of a request says besides its bytes. It is read once, from the request alone,
/// before rows are touched.
#[derive(Drop)]
pub enum Reading {
    /// The body says nothing besides its bytes.
    Nothing,
    /// The body is a block list, which wants these blocks in this order ("Put Block List").
    BlockList(Items<Wanted>),
    /// The body is the stored policies of a container ("Set Container ACL").
    Policies(Policies),
    /// The body is not what its operation wants.
    Fault(BodyFault),
}

// What a body says that is read as a block list.
fn read_list(alloc: Global, body: &[u8]) -> Result<Reading, AllocError>
    ensures value { IfOk result (λ said.
        said ≡ readings.reading_from reading.BlockList (block_list_reading body.now)) }
    ensures no_memory { result ≢ Ok (reading.Fault NoMemory) }
{
    match read_block_list(alloc, body) {
        Ok(wanted) => Ok(Reading::BlockList(wanted)),
        Err(BodyFault::NoMemory) => Err(AllocError),
        Err(fault) => Ok(Reading::Fault(fault)),
    }
}

// What a body says that is read as stored policies.
fn read_acl(alloc: Global, body: &[u8]) -> Result<Reading, AllocError>
    ensures value { IfOk result (λ said.
        said ≡ readings.reading_from reading.Policies (policies_reading body.now)) }
    ensures no_memory { result ≢ Ok (reading.Fault NoMemory) }
{
    match read_policies(alloc, body) {
        Ok(policies) => Ok(Reading::Policies(policies)),
        Err(BodyFault::NoMemory) => Err(AllocError),
        Err(fault) => Ok(Reading::Fault(fault)),
    }
}

impl Reading {
    /// Reads what the body of a request says. The body of a Put Block List is read: any number of
    /// entries is read, and no block is looked up. The body of a Set Container ACL is read, and no
    /// other body.
    ///
    /// `AllocError` if memory runs out for what is read. The reading is never the fault that memory
    /// ran out.
    #[tactic(auto, unfolding(crate::specs::Readings::reading_by))]
    pub fn of(alloc: Global, request: &Request) -> Result<Reading, AllocError>
        ensures read { IfOk result (λ reading. reading ≡ readings.reading_of request.now) }
        ensures memory { IsErr result → IsTrue (readings.reads_body request.now.ask.op) }
        ensures no_memory { result ≢ Ok (reading.Fault NoMemory) }
    {
        match request.ask().op {
            Op::PutBlockList => read_list(alloc, request.body().as_slice()),
            Op::SetAcl => read_acl(alloc, request.body().as_slice()),
            _ => Ok(Reading::Nothing),
        }
    }
}
