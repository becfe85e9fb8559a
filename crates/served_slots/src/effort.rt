//! How much of a sweep one step makes: the lock of a slot is held for one step, so other requests on the slot wait for so much at most.

use stamp_types::Request;
use stored_rows::StepLimit;

/// A step of a slot while no request comes to it.
pub(crate) const AT_REST: StepLimit = StepLimit {
    rows: 64,
    blocks: 2_000,
    bytes: 16_777_216,
};

/// A step of a slot while memory is short.
pub(crate) const IN_NEED: StepLimit = StepLimit {
    rows: 256,
    blocks: 2_000,
    bytes: 67_108_864,
};

/// The step that a request makes before it is served, if it writes. A request that only reads makes none.
pub(crate) fn step_before(request: &Request) -> Option<StepLimit> {
    if request.ask().op.writes() {
        Some(StepLimit::of_a_write(request.body().len() as u64))
    } else {
        None
    }
}
