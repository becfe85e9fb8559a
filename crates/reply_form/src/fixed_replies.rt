//! Replies that are always the same.
ghost use Rattle.std.specs.Prelude.{◌≡◌};
ghost use Rattle.reply_form.specs.FixedReplies.{interim_bytes, out_of_memory_bytes};

/// The interim reply, which tells the client to send the body: 25 bytes (RFC 9110, section 15.2.1).
pub fn interim_reply() -> &'static [u8]
    ensures { result.now ≡ interim_bytes }
{
    b"HTTP/1.1 100 Continue\r\n\r\n"
}

/// The reply that may be given instead of any reply if memory runs out for that reply: 94 bytes,
/// after which the connection ends. It has no date, so giving it takes no memory. The form is our
/// own choice.
#[tactic(auto, using(crate::proofs::FixedLemmas::out_of_memory_is))]
pub fn out_of_memory_reply() -> &'static [u8]
    ensures { result.now ≡ out_of_memory_bytes }
{
    b"HTTP/1.1 500 Internal Server Error\r\nConnection: close\r\nx-stamp-rule: M1\r\nContent-Length: 0\r\n\r\n"
}
