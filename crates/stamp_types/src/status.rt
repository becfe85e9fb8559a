//! Status codes of replies.
ghost use Rattle.std.specs.Prelude.{◌≡◌};

/// The status of a reply (RFC 9110, section 15), if the stamp gives this status. `Success` is 200
/// OK, and `Partial` is 206 Partial Content. Each other name is the words of the status's phrase.
#[derive(Clone, Copy, Debug, PartialEq, Eq)]
pub enum Status {
    Success,
    Created,
    Accepted,
    Partial,
    NotModified,
    BadRequest,
    Forbidden,
    NotFound,
    MethodNotAllowed,
    Conflict,
    LengthRequired,
    PreconditionFailed,
    PayloadTooLarge,
    RangeNotSatisfiable,
    InternalServerError,
    ServiceUnavailable,
}

impl Status {
    ghost use Rattle.stamp_types.specs.Statuses.{status_number};

    /// The three digits of the status line, as a number.
    pub fn number(self) -> u16
        ensures { result ≡ status_number self }
    {
        match self {
            Status::Success => 200,
            Status::Created => 201,
            Status::Accepted => 202,
            Status::Partial => 206,
            Status::NotModified => 304,
            Status::BadRequest => 400,
            Status::Forbidden => 403,
            Status::NotFound => 404,
            Status::MethodNotAllowed => 405,
            Status::Conflict => 409,
            Status::LengthRequired => 411,
            Status::PreconditionFailed => 412,
            Status::PayloadTooLarge => 413,
            Status::RangeNotSatisfiable => 416,
            Status::InternalServerError => 500,
            Status::ServiceUnavailable => 503,
        }
    }
}
