//! Error codes of replies.
ghost use Rattle.std.specs.Prelude.{◌≡◌};

use crate::status::Status;

/// The error code of a refusal ("Status and Error Codes", "Blob Service Error Codes"). Each code
/// has one status.
#[derive(Clone, Copy, Debug, PartialEq, Eq)]
pub enum Code {
    InvalidInput,
    UnsupportedHttpVerb,
    InvalidQueryParameterValue,
    MissingContentLengthHeader,
    InvalidHeaderValue,
    InvalidResourceName,
    UnsupportedHeader,
    InvalidMetadata,
    MissingRequiredHeader,
    RequestBodyTooLarge,
    InvalidAuthenticationInfo,
    AuthenticationFailed,
    ResourceNotFound,
    ContainerNotFound,
    ContainerAlreadyExists,
    BlobNotFound,
    ConditionNotMet,
    /// A condition of a read fails: 304. The text is the same as the text of `ConditionNotMet`
    /// (412).
    NotModified,
    BlobAlreadyExists,
    Md5Mismatch,
    InvalidXmlDocument,
    InvalidBlockList,
    BlockListTooLong,
    InvalidBlobOrBlock,
    BlockCountExceedsLimit,
    InvalidRange,
    InternalError,
    ServerBusy,
    OperationTimedOut,
}

impl Code {
    ghost use Rattle.stamp_types.specs.Codes.{code_text, code_status, has_error_body};

    /// The code as the error body has it.
    pub fn text(self) -> &'static str
        ensures { result.now ≡ code_text self }
    {
        match self {
            Code::InvalidInput => "InvalidInput",
            Code::UnsupportedHttpVerb => "UnsupportedHttpVerb",
            Code::InvalidQueryParameterValue => "InvalidQueryParameterValue",
            Code::MissingContentLengthHeader => "MissingContentLengthHeader",
            Code::InvalidHeaderValue => "InvalidHeaderValue",
            Code::InvalidResourceName => "InvalidResourceName",
            Code::UnsupportedHeader => "UnsupportedHeader",
            Code::InvalidMetadata => "InvalidMetadata",
            Code::MissingRequiredHeader => "MissingRequiredHeader",
            Code::RequestBodyTooLarge => "RequestBodyTooLarge",
            Code::InvalidAuthenticationInfo => "InvalidAuthenticationInfo",
            Code::AuthenticationFailed => "AuthenticationFailed",
            Code::ResourceNotFound => "ResourceNotFound",
            Code::ContainerNotFound => "ContainerNotFound",
            Code::ContainerAlreadyExists => "ContainerAlreadyExists",
            Code::BlobNotFound => "BlobNotFound",
            Code::ConditionNotMet => "ConditionNotMet",
            Code::NotModified => "ConditionNotMet",
            Code::BlobAlreadyExists => "BlobAlreadyExists",
            Code::Md5Mismatch => "Md5Mismatch",
            Code::InvalidXmlDocument => "InvalidXmlDocument",
            Code::InvalidBlockList => "InvalidBlockList",
            Code::BlockListTooLong => "BlockListTooLong",
            Code::InvalidBlobOrBlock => "InvalidBlobOrBlock",
            Code::BlockCountExceedsLimit => "BlockCountExceedsLimit",
            Code::InvalidRange => "InvalidRange",
            Code::InternalError => "InternalError",
            Code::ServerBusy => "ServerBusy",
            Code::OperationTimedOut => "OperationTimedOut",
        }
    }

    /// Whether a reply that has the code carries the error in its body: a reply of 304 has no body.
    pub fn has_error_body(self) -> bool
        ensures { result ≡ has_error_body self }
    {
        self != Code::NotModified
    }

    /// The status of a reply that has the code.
    pub fn status(self) -> Status
        ensures { result ≡ code_status self }
    {
        match self {
            Code::InvalidInput => Status::BadRequest,
            Code::UnsupportedHttpVerb => Status::MethodNotAllowed,
            Code::InvalidQueryParameterValue => Status::BadRequest,
            Code::MissingContentLengthHeader => Status::LengthRequired,
            Code::InvalidHeaderValue => Status::BadRequest,
            Code::InvalidResourceName => Status::BadRequest,
            Code::UnsupportedHeader => Status::BadRequest,
            Code::InvalidMetadata => Status::BadRequest,
            Code::MissingRequiredHeader => Status::BadRequest,
            Code::RequestBodyTooLarge => Status::PayloadTooLarge,
            Code::InvalidAuthenticationInfo => Status::BadRequest,
            Code::AuthenticationFailed => Status::Forbidden,
            Code::ResourceNotFound => Status::NotFound,
            Code::ContainerNotFound => Status::NotFound,
            Code::ContainerAlreadyExists => Status::Conflict,
            Code::BlobNotFound => Status::NotFound,
            Code::ConditionNotMet => Status::PreconditionFailed,
            Code::NotModified => Status::NotModified,
            Code::BlobAlreadyExists => Status::Conflict,
            Code::Md5Mismatch => Status::BadRequest,
            Code::InvalidXmlDocument => Status::BadRequest,
            Code::InvalidBlockList => Status::BadRequest,
            Code::BlockListTooLong => Status::BadRequest,
            Code::InvalidBlobOrBlock => Status::BadRequest,
            Code::BlockCountExceedsLimit => Status::Conflict,
            Code::InvalidRange => Status::RangeNotSatisfiable,
            Code::InternalError => Status::InternalServerError,
            Code::ServerBusy => Status::ServiceUnavailable,
            Code::OperationTimedOut => Status::InternalServerError,
        }
    }
}
