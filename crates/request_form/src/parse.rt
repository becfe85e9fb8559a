//! What turns the bytes of a head into its parts.

pub(crate) mod connection_fields;
pub(crate) mod credential;
pub(crate) mod head_fields;
pub(crate) mod head_parts;
pub(crate) mod marks;
pub(crate) mod parsed_head;
pub(crate) mod path;
pub(crate) mod path_kind;
pub(crate) mod range_field;
pub(crate) mod texts;
