//! The rules F1 to F8: each file reads what its rule guards, and the two files without a number put the rules in their order.

pub(crate) mod f1_target;
pub(crate) mod f2_method;
pub(crate) mod f3_block_parameters;
pub(crate) mod f3_operation;
pub(crate) mod f3_page_parameters;
pub(crate) mod f3_parameters;
pub(crate) mod f4_length;
pub(crate) mod f5_names;
pub(crate) mod f6_unserved;
pub(crate) mod f7_condition;
pub(crate) mod f7_level;
pub(crate) mod f7_metadata;
pub(crate) mod f7_values;
pub(crate) mod f8_body_limit;
pub(crate) mod header_lines;
pub(crate) mod request_line;
