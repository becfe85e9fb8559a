//! The service of one account over a core whose nodes are in memory.
#![tactic(auto)]

mod service;
#[cfg(test)]
mod service_tests;

pub use service::CoreService;
