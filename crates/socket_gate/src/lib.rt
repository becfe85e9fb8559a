//! Sockets for many connections and few workers: a connection that waits holds no worker.
#![tactic(auto)]

mod at_once;
mod gate;
mod limits;
mod lingering;
mod listener;
mod order;
mod place;
mod poller;
mod ready;
mod room;
mod serve;
mod services;
mod socket;
#[cfg(test)]
mod socket_tests;
mod source;
mod stay;
mod turned_away;

pub use limits::Limits;
pub use serve::serve_listener;
pub use services::Services;
