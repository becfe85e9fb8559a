//! Connections: bytes in, bytes out, over any reader, writer, clock and service.
#![tactic(auto)]

mod admission;
mod answers;
mod before;
mod buffer;
mod connection;
mod connection_laws;
mod conversation;
mod counted;
mod end;
mod head_end;
mod incoming;
mod item;
mod library;
mod link;
mod outgoing;
mod pending;
mod service;
mod source;
mod stream_laws;
mod workers;

pub use admission::{Admission, Rooms, brings_content, makes_text};
pub use connection::Connection;
pub use connection_laws::a_connection_left_and_resumed_answers_as_run;
pub use conversation::{advance, finish, give_up, run};
pub use counted::{Came, Input, Output};
pub use end::{End, FrontFault};
pub use item::{Progress, Stage};
pub use link::{Link, Over, Resting, go_on};
pub use service::{Clock, Service};
pub use source::Source;
pub use stream_laws::{
    a_head_ends_with_its_first_empty_line, a_stream_is_read_in_one_way, each_stream_is_read,
};
pub use workers::work;
