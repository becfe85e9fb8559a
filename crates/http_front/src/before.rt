//! Values as they were, which only proofs read.
ghost use Rattle.std.specs.Prelude.{◌≡◌, length};

use http_server::Log;
use std::marker::Model;

/// Two values as they were. They take no memory.
#[derive(Drop)]
pub(crate) struct Before<A, B> {
    log: Log<A, B>,
    ghost one: { length log.items ≡ 1 },
}

impl<A, B> Model for Before<A, B> {
    ghost use Rattle.http_front.specs.Befores.{only_one};

    ghost Value = { A × B };

    ghost view = { λ b. only_one b.log.items b.one };
}

impl<A, B> Before<A, B> {
    /// The values as they are now. The call takes no memory.
    #[tactic(auto, using(crate::proofs::BeforeLemmas::only_one_is))]
    pub(crate) fn of(first: &A, second: &B) -> Self
        ensures { result ≡ (first.now, second.now) }
    {
        Self {
            log: Log::new().and(first, second),
        }
    }
}
