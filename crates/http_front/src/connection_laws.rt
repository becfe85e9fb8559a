//! A law of connections. It is the contract of a function that does nothing.
ghost use Rattle.std.specs.Prelude.{◌≡◌, ℕ, false, List, Ok, Err, Result};
ghost use Rattle.http_front.specs.Connections.{ConnectionState, IsFresh};
ghost use Rattle.http_front.specs.Conversations.{AnswersInput};
ghost use Rattle.http_front.specs.Outcomes.{IsOfWholeInput};
ghost use Rattle.http_front.specs.Resumptions.{EndsAlike, Finishes, GivesOneMoment, GivesOneReply, HasRun, IsGivenUp, IsResumed, Wait, step_of};
ghost use Rattle.http_front.specs.Stages.{awaits_room, fresh_stage, wants_write};
ghost use Rattle.http_front.specs.declared.end.End.{End};
ghost use Rattle.http_front.specs.declared.end.FrontFault.{FrontFault};
ghost use Rattle.http_front.specs.declared.item.Stage.{Stage};
ghost use Rattle.http_front.specs.declared.item.Progress.TheVariants.{Waits};

use crate::service::{Clock, Service};

/// A connection that is left at any waits for its reader, for its writer and for room, and is gone on with after each, has run: if it is
/// finished at its end, all clauses of `run` hold of it. This is also so if it is given up at a wait for its peer, as `run` gives it up at
/// its first.
///
/// If the clock gives one moment at a time and the service one reply to a request, then two connections that answered the whole of
/// one input wrote the same bytes and ended alike, however often each was left.
pub fn a_connection_left_and_resumed_answers_as_run<C: Clock, S: Service>()
    ensures ran { (clock clock' : C) (world world' : S.World) (from to last : ConnectionState)
        (waits : List (Wait C S.World)) (ended result : Result End FrontFault)
        → IsFresh from
        → IsResumed C.gives S.answers S.starves clock clock' world world' fresh_stage from waits to (step_of ended)
        → Finishes ended result to last
        → HasRun C.gives S.answers S.starves clock clock' world world' from last result }
    ensures given_up { (clock clock' : C) (world world' : S.World) (from to up last : ConnectionState)
        (waits : List (Wait C S.World)) (stage : Stage) (fault : FrontFault) (result : Result End FrontFault)
        → IsFresh from
        → IsResumed C.gives S.answers S.starves clock clock' world world' fresh_stage from waits to (Ok (Waits stage))
        → awaits_room stage ≡ false
        → IsGivenUp (wants_write stage) fault to up
        → Finishes (Err fault) result up last
        → HasRun C.gives S.answers S.starves clock clock' world world' from last result }
    ensures alike { (clock one other : C) (world left right : S.World) (from to from' to' : ConnectionState)
        (result result' : Result End FrontFault) (input : List ℕ)
        → GivesOneMoment C.gives → GivesOneReply S.answers
        → IsOfWholeInput result to.reader.input → IsOfWholeInput result' to'.reader.input
        → AnswersInput C.gives S.answers clock one world left from to result input
        → AnswersInput C.gives S.answers clock other world right from' to' result' input
        → EndsAlike one other left right from to from' to' result result' }
{}
