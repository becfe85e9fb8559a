//! `stamp replay`: one connection over a whole input, answered at one moment.
ghost use Rattle.std.specs.Prelude.{◌≡◌, ◌≢◌, ◌⊎◌, Err, IfSome, IsTrue};
ghost use Rattle.std.specs.Arc.{arc_value};
ghost use Rattle.access_rules.specs.declared.keys.Keys as pairs;
ghost use Rattle.core_run.specs.Cores.{StandsFor};
ghost use Rattle.core_service.specs.Services.{opening_of};
ghost use Rattle.http_front.specs.Connections.{IsFresh};
ghost use Rattle.http_front.specs.Conversations.{LeavesRun};
ghost use Rattle.http_front.specs.Outcomes.{IsOfWholeInput, UnlessWriteFailed, UnlessWriteOrMemoryFailed};
ghost use Rattle.http_front.specs.declared.counted.Output.TheVariants as outputs;
ghost use Rattle.http_front.specs.declared.end.FrontFault.TheVariants as faults;
ghost use Rattle.stamp_main.specs.declared.ending.Ending.TheVariants.{ListenerFault, Usage, WriteFault, NoMemory};
ghost use Rattle.stamp_main.specs.Ending.{is_answered};
ghost use Rattle.stamp_main.specs.Replays.{HasReplayed, HasEndedByWrite, HasEndedOutOfMemory, IsReplay};
ghost use Rattle.stamp_main.specs.Replays.{ReplaysReceived, ReplaysInput, ReplayEndsByWrite};
ghost use Rattle.stamp_main.specs.Replays.{ReplayEndsOutOfMemory, replay_line};
ghost use Rattle.stamp_main.specs.ReplayStates.{ServesByWrite, ServesOutOfMemory, ServesReceived};

use crate::ending::{Ending, status_of};
use crate::words::read_asked;
use access_rules::Keys;
use core_service::CoreService;
use http_front::{Clock, Connection, End, FrontFault, finish, run};
use stamp_types::Moment;
use std::alloc::Global;
use std::io::{Read, Write};
use std::sync::Arc;

/// A clock that always gives the same moment.
#[derive(Drop)]
pub(crate) struct Still {
    pub(crate) moment: Moment,
}

impl Clock for Still {
    ghost gives = { λ still moment new. (moment ≡ still.moment) × (new ≡ still) };

    fn now(&mut self) -> Moment {
        self.moment
    }
}

/// Serves one connection by a service without containers, as if all of it came at the moment.
///
/// At each end it is known which requests were served, and that they were served in turn: the core of the service stands for the state
/// that they leave.
pub(crate) fn replay_by<R: Read, W: Write>(
    alloc: Global,
    connection: &mut Connection<R, W>,
    moment: Moment,
    service: &mut CoreService,
) -> Result<End, FrontFault>
    requires fresh { IsFresh connection.old }
    // What is written is a function of the bytes that were read, the moment, the account and the keys. The requests that were read were
    // served.
    ensures replayed { (keys : pairs.Keys) → StandsFor service.old (opening_of keys)
        → UnlessWriteOrMemoryFailed result (ServesReceived
        keys moment connection.old connection.new result service.new) }
    // If the input ended, between two requests or inside one, or if a reply closed the connection, what is written is the output
    // for the whole input, however the input was cut into reads.
    ensures whole { (keys : pairs.Keys) → StandsFor service.old (opening_of keys)
        → IsOfWholeInput result connection.new.reader.input
        → IfSome connection.old.reader.left (ReplaysInput
        keys moment connection.old connection.new result) }
    // If memory ran out, the items before are answered in full and the last bytes say only that memory ran out. The requests among
    // these items were served, and one request more at most.
    ensures starved { (keys : pairs.Keys) → StandsFor service.old (opening_of keys)
        → result ≡ Err faults.NoMemory
        → ServesOutOfMemory keys moment connection.old connection.new service.new }
    // If a write failed, what went out is a beginning of what would have gone out for the requests that were served.
    ensures broken { (keys : pairs.Keys) → StandsFor service.old (opening_of keys)
        → result ≡ Err faults.Write
        → ServesByWrite keys moment connection.old connection.new service.new }
    // Each end has its cause.
    ensures left { LeavesRun result connection.new }
    // What was written is flushed.
    ensures flushed { UnlessWriteFailed result
        (connection.new.writer.output ≡ outputs.Flushed) }
{
    run(alloc, connection, &mut Still { moment }, service)
}

/// Serves one connection by the first pair of keys of an account, as if all of it came at the moment. The account has no containers before
/// it.
pub(crate) fn replay_on<R: Read, W: Write>(
    alloc: Global,
    connection: &mut Connection<R, W>,
    moment: Moment,
    keys: Arc<Keys>,
) -> Result<End, FrontFault>
    requires fresh { IsFresh connection.old }
    requires first { (arc_value keys).epoch ≡ 0 }
    // What is written is a function of the bytes that were read, the moment, the account and the keys.
    ensures replayed { UnlessWriteOrMemoryFailed result (ReplaysReceived
        (arc_value keys) moment connection.old connection.new result) }
    // If the input ended, between two requests or inside one, or if a reply closed the connection, what is written is the output
    // for the whole input, however the input was cut into reads.
    ensures whole { IsOfWholeInput result connection.new.reader.input →
        IfSome connection.old.reader.left (ReplaysInput
        (arc_value keys) moment connection.old connection.new result) }
    // If memory ran out, the items before are answered in full and the last bytes say only that memory ran out.
    ensures starved { result ≡ Err faults.NoMemory →
        ReplayEndsOutOfMemory (arc_value keys) moment connection.old connection.new }
    // If a write failed, what went out is a beginning of what would have gone out.
    ensures broken { result ≡ Err faults.Write →
        ReplayEndsByWrite (arc_value keys) moment connection.old connection.new }
    // Each end has its cause.
    ensures left { LeavesRun result connection.new }
    // What was written is flushed.
    ensures flushed { UnlessWriteFailed result
        (connection.new.writer.output ≡ outputs.Flushed) }
{
    match CoreService::new(alloc, &keys) {
        Ok(mut service) => replay_by(alloc, connection, moment, &mut service),
        Err(_) => finish(connection, Err(FrontFault::NoMemory)),
    }
}

/// Carries out `stamp replay MOMENT ACCOUNT KEY1 KEY2`: answers the whole input as one connection, at the moment and by the keys
/// that these words give.
///
/// If a word is bad, the ending is `Usage`, and nothing is read or written. It is known at every ending what was written.
pub(crate) fn run_replay<R: Read, W: Write>(
    alloc: Global,
    connection: &mut Connection<R, W>,
    moment: &str,
    account: &str,
    first: &str,
    second: &str,
) -> Ending
    requires { IsFresh connection.old }
    ensures replayed { IsTrue (is_answered result) →
        HasReplayed (replay_line moment.now account.now first.now second.now) result
        connection.old connection.new }
    ensures flushed { IsTrue (is_answered result) → connection.new.writer.output ≡ outputs.Flushed }
    ensures starved { result ≡ NoMemory → (connection.new ≡ connection.old)
        ⊎ HasEndedOutOfMemory (replay_line moment.now account.now first.now second.now)
        connection.old connection.new }
    ensures broken { result ≡ WriteFault →
        HasEndedByWrite (replay_line moment.now account.now first.now second.now)
        connection.old connection.new }
    ensures refused { result ≡ Usage →
        ¬ IsReplay (replay_line moment.now account.now first.now second.now) }
    ensures untouched { result ≡ Usage → connection.new ≡ connection.old }
    ensures unserved { result ≢ ListenerFault }
{
    match read_asked(alloc, moment, account, first, second) {
        Ok(asked) => status_of(&replay_on(alloc, connection, asked.moment, asked.keys)),
        Err(ending) => ending,
    }
}
