//! What is read, answered and written on one connection.
ghost use Rattle.std.specs.Prelude.{◌≡◌, ◌≢◌, ℕ, true, false, [], Ok, Err, IfSome, Option, Some};
ghost use Rattle.stamp_types.specs.declared.ask.Ask.{Ask};
ghost use Rattle.reply_form.specs.FixedReplies.{out_of_memory_bytes};
ghost use Rattle.http_front.specs.Admissions.{StepAdmitted, StepsAdmitted, item_admitted, stage_admitted};
ghost use Rattle.http_front.specs.Connections.{ConnectionState, IsFresh, IsOpen, IsTold, Sends};
ghost use Rattle.http_front.specs.Resumptions.{Finishes, IsGivenUp, MakesLastCalls};
ghost use Rattle.http_front.specs.Stages.{IsPartial, IsStaged, IsWaiting, TakesWork, item_work, may_be_long, wants_write, work};
ghost use Rattle.http_front.specs.Steps.{CanGoOn, Comes, ComesOn, Conversing, HasAnswered, HasAnsweredOn, HasLess};
ghost use Rattle.http_front.specs.Steps.{IsAnswering, IsReading, LeavesOn, LeavesStep, WritesReply};
ghost use Rattle.http_front.specs.Conversations.{AnswersInput, AnswersReceived, EndsByWrite, EndsOutOfMemory};
ghost use Rattle.http_front.specs.Conversations.{BreaksOff, LeavesRun};
ghost use Rattle.http_front.specs.Outcomes.{IsOfWholeInput, UnlessWriteFailed, UnlessWriteOrMemoryFailed};
ghost use Rattle.http_front.specs.declared.counted.Output.{Output};
ghost use Rattle.http_front.specs.declared.end.FrontFault.{FrontFault};
ghost use Rattle.http_front.specs.declared.item.Found.TheVariants.{Whole};
ghost use Rattle.http_front.specs.declared.item.Stage.TheVariants.{Answering};
ghost use Rattle.http_front.specs.declared.item.Progress.TheVariants.{Waits};

use crate::answers::answer_item;
use crate::connection::Connection;
use crate::end::{End, FrontFault};
use crate::item::{Found, NextItem, PartialItem, PartialReply, Progress, Stage};
use crate::service::{Clock, Service};
use reply_form::out_of_memory_reply;
use std::alloc::Global;
use std::io::{Read, Write};

// Writes on at a reply. `None` if all of it is taken and the connection goes on after it.
fn reply_on<R: Read, W: Write>(
    connection: &mut Connection<R, W>,
    reply: PartialReply,
) -> Result<Option<Progress>, FrontFault>
    requires { connection.old.writer.output ≢ Output.Failed }
    ensures written { WritesReply reply result connection.old.writer connection.new.writer }
    ensures admitted { (before : Option Ask) → StepsAdmitted before result }
    ensures unread { (connection.new.reader ≡ connection.old.reader)
        × (connection.new.bytes ≡ connection.old.bytes) }
{
    let PartialReply {
        mut pending,
        closes,
        may_be_long,
    } = reply;
    match connection.send_pending(&mut pending) {
        Err(fault) => {
            drop(pending);
            return Err(fault);
        }
        Ok(false) => {
            let reply = PartialReply {
                pending,
                closes,
                may_be_long,
            };
            return Ok(Some(Progress::Waits(Stage::Replying(reply))));
        }
        Ok(true) => {
            drop(pending);
        }
    }
    if closes {
        return Ok(Some(Progress::Ended(End::Closed)));
    }
    Ok(None)
}

// Answers an item, or waits with it if its answer may be long and there is no room for that. `None` if it is answered and the connection
// goes on after it.
fn answer_on<R: Read, W: Write, C: Clock, S: Service>(
    alloc: Global,
    connection: &mut Connection<R, W>,
    found: NextItem,
    clock: &mut C,
    service: &mut S,
    has_room: bool,
) -> Result<Option<Progress>, FrontFault>
    requires { IsOpen connection.old }
    ensures comes { (first : C) (start : S.World) (from : ConnectionState) →
        IsAnswering C.gives S.answers first clock.old start (S.world service.old) from found connection.old →
        ComesOn C.gives S.answers S.starves first clock.new start (S.world service.new) from connection.new result }
    ensures less { (before : ℕ) → TakesWork (Ok (Whole found)) before connection.old →
        HasLess result before connection.new }
    ensures admitted { (before : Option Ask) → StepsAdmitted before result }
    ensures left { LeavesOn result connection.new }
    ensures answered { has_room ≡ true → HasAnsweredOn result }
    // Nothing of the answer is made if there is no room for it.
    ensures waits { has_room ≡ false → may_be_long found ≡ true →
        (result ≡ Ok (Some (Waits (Answering found)))) × (connection.new ≡ connection.old)
        × (clock.new ≡ clock.old) × (service.new ≡ service.old) }
{
    if !has_room && found.may_be_long() {
        return Ok(Some(Progress::Waits(Stage::Answering(found))));
    }
    let reply = answer_item(alloc, clock, service, found)?;
    return reply_on(connection, reply);
}

// Reads on at an item, and answers it once it is whole. `None` if it is answered and the connection goes on after it.
fn read_on<R: Read, W: Write, C: Clock, S: Service>(
    alloc: Global,
    connection: &mut Connection<R, W>,
    item: PartialItem,
    clock: &mut C,
    service: &mut S,
    has_room: bool,
) -> Result<Option<Progress>, FrontFault>
    requires open { IsOpen connection.old }
    requires partial { IsPartial item connection.old }
    ensures comes { (first : C) (start : S.World) (from : ConnectionState) →
        IsReading C.gives S.answers first clock.old start (S.world service.old) from item connection.old →
        ComesOn C.gives S.answers S.starves first clock.new start (S.world service.new) from connection.new result }
    ensures less { HasLess result (item_work item connection.old) connection.new }
    ensures admitted { StepsAdmitted (item_admitted item) result }
    ensures left { LeavesOn result connection.new }
    ensures answered { has_room ≡ true → HasAnsweredOn result }
{
    match connection.next_item(alloc, &*service, item)? {
        Found::End => return Ok(Some(Progress::Ended(End::Clean))),
        Found::Waits(item) => return Ok(Some(Progress::Waits(Stage::Reading(item)))),
        Found::Whole(found) => {
            return answer_on(alloc, connection, found, clock, service, has_room);
        }
    }
}

// Goes on with a connection up to the end of one reply. `None` if the connection goes on after it.
fn go_on<R: Read, W: Write, C: Clock, S: Service>(
    alloc: Global,
    connection: &mut Connection<R, W>,
    stage: Stage,
    clock: &mut C,
    service: &mut S,
    has_room: bool,
) -> Result<Option<Progress>, FrontFault>
    requires open { IsOpen connection.old }
    requires staged { IsStaged stage connection.old }
    ensures comes { (first : C) (start : S.World) (from : ConnectionState) →
        Conversing C.gives S.answers first clock.old start (S.world service.old) from stage connection.old →
        ComesOn C.gives S.answers S.starves first clock.new start (S.world service.new) from connection.new result }
    ensures less { HasLess result (work stage connection.old) connection.new }
    ensures admitted { StepsAdmitted (stage_admitted stage) result }
    ensures left { LeavesOn result connection.new }
    ensures answered { has_room ≡ true → HasAnsweredOn result }
{
    match stage {
        Stage::Reading(item) => read_on(alloc, connection, item, clock, service, has_room),
        Stage::Answering(found) => answer_on(alloc, connection, found, clock, service, has_room),
        Stage::Replying(reply) => reply_on(connection, reply),
    }
}

/// Goes on with a connection whose next item, or the reply to it, has come to a stage: reads, answers and writes until the connection
/// ends, or until the reader has nothing now or the writer takes nothing now. Then the step says how far the item or its reply has come,
/// and the connection can be gone on with once the reader has more, or once the writer takes more. No item is read while a reply
/// waits, so at most one reply is held.
///
/// If there is no room for a reply that may be long, the connection also waits before such a reply is made. It can be gone on with once
/// there is room.
///
/// If memory runs out, no part of the answer to the item is written, and the fixed bytes that say so are not written either.
pub fn advance<R: Read, W: Write, C: Clock, S: Service>(
    alloc: Global,
    connection: &mut Connection<R, W>,
    stage: Stage,
    clock: &mut C,
    service: &mut S,
    has_room: bool,
) -> Result<Progress, FrontFault>
    requires open { IsOpen connection.old }
    requires staged { IsStaged stage connection.old }
    // Whatever the connection has said since it began, it has then said that and what this call adds.
    ensures comes { (first : C) (start : S.World) (from : ConnectionState) →
        Conversing C.gives S.answers first clock.old start (S.world service.old) from stage connection.old →
        Comes C.gives S.answers S.starves first clock.new start (S.world service.new) from connection.new result }
    ensures left { LeavesStep result connection.new }
    // A connection that waits meets what the next call requires.
    ensures ready { CanGoOn result connection.new }
    // No connection waits for room while there is room.
    ensures answered { has_room ≡ true → HasAnswered result }
    // The call admits no body.
    ensures admitted { StepAdmitted (stage_admitted stage) result }
{
    let mut stage = stage;
    loop {
        match go_on(alloc, connection, stage, clock, service, has_room)? {
            Some(step) => return Ok(step),
            None => stage = Stage::new(),
        }
    }
}

/// Gives up a connection that waits: what the reader has not now, or what the writer does not take now, is not waited for. That is as
/// if a read or a write had failed. Returns how the connection ended: `Write` if bytes of a reply or of an interim reply were left to
/// write, and otherwise `Read`.
pub fn give_up<R: Read, W: Write>(connection: &mut Connection<R, W>, stage: Stage) -> FrontFault
    requires { IsWaiting stage connection.old }
    ensures { IsGivenUp (wants_write stage) result connection.old connection.new }
{
    let writes = stage.wants_write();
    drop(stage);
    if writes {
        connection.give_up_writing();
        return FrontFault::Write;
    }
    connection.give_up();
    FrontFault::Read
}

// Reads, answers and writes until the connection ends. A reader that has nothing now is not waited for, and neither is a writer that
// takes nothing now.
fn converse<R: Read, W: Write, C: Clock, S: Service>(
    alloc: Global,
    connection: &mut Connection<R, W>,
    clock: &mut C,
    service: &mut S,
) -> Result<End, FrontFault>
    requires { IsFresh connection.old }
    ensures conversed { UnlessWriteOrMemoryFailed result (AnswersReceived C.gives S.answers
        clock.old clock.new (S.world service.old) (S.world service.new)
        connection.old connection.new result) }
    ensures whole { IsOfWholeInput result connection.new.reader.input →
        IfSome connection.old.reader.left (AnswersInput C.gives S.answers
        clock.old clock.new (S.world service.old) (S.world service.new)
        connection.old connection.new result) }
    ensures starved { result ≡ Err FrontFault.NoMemory → EndsOutOfMemory C.gives S.answers S.starves
        clock.old clock.new (S.world service.old) (S.world service.new)
        connection.old connection.new [] }
    ensures broken { result ≡ Err FrontFault.Write → BreaksOff C.gives S.answers
        clock.old clock.new (S.world service.old) (S.world service.new)
        connection.old connection.new }
    ensures left { LeavesRun result connection.new }
{
    let step = advance(alloc, connection, Stage::new(), clock, service, true)?;
    match step {
        Progress::Ended(end) => return Ok(end),
        Progress::Waits(stage) => return Err(give_up(connection, stage)),
    }
}

// Says that memory ran out, and returns how the run ends.
fn end_out_of_memory<R: Read, W: Write>(connection: &mut Connection<R, W>) -> FrontFault
    requires { connection.old.writer.output ≢ Output.Failed }
    ensures sent { Sends connection.old.writer connection.new.writer out_of_memory_bytes }
    ensures unread { (connection.new.reader ≡ connection.old.reader)
        × (connection.new.bytes ≡ connection.old.bytes) }
    ensures flushed { result ≡ FrontFault.NoMemory → connection.new.writer.output ≡ Output.Flushed }
    ensures failed { result ≢ FrontFault.NoMemory →
        (result ≡ FrontFault.Write) × (connection.new.writer.output ≡ Output.Failed) }
{
    if connection.send(out_of_memory_reply()).is_err() {
        return FrontFault::Write;
    }
    if connection.flush().is_err() {
        return FrontFault::Write;
    }
    FrontFault::NoMemory
}

// Makes the last calls of a connection that came to its end, and returns how the connection ended.
#[tactic(auto, using(crate::proofs::Resumed::finished_broken, crate::proofs::Resumed::finished_starved, crate::proofs::Resumed::finished_flushed, crate::proofs::Resumed::finished_unflushed))]
fn make_last_calls<R: Read, W: Write>(
    connection: &mut Connection<R, W>,
    ended: Result<End, FrontFault>,
) -> Result<End, FrontFault>
    requires { LeavesRun ended connection.old }
    ensures { MakesLastCalls ended result connection.old connection.new }
{
    if ended == Err(FrontFault::Write) {
        return ended;
    }
    if ended == Err(FrontFault::NoMemory) {
        return Err(end_out_of_memory(connection));
    }
    connection.flush()?;
    ended
}

/// Finishes a connection that came to its end by [`advance`]: if memory ran out, the fixed bytes that say so are written, and what
/// was written is flushed. Returns how the connection ended: `Write` if a write or the flush fails. These last calls are not waited for:
/// if the writer takes nothing now, or does not flush now, that is as if the call had failed.
pub fn finish<R: Read, W: Write>(
    connection: &mut Connection<R, W>,
    ended: Result<End, FrontFault>,
) -> Result<End, FrontFault>
    requires { LeavesRun ended connection.old }
    ensures { Finishes ended result connection.old connection.new }
{
    let end = make_last_calls(connection, ended);
    connection.keeps_marks();
    end
}

/// Serves one connection, on which nothing was read or written yet: reads, answers and writes until it ends. If the reader has nothing
/// now, that is as if a read had failed, and if the writer takes nothing now, that is as if a write had failed.
///
/// The clock is read once for each item, after the item is whole. If memory runs out, no part of the answer to the item is
/// written: the fixed bytes that say that memory ran out are written in its place, and the run ends with `NoMemory`. If those
/// bytes cannot be written, it ends with `Write`. The interim reply of the item may have been written before.
pub fn run<R: Read, W: Write, C: Clock, S: Service>(
    alloc: Global,
    connection: &mut Connection<R, W>,
    clock: &mut C,
    service: &mut S,
) -> Result<End, FrontFault>
    requires { IsFresh connection.old }
    // What is written is the output of the service's replies to the items of the bytes that were read, each at its moment.
    ensures conversed { UnlessWriteOrMemoryFailed result (AnswersReceived C.gives S.answers
        clock.old clock.new (S.world service.old) (S.world service.new)
        connection.old connection.new result) }
    // If the input ended, between two requests or inside one, or if a reply closed the connection, what is written is the output
    // for the whole input, however the input was cut into reads.
    ensures whole { IsOfWholeInput result connection.new.reader.input →
        IfSome connection.old.reader.left (AnswersInput C.gives S.answers
        clock.old clock.new (S.world service.old) (S.world service.new)
        connection.old connection.new result) }
    // If memory ran out, the items before are answered in full, and the last bytes say only that memory ran out. The clock and
    // the service are as the last of these items left them, or as the item whose answer was not written left them.
    ensures starved { result ≡ Err FrontFault.NoMemory → EndsOutOfMemory C.gives S.answers S.starves
        clock.old clock.new (S.world service.old) (S.world service.new)
        connection.old connection.new out_of_memory_bytes }
    // If a write failed, what went out is a beginning of what would have gone out.
    ensures broken { result ≡ Err FrontFault.Write → EndsByWrite C.gives S.answers S.starves
        clock.old clock.new (S.world service.old) (S.world service.new)
        connection.old connection.new }
    // Each end has its cause.
    ensures left { LeavesRun result connection.new }
    // What was written is flushed.
    ensures flushed { UnlessWriteFailed result (connection.new.writer.output ≡ Output.Flushed) }
    // How far input and output have come is what the calls of the reader and the writer say.
    ensures told { IsTold connection.new }
{
    let ended = converse(alloc, connection, clock, service);
    finish(connection, ended)
}
