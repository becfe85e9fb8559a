//! `stamp sign`: the signature of a whole input.
ghost use Rattle.std.specs.Prelude.{◌≡◌, ◌≢◌, ◌⊎◌, Err, IfOk, IfSome, OnOk, OnErr, IsOkUnless, IsTrue, IsFalse, ◌<◌, ◌≤◌, ◌*◌, length, string_bytes};
ghost use Rattle.http_front.specs.Connections.{IsFresh, Sends, read_size};
ghost use Rattle.http_front.specs.declared.counted.Input.TheVariants as inputs;
ghost use Rattle.http_front.specs.declared.counted.Output.TheVariants as outputs;
ghost use Rattle.http_front.specs.declared.end.FrontFault.TheVariants.{Read, Write, Turns};
ghost use Rattle.stamp_main.specs.declared.ending.Ending.TheVariants.{Done, ListenerFault, Usage, ReadFault, WriteFault, TurnsUsedUp, NoMemory};
ghost use Rattle.stamp_main.specs.Ending.{has_written, is_fault, run_ending};
ghost use Rattle.stamp_main.specs.Signing.{HasSigned, IsSign, SendsSignature, sign_line, signature_line};

use crate::ending::{Ending, status_of};
use crate::words::read_secret;
use hmac_sign::SigningKey;
use http_front::{Connection, FrontFault};
use std::alloc::{AllocError, Global};
use std::io::{Read, Write};

/// Carries out `stamp sign KEY`: writes the signature of the whole input under the key that `key` gives in Base64.
///
/// If the text is not Base64, the ending is `Usage`, and nothing is read. At `Done` the line was written; at `WriteFault` a
/// beginning of it; at each other ending nothing was written.
pub(crate) fn run_sign<R: Read, W: Write>(
    alloc: Global,
    connection: &mut Connection<R, W>,
    key: &str,
) -> Ending
    requires { IsFresh connection.old }
    ensures signed { IsTrue (has_written result) →
        HasSigned (sign_line key.now) connection.old connection.new }
    ensures flushed { result ≡ Done → connection.new.writer.output ≡ outputs.Flushed }
    ensures broken { result ≡ WriteFault → connection.new.writer.output ≡ outputs.Failed }
    ensures unwritten { IsFalse (has_written result) →
        connection.new.writer ≡ connection.old.writer }
    ensures failed { result ≡ ReadFault → connection.new.reader.input ≡ inputs.Failed }
    ensures used_up { result ≡ TurnsUsedUp → (connection.new.reader.turns ≡ 0)
        × IfSome connection.old.reader.left (λ input. connection.old.reader.turns ≤ length input) }
    ensures asked { IsTrue (is_fault result) → IsSign (sign_line key.now) }
    ensures starved { result ≡ NoMemory →
        (connection.new ≡ connection.old) ⊎ IsSign (sign_line key.now) }
    ensures refused { result ≡ Usage → ¬ IsSign (sign_line key.now) }
    ensures unread { result ≡ Usage → connection.new ≡ connection.old }
    ensures unserved { result ≢ ListenerFault }
{
    match read_secret(alloc, key) {
        Ok(secret) => status_of(&sign_on(alloc, connection, &secret)),
        Err(ending) => ending,
    }
}

/// Reads the input to its end, and then writes its signature under the key, and LF.
///
/// Nothing is written before the input has ended: at `Read`, `Turns` and `NoMemory` the writer is as it was. The fault is
/// `Turns` if all reads that are allowed were made and no read found the end. Any error of a read is `Read`, even the error of an
/// interrupted read. At `Write` part of the line may have been written.
pub(crate) fn sign_on<R: Read, W: Write>(
    alloc: Global,
    connection: &mut Connection<R, W>,
    key: &SigningKey,
) -> Result<(), FrontFault>
    requires { IsFresh connection.old }
    ensures signed { IsTrue (has_written (run_ending result)) →
        SendsSignature key.now connection.old connection.new
        × (connection.new.reader.input ≡ inputs.Ended) }
    ensures within { IsTrue (has_written (run_ending result)) → IfSome connection.old.reader.left
        (λ input. length input < connection.old.reader.turns * read_size) }
    ensures flushed { OnOk result (connection.new.writer.output ≡ outputs.Flushed) }
    ensures broken { result ≡ Err Write → connection.new.writer.output ≡ outputs.Failed }
    ensures unwritten { IsFalse (has_written (run_ending result)) →
        connection.new.writer ≡ connection.old.writer }
    ensures failed { result ≡ Err Read → connection.new.reader.input ≡ inputs.Failed }
    ensures used_up { result ≡ Err Turns → (connection.new.reader.turns ≡ 0)
        × IfSome connection.old.reader.left (λ input. connection.old.reader.turns ≤ length input) }
{
    read_whole(connection)?;
    let line = write_line(alloc, key, connection.unread())?;
    send(connection, line.as_bytes())
}

/// Reads the input to its end. It is then what the connection has unread.
fn read_whole<R: Read, W: Write>(connection: &mut Connection<R, W>) -> Result<(), FrontFault>
    requires { IsFresh connection.old }
    ensures whole { OnOk result (IfSome connection.old.reader.left
        (λ input. connection.new.bytes ≡ input)) }
    ensures ended { OnOk result (connection.new.reader.input ≡ inputs.Ended) }
    ensures within { OnOk result (IfSome connection.old.reader.left
        (λ input. length input < connection.old.reader.turns * read_size)) }
    ensures unwritten { connection.new.writer ≡ connection.old.writer }
    ensures reading { result ≢ Err Write }
    ensures failed { result ≡ Err Read → connection.new.reader.input ≡ inputs.Failed }
    ensures used_up { result ≡ Err Turns → (connection.new.reader.turns ≡ 0)
        × IfSome connection.old.reader.left (λ input. connection.old.reader.turns ≤ length input) }
{
    while connection.fill()? {}
    Ok(())
}

/// The signature of the input, and LF.
fn write_line(alloc: Global, key: &SigningKey, input: &[u8]) -> Result<String, AllocError>
    ensures { IfOk result (λ line. string_bytes line ≡ signature_line key.now input.now) }
{
    let mut line = key.sign(alloc, input)?;
    line.push('\n')?;
    Ok(line)
}

/// Writes all of the bytes, and flushes them.
pub(crate) fn send<R: Read, W: Write>(
    connection: &mut Connection<R, W>,
    bytes: &[u8],
) -> Result<(), FrontFault>
    requires { connection.old.writer.output ≢ outputs.Failed }
    ensures sent { Sends connection.old.writer connection.new.writer bytes.now }
    ensures unread { connection.new.reader ≡ connection.old.reader }
    ensures flushed { OnOk result (connection.new.writer.output ≡ outputs.Flushed) }
    ensures failed { OnErr result (connection.new.writer.output ≡ outputs.Failed) }
    ensures fault { IsOkUnless result Write }
{
    connection.send(bytes)?;
    connection.flush()
}
