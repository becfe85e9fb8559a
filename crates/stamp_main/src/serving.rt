//! `stamp serve`: the connections that come to an address, served by a fixed number of workers.
ghost use Rattle.std.specs.Prelude.{◌≡◌, ◌⊎◌, ◌∷◌, [], IfOk, IsTrue, string_bytes};
ghost use Rattle.http_front.specs.Connections.{IsFresh};
ghost use Rattle.http_front.specs.declared.counted.Output.TheVariants as outputs;
ghost use Rattle.stamp_main.specs.declared.ending.Ending.TheVariants.{ListenerFault, NoMemory, Usage, WriteFault};
ghost use Rattle.stamp_main.specs.Ending.{ends_serving};
ghost use Rattle.stamp_main.specs.Serving.{HasListened, IsServe, listening_line, serve_line};

use crate::audit::{Audit, open_audit};
use crate::console::Console;
use crate::ending::Ending;
use crate::signing::send;
use crate::sockets::{Intake, Opening, serve_on};
use crate::words::{Served, read_served};
use access_rules::Keys;
use http_front::Connection;
use served_history::NewHistory;
use socket_gate::Limits;
use stamp_types::Text;
use std::alloc::{AllocError, Global};
use std::fs::File;
use std::io::{ErrorKind, Read, Write};
use std::marker::Brand;
use std::net::{Net, TcpListener, TcpStream};
use std::rt::{Env, Files};
use std::sync::Wait;
use std::thread::Threads;
use std::time::Clock;

/// The words after `serve`.
#[derive(Drop)]
pub(crate) struct ServeWords<'a> {
    pub(crate) address: &'a str,
    pub(crate) workers: &'a str,
    pub(crate) account: &'a str,
    pub(crate) first: &'a str,
    pub(crate) second: &'a str,
}

/// Carries out `stamp serve ADDRESS WORKERS ACCOUNT KEY1 KEY2`: opens the audit file, if the environment names one, takes the address,
/// writes `listening ADDRESS` and LF, and serves. Meanwhile the lines of the console are obeyed and audit lines are written, which the clauses
/// say nothing of: console and file have readers and writers of their own.
///
/// If a word is bad, the ending is `Usage`, and nothing is written. If the audit file cannot be opened or the address cannot be taken, the
/// ending is `ListenerFault`, and nothing is written. What is served is not a matter of these clauses: `served_slots` and `http_front` have
/// the contracts of connections.
#[tactic(auto, using(crate::proofs::ServeLemmas::asked, crate::proofs::ServeLemmas::listened))]
pub(crate) fn run_serve<
    I: Read,
    W: Write,
    R: Net<Stream = TcpStream, Listener = TcpListener>
        + Threads
        + Wait
        + Clock
        + Env
        + Files<File = File>
        + Sync,
    L: Read + Drop + Send,
    O: Write + Drop + Send,
>(
    rt: &R,
    alloc: Global,
    connection: &mut Connection<I, W>,
    words: &ServeWords<'_>,
    console: &mut Console<L, O>,
) -> Ending
    requires { IsFresh connection.old }
    ensures refused { result ≡ Usage →
        ¬ IsServe (serve_line words.now.address.now words.now.workers.now words.now.account.now words.now.first.now words.now.second.now) }
    ensures untouched { result ≡ Usage → connection.new ≡ connection.old }
    ensures unread { connection.new.reader ≡ connection.old.reader }
    ensures listened { result ≡ ListenerFault →
        IsServe (serve_line words.now.address.now words.now.workers.now words.now.account.now words.now.first.now words.now.second.now)
        × ((connection.new ≡ connection.old)
        ⊎ HasListened (serve_line words.now.address.now words.now.workers.now words.now.account.now words.now.first.now words.now.second.now)
        connection.old.writer connection.new.writer) }
    ensures starved { result ≡ NoMemory → (connection.new ≡ connection.old)
        ⊎ HasListened (serve_line words.now.address.now words.now.workers.now words.now.account.now words.now.first.now words.now.second.now)
        connection.old.writer connection.new.writer }
    ensures broken { result ≡ WriteFault →
        HasListened (serve_line words.now.address.now words.now.workers.now words.now.account.now words.now.first.now words.now.second.now)
        connection.old.writer connection.new.writer
        × (connection.new.writer.output ≡ outputs.Failed) }
    ensures ended { IsTrue (ends_serving result) }
{
    let served = match read_served(
        alloc,
        words.address,
        words.workers,
        words.account,
        words.first,
        words.second,
    ) {
        Ok(served) => served,
        Err(ending) => return ending,
    };
    let mut audit = match open_audit(rt, alloc) {
        Ok(audit) => audit,
        Err(ending) => return ending,
    };
    let Ok(listener) = TcpListener::bind(rt, served.address) else {
        return Ending::ListenerFault;
    };
    let Ok(line) = listening(alloc, served.address) else {
        return Ending::NoMemory;
    };
    if send(connection, line.as_bytes()).is_err() {
        return Ending::WriteFault;
    }
    serve_all(rt, alloc, &listener, served, console, &mut audit)
}

// The line that tells that connections are taken.
fn listening(alloc: Global, address: &str) -> Result<String, AllocError>
    ensures { IfOk result (λ line. string_bytes line ≡ listening_line address.now) }
{
    let mut line = String::from_str(alloc, "listening ")?;
    line.push_str(address)?;
    line.push('\n')?;
    Ok(line)
}

// The first key pairs of the accounts: one pair.
fn one_pair(alloc: Global, keys: Keys) -> Result<Vec<Keys>, AllocError>
    ensures { IfOk result (λ pairs. pairs.items ≡ keys ∷ []) }
{
    let mut pairs = Vec::new(alloc);
    pairs.push(keys)?;
    Ok(pairs)
}

/// The name of the account of a key pair.
#[tactic(auto, using(crate::proofs::ReplayLemmas::account_clean))]
pub(crate) fn account_of(alloc: Global, keys: &Keys) -> Result<Text, AllocError>
    ensures { IfOk result (λ account. account ≡ keys.now.account) }
{
    let name = String::from_str(alloc, keys.account.as_str())?;
    match Text::new(name) {
        Some(account) => Ok(account),
        None => unreachable!("the name of an account is a text"),
    }
}

// Serves by these workers and keys, the first pair of the account, until the listener fails for good.
fn serve_all<
    R: Net + Threads + Wait + Clock + Sync,
    L: Read + Drop + Send,
    O: Write + Drop + Send,
    F: Write + Drop + Send,
>(
    rt: &R,
    alloc: Global,
    listener: &TcpListener,
    served: Served<'_>,
    console: &mut Console<L, O>,
    audit: &mut Option<Audit<F>>,
) -> Ending
    ensures { (result ≡ ListenerFault) ⊎ (result ≡ NoMemory) }
{
    let Ok(account) = account_of(alloc, &served.keys) else {
        return Ending::NoMemory;
    };
    let Ok(pairs) = one_pair(alloc, served.keys) else {
        return Ending::NoMemory;
    };
    let history = NewHistory::new(&pairs);
    let opening = Opening {
        history,
        pairs,
        account,
    };
    let intake = Intake {
        listener,
        workers: served.workers,
        limits: Limits::standard(),
        connections: u64::MAX,
    };
    match serve_on::<Brand, R, R, L, O, F>(rt, rt, alloc, opening, &intake, console, audit) {
        Err(error) if error.kind() == ErrorKind::OutOfMemory => Ending::NoMemory,
        _ => Ending::ListenerFault,
    }
}
