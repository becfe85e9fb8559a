//! The words of commands, read as values.
ghost use Rattle.std.specs.Prelude.{◌≡◌, ◌≢◌, ◌≤◌, ◌⊎◌, ℕ, List, IfOk, IfErr, Err, Ok, decimal, true};
ghost use Rattle.std.specs.Arc.{arc_value};
ghost use Rattle.stamp_values.specs.Names as names;
ghost use Rattle.moment_text.specs.IsoReader.{iso_moment};
ghost use Rattle.hmac_sign.specs.Signature.{IsBytes, base64_of};
ghost use Rattle.stamp_main.specs.declared.ending.Ending.TheVariants.{NoMemory, Usage};
ghost use Rattle.stamp_main.specs.Replays.{AsksForReplay, IsReplay, replay_line};
ghost use Rattle.stamp_main.specs.Serving.{AsksToServe, IsServe, most_workers, serve_line};

use crate::ending::Ending;
use access_rules::Keys;
use hmac_sign::{SecretFault, SigningKey, read_key};
use moment_text::{TimeFault, read_iso};
use stamp_types::{AccountName, Moment, Text};
use std::alloc::Global;
use std::sync::Arc;

/// The most workers that serve at once.
const MOST_WORKERS: u8 = 64;

/// The moment, and the account with its pair of keys, by which a stream is replayed. The service of the replay shares the pair.
#[derive(Drop)]
pub(crate) struct Asked {
    pub(crate) moment: Moment,
    pub(crate) keys: Arc<Keys>,
}

/// Reads the four words after `replay`.
///
/// `Usage` if the first word is not a time of the accepted shapes, the second word is not an account's name, or the third or
/// fourth word is not padded Base64. `NoMemory` if memory ran out before a bad word was found, or for the allocation that shares
/// the keys.
pub(crate) fn read_asked(
    alloc: Global,
    moment: &str,
    account: &str,
    first: &str,
    second: &str,
) -> Result<Asked, Ending>
    ensures read { IfOk result (λ asked.
        AsksForReplay (replay_line moment.now account.now first.now second.now)
        asked.moment (arc_value asked.keys)) }
    ensures refused { IfErr result (λ ending. ending ≡ Usage →
        ¬ IsReplay (replay_line moment.now account.now first.now second.now)) }
    ensures failed { IfErr result (λ ending. (ending ≡ Usage) ⊎ (ending ≡ NoMemory)) }
{
    let moment = read_moment(moment)?;
    let keys = read_keys(alloc, account, first, second)?;
    match Arc::new(alloc, keys) {
        Ok(keys) => Ok(Asked { moment, keys }),
        Err(_) => Err(Ending::NoMemory),
    }
}

/// The address, how many workers serve it at once, and the account with its pair of keys.
#[derive(Drop)]
pub(crate) struct Served<'a> {
    pub(crate) address: &'a str,
    pub(crate) workers: usize,
    pub(crate) keys: Keys,
}

/// Reads the five words after `serve`. Which texts are addresses is known when the address is taken.
///
/// `Usage` if the second word is not a number of workers, the third word is not an account's name, or the fourth or fifth word is not
/// padded Base64. `NoMemory` if memory ran out before a bad word was found.
pub(crate) fn read_served<'a>(
    alloc: Global,
    address: &'a str,
    workers: &str,
    account: &str,
    first: &str,
    second: &str,
) -> Result<Served<'a>, Ending>
    ensures read { IfOk result (λ served.
        AsksToServe (serve_line address.now workers.now account.now first.now second.now)
        served.address.now served.workers served.keys) }
    ensures refused { IfErr result (λ ending. ending ≡ Usage →
        ¬ IsServe (serve_line address.now workers.now account.now first.now second.now)) }
    ensures failed { IfErr result (λ ending. (ending ≡ Usage) ⊎ (ending ≡ NoMemory)) }
{
    let workers = read_workers(alloc, workers)?;
    let keys = read_keys(alloc, account, first, second)?;
    Ok(Served {
        address,
        workers,
        keys,
    })
}

// A number of workers in decimal digits, without a zero before them.
#[tactic(auto, using(crate::proofs::ServeLemmas::parsed))]
fn read_workers(alloc: Global, text: &str) -> Result<usize, Ending>
    ensures read { IfOk result (λ workers. (text.now ≡ decimal workers)
        × (1 ≤ workers) × (workers ≤ most_workers)) }
    ensures refused { result ≡ Err Usage →
        (workers : ℕ) → 1 ≤ workers → workers ≤ most_workers → text.now ≢ decimal workers }
    ensures failed { IfErr result (λ ending. (ending ≡ Usage) ⊎ (ending ≡ NoMemory)) }
{
    let Ok(workers) = text.parse::<u8>() else {
        return Err(Ending::Usage);
    };
    if !(1..=MOST_WORKERS).contains(&workers) {
        return Err(Ending::Usage);
    }
    let Ok(written) = workers.to_string(alloc) else {
        return Err(Ending::NoMemory);
    };
    if written.as_str() == text {
        Ok(usize::from(workers))
    } else {
        Err(Ending::Usage)
    }
}

// The moment of a time that is written in one of the accepted shapes.
fn read_moment(text: &str) -> Result<Moment, Ending>
    ensures read { IfOk result (λ moment. iso_moment text.now ≡ Ok moment) }
    ensures refused { result ≡ Err Usage → (time : ℕ) → iso_moment text.now ≢ Ok time }
    ensures failed { IfErr result (λ ending. (ending ≡ Usage) ⊎ (ending ≡ NoMemory)) }
{
    match read_iso(text.as_bytes()) {
        Ok(moment) => Ok(moment),
        Err(TimeFault::NoMemory) => Err(Ending::NoMemory),
        Err(TimeFault::Form | TimeFault::Range) => Err(Ending::Usage),
    }
}

// An account and its pair of keys, which was never replaced.
fn read_keys(alloc: Global, account: &str, first: &str, second: &str) -> Result<Keys, Ending>
    ensures account { IfOk result (λ keys.
        (keys.account ≡ account.now) × (names.is_account account.now ≡ true)) }
    ensures first { IfOk result (λ keys. (first.now ≡ base64_of keys.first) × IsBytes keys.first) }
    ensures second { IfOk result (λ keys. (second.now ≡ base64_of keys.second) × IsBytes keys.second) }
    ensures unreplaced { IfOk result (λ keys. keys.epoch ≡ 0) }
    ensures refused { result ≡ Err Usage → (one two : List ℕ) → names.is_account account.now ≡ true
        → IsBytes one → IsBytes two → first.now ≡ base64_of one → second.now ≢ base64_of two }
    ensures failed { IfErr result (λ ending. (ending ≡ Usage) ⊎ (ending ≡ NoMemory)) }
{
    let account = read_account(alloc, account)?;
    let first = read_secret(alloc, first)?;
    let second = read_secret(alloc, second)?;
    Ok(Keys {
        account,
        first,
        second,
        epoch: 0,
    })
}

// An account's name.
#[tactic(auto, using(crate::proofs::ReplayLemmas::account_clean))]
fn read_account(alloc: Global, name: &str) -> Result<AccountName, Ending>
    ensures read { IfOk result (λ account.
        (account ≡ name.now) × (names.is_account name.now ≡ true)) }
    ensures refused { result ≡ Err Usage → names.is_account name.now ≢ true }
    ensures failed { IfErr result (λ ending. (ending ≡ Usage) ⊎ (ending ≡ NoMemory)) }
{
    let Ok(name) = String::from_str(alloc, name) else {
        return Err(Ending::NoMemory);
    };
    let Some(text) = Text::new(name) else {
        return Err(Ending::Usage);
    };
    AccountName::new(text).ok_or(Ending::Usage)
}

/// Reads a key that is given in Base64.
///
/// `Usage` if the text is not padded Base64, `NoMemory` if memory runs out for the key.
pub(crate) fn read_secret(alloc: Global, text: &str) -> Result<SigningKey, Ending>
    ensures read { IfOk result (λ key. (text.now ≡ base64_of key) × IsBytes key) }
    ensures refused { result ≡ Err Usage →
        (key : List ℕ) → IsBytes key → text.now ≢ base64_of key }
    ensures failed { IfErr result (λ ending. (ending ≡ Usage) ⊎ (ending ≡ NoMemory)) }
{
    match read_key(alloc, text.as_bytes()) {
        Ok(key) => Ok(SigningKey::new(key)),
        Err(SecretFault::NotBase64) => Err(Ending::Usage),
        Err(SecretFault::NoMemory) => Err(Ending::NoMemory),
    }
}
