//! What the program is asked to do, read from the words after its name.
ghost use Rattle.std.specs.Prelude.{◌≡◌, ◌≢◌, IfSome, IfNone};
ghost use Rattle.stamp_main.specs.Command.{texts_of, words_of};
ghost use Rattle.stamp_main.specs.declared.command.Command.{Command};

/// A command and its words, as they were given. Whether a word is a key, a moment or an address is not tested here.
/// It has no `Debug`, so that no text of a key is printed.
#[derive(Clone, Copy, PartialEq, Eq)]
pub(crate) enum Command<'a> {
    /// `sign KEY`: write the signature of standard input under the key.
    Sign {
        key: &'a str,
    },
    /// `replay MOMENT ACCOUNT KEY1 KEY2`: serve one connection, from standard input to standard output.
    Replay {
        moment: &'a str,
        account: &'a str,
        first_key: &'a str,
        second_key: &'a str,
    },
    /// `serve ADDRESS WORKERS ACCOUNT KEY1 KEY2`: serve the connections that come to the address.
    Serve {
        address: &'a str,
        workers: &'a str,
        account: &'a str,
        first_key: &'a str,
        second_key: &'a str,
    },
}

/// Reads the command that the words give. The program's name is not among the words.
pub(crate) fn read_command(words: &[String]) -> Option<Command<'_>>
    ensures read { IfSome result (λ command. words_of command ≡ texts_of words.now) }
    ensures refused { IfNone result
        ((command : Command) → words_of command ≢ texts_of words.now) }
{
    match words {
        [verb, key] => {
            let key = key.as_str();
            (verb.as_str() == "sign").then_some(Command::Sign { key })
        }
        [verb, moment, account, first_key, second_key] => {
            let replay = Command::Replay {
                moment: moment.as_str(),
                account: account.as_str(),
                first_key: first_key.as_str(),
                second_key: second_key.as_str(),
            };
            (verb.as_str() == "replay").then_some(replay)
        }
        [verb, address, workers, account, first_key, second_key] => {
            let serve = Command::Serve {
                address: address.as_str(),
                workers: workers.as_str(),
                account: account.as_str(),
                first_key: first_key.as_str(),
                second_key: second_key.as_str(),
            };
            (verb.as_str() == "serve").then_some(serve)
        }
        _ => None,
    }
}
