//! The storage stamp's program: it takes a command from its words, and ends with one of four statuses.
#![tactic(auto)]

ghost use Rattle.std.specs.Prelude.{◌≡◌, ◌⊎◌, IfErr};
ghost use Rattle.http_front.specs.Connections.{IsFresh};
ghost use Rattle.stamp_main.specs.declared.ending.Ending.TheVariants.{NoMemory, Usage};
ghost use Rattle.stamp_main.specs.Command.{texts_of};
ghost use Rattle.stamp_main.specs.Runs.{Outcome};

use command::{Command, read_command};
use console::{Console, Input};
use ending::Ending;
use http_front::Connection;
use replay::run_replay;
use serving::{ServeWords, run_serve};
use signing::run_sign;
use std::alloc::Global;
use std::fs::File;
use std::io::{IsTerminal, Read, Write};
use std::net::{Net, TcpListener, TcpStream};
use std::process::ExitCode;
use std::rt::{Env, Files};
use std::sync::Wait;
use std::thread::Threads;
use std::time::Clock;
use std::{env, io};

mod attending;
mod audit;
mod command;
mod console;
mod ending;
mod line;
mod machine;
mod operator_lines;
#[cfg(test)]
mod operator_lines_tests;
#[cfg(test)]
mod pieces;
mod replay;
mod replay_laws;
#[cfg(test)]
mod replay_tests;
mod serving;
#[cfg(test)]
mod serving_tests;
mod signing;
#[cfg(test)]
mod signing_tests;
mod sockets;
mod splitting;
mod sweeper;
#[cfg(test)]
mod sweeper_tests;
mod words;

/// The most reads that the program makes of its input.
const TURNS: u64 = 4_294_967_296;

/// The line that standard error gets if the words are not a command.
const USAGE: &str =
    "usage: stamp sign KEY | stamp replay MOMENT ACCOUNT KEY1 KEY2 | stamp serve ADDRESS WORKERS ACCOUNT KEY1 KEY2";

// The ending is not a `Result`: at an `Err` the startup code would write a line of its own.
fn main(rt: HostRuntime) -> ExitCode {
    let ending = match read_words(&rt) {
        Ok(words) => {
            let mut connection = Connection::new(rt.alloc(), rt.reader(), io::writer(&rt), TURNS);
            let lines = rt.reader();
            let input = input_of(lines.is_terminal());
            let mut console = Console::new(lines, io::writer(&rt), input);
            run(&rt, rt.alloc(), &words, &mut connection, &mut console)
        }
        Err(ending) => ending,
    };
    if ending == Ending::Usage {
        show_usage(&rt);
    }
    ExitCode::from(ending.status())
}

/// How an operator's lines come from standard input. A terminal is not read: the system stops a program in the background that reads its
/// terminal, and a key would be seen on it.
fn input_of(is_terminal: bool) -> Input {
    if is_terminal {
        Input::Unread
    } else {
        Input::Descriptor(libc::STDIN_FILENO)
    }
}

/// The words after the program's name.
///
/// Words that cannot be read, for example because one is not UTF-8, are not a command.
fn read_words(rt: &(impl Env + AllocGlobal)) -> Result<Vec<String>, Ending>
    ensures { IfErr result (λ ending. (ending ≡ Usage) ⊎ (ending ≡ NoMemory)) }
{
    let mut words = env::args(rt).map_err(|_| Ending::Usage)?;
    let _program = words.next();
    words.collect(rt.alloc()).map_err(|_| Ending::NoMemory)
}

/// Carries out the command that the words give, and returns how it ended. It is known at every ending what was written, and why it
/// is the ending.
#[tactic(auto, using(crate::proofs::RunLemmas::sign_outcome, crate::proofs::RunLemmas::replay_outcome, crate::proofs::RunLemmas::serve_outcome))]
fn run<
    R: Read,
    W: Write,
    H: Net<Stream = TcpStream, Listener = TcpListener>
        + Threads
        + Wait
        + Clock
        + Env
        + Files<File = File>
        + Sync,
    L: Read + Drop + Send,
    O: Write + Drop + Send,
>(
    rt: &H,
    alloc: Global,
    words: &[String],
    connection: &mut Connection<R, W>,
    console: &mut Console<L, O>,
) -> Ending
    requires { IsFresh connection.old }
    ensures outcome { Outcome (texts_of words.now) connection.old connection.new result }
{
    match read_command(words) {
        Some(Command::Sign { key }) => run_sign(alloc, connection, key),
        Some(
            Command::Replay {
                moment,
                account,
                first_key,
                second_key,
            },
        ) => run_replay(alloc, connection, moment, account, first_key, second_key),
        Some(
            Command::Serve {
                address,
                workers,
                account,
                first_key,
                second_key,
            },
        ) => {
            let words = ServeWords {
                address,
                workers,
                account,
                first: first_key,
                second: second_key,
            };
            run_serve(rt, alloc, connection, &words, console)
        }
        None => Ending::Usage,
    }
}

/// Writes the usage line. If that fails, only the exit status says that the usage was wrong.
fn show_usage(rt: &impl Eprint) {
    let _ = rt.eprintln(USAGE);
}

#[cfg(test)]
mod tests {
    use super::{read_words, run, show_usage};
    use crate::console::{Console, Input};
    use crate::ending::Ending;
    use http_front::Connection;
    use std::alloc::{AllocError, Global};
    use std::cell::Cell;
    use std::env::FillError;
    use std::fmt::Display;
    use std::io;
    use std::rt::Env;
    use std::test::Fail;

    /// A standard error that counts its lines, and knows the usage line.
    #[derive(Drop)]
    struct Hearer {
        alloc: Global,
        lines: Cell<u8>,
        usage_lines: Cell<u8>,
    }

    impl Eprint for Hearer {
        fn eprint<D: Display + Drop>(&self, _value: D) -> io::Result<()> {
            Err(io::Error::from(io::ErrorKind::Unsupported))
        }

        fn eprintln<D: Display + Drop>(&self, value: D) -> io::Result<()> {
            let line = value.to_string(self.alloc)?;
            self.lines.set(self.lines.get().wrapping_add(1));
            if line.as_str()
                == "usage: stamp sign KEY | stamp replay MOMENT ACCOUNT KEY1 KEY2 | stamp serve ADDRESS WORKERS ACCOUNT KEY1 KEY2"
            {
                self.usage_lines.set(self.usage_lines.get().wrapping_add(1));
            }
            Ok(())
        }
    }

    #[test]
    fn the_usage_is_one_line(rt: HostRuntime) {
        let hearer = Hearer {
            alloc: rt.alloc(),
            lines: Cell::new(0),
            usage_lines: Cell::new(0),
        };
        show_usage(&hearer);
        assert_eq!(rt; (hearer.lines.get(), hearer.usage_lines.get()), (1, 1));
    }

    fn words_in(alloc: Global, line: &str) -> Result<Vec<String>, AllocError> {
        line.split(' ')
            .map(|word| String::from_str(alloc, word))
            .try_collect(alloc)
    }

    // What is written for these words if the input has no bytes, and how the program ends.
    #[test]
    fn the_words_are_read_first(rt: HostRuntime) -> Result<(), Fail> {
        let table: [(&str, Ending, &[u8]); 21] = [
            (
                "sign SmVmZQ==",
                Ending::Done,
                b"kjWYym1krypdunnc0CGooP5cX1V1Ga2q8K1TLUUG3TA=\n",
            ),
            (
                "replay 2012-10-01T12:00:00Z account1 a2V5MQ== a2V5Mg==",
                Ending::Done,
                b"",
            ),
            ("replay 2012-10-01 account1  ", Ending::Done, b""),
            (
                "serve 127.0.0.1 4 account1 a2V5MQ== a2V5Mg==",
                Ending::ListenerFault,
                b"",
            ),
            (
                "serve 127.0.0.1:10000 0 account1 a2V5MQ== a2V5Mg==",
                Ending::Usage,
                b"",
            ),
            (
                "serve 127.0.0.1:10000 65 account1 a2V5MQ== a2V5Mg==",
                Ending::Usage,
                b"",
            ),
            (
                "serve 127.0.0.1:10000 04 account1 a2V5MQ== a2V5Mg==",
                Ending::Usage,
                b"",
            ),
            (
                "serve 127.0.0.1:10000 4x account1 a2V5MQ== a2V5Mg==",
                Ending::Usage,
                b"",
            ),
            (
                "serve 127.0.0.1:10000 +4 account1 a2V5MQ== a2V5Mg==",
                Ending::Usage,
                b"",
            ),
            (
                "serve 127.0.0.1:10000  account1 a2V5MQ== a2V5Mg==",
                Ending::Usage,
                b"",
            ),
            (
                "serve 127.0.0.1:10000 4 Account a2V5MQ== a2V5Mg==",
                Ending::Usage,
                b"",
            ),
            (
                "serve 127.0.0.1:10000 4 account1 a2V5MQ a2V5Mg==",
                Ending::Usage,
                b"",
            ),
            (
                "serve 127.0.0.1:10000 4 account1 a2V5MQ== a2V5Mg=!",
                Ending::Usage,
                b"",
            ),
            ("", Ending::Usage, b""),
            ("Sign SmVmZQ==", Ending::Usage, b""),
            ("sign SmVmZQ", Ending::Usage, b""),
            (
                "replay 2012-10-32T12:00:00Z account1 a2V5MQ== a2V5Mg==",
                Ending::Usage,
                b"",
            ),
            (
                "replay 12:00 account1 a2V5MQ== a2V5Mg==",
                Ending::Usage,
                b"",
            ),
            (
                "replay 2012-10-01T12:00:00Z Account a2V5MQ== a2V5Mg==",
                Ending::Usage,
                b"",
            ),
            (
                "replay 2012-10-01T12:00:00Z account1 a2V5MQ a2V5Mg==",
                Ending::Usage,
                b"",
            ),
            (
                "replay 2012-10-01T12:00:00Z account1 a2V5MQ== a2V5Mg=!",
                Ending::Usage,
                b"",
            ),
        ];
        for (line, ending, output) in table {
            let words = words_in(rt.alloc(), line)?;
            let mut connection = Connection::new(
                rt.alloc(),
                b"".as_slice(),
                Vec::new(rt.alloc()),
                9,
            );
            let mut console = Console::new(b"".as_slice(), Vec::new(rt.alloc()), Input::Unread);
            let ended = run(&rt, rt.alloc(), &words, &mut connection, &mut console);
            let (_, out) = connection.into_parts();
            assert!(rt; ended == ending, "{line}");
            assert!(rt; out.as_slice() == output, "{line}");
        }
        Ok(())
    }

    /// A program's name and words, without environment variables.
    #[derive(Drop)]
    struct Given(&'static [&'static str]);

    impl Env for Given {
        fn arg(&self, i: usize, buf: &mut [u8]) -> Result<usize, FillError> {
            let Some(word) = self.0.get(i) else {
                return Err(FillError::NotPresent);
            };
            if word.len() > buf.len() {
                return Err(FillError::TooLong);
            }
            for (to, from) in buf.iter_mut().zip(word.as_bytes()) {
                *to = *from;
            }
            Ok(word.len().min(buf.len()))
        }

        fn var(&self, _name: &str, _buf: &mut [u8]) -> Result<usize, FillError> {
            Err(FillError::NotPresent)
        }

        fn var_at(&self, _i: usize, _buf: &mut [u8]) -> Result<usize, FillError> {
            Err(FillError::NotPresent)
        }
    }

    #[test]
    fn the_words_come_after_the_name_of_the_program(rt: HostRuntime) {
        assert!(rt; read_words(&rt).is_ok());
        let given = (Given(&["stamp", "sign", "SmVmZQ=="]), rt.alloc());
        let words = read_words(&given).expect(&rt, "memory");
        assert!(rt; words.len() == 2);
        assert!(rt; words[0].as_str() == "sign" && words[1].as_str() == "SmVmZQ==");
    }
}
