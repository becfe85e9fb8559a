//! Where the lines of an operator come from, and where their answers go.
ghost use Rattle.std.specs.Prelude.{◌≡◌, ℕ, List, [], Option};
ghost use Rattle.stamp_main.specs.Attending.{ReadsLines, all_answered};

use crate::attending::take;
use crate::line::Line;
use libc::types::pollfd;
use served_history::Account;
use served_slots::Operator;
use std::alloc::Global;
use std::io::{ErrorKind, Read, Write};
use std::sync::Wait;
use std::sync::atomic::{AtomicBool, Ordering};

/// How many bytes one read takes at most.
const ROOM: usize = 512;

/// How long one look waits for input, in milliseconds.
const LOOK: i32 = 1000;

/// How the lines of an operator come.
#[derive(Clone, Copy, PartialEq, Eq)]
pub(crate) enum Input {
    /// They are not read.
    Unread,
    /// A read does not wait.
    Ready,
    /// A read may wait for this descriptor.
    Descriptor(i32),
}

/// The outcome of one read.
#[derive(Clone, Copy, PartialEq, Eq)]
pub(crate) enum Came {
    /// More lines may come.
    More,
    /// No more lines come.
    Ended,
    /// An answer could not be written.
    Unanswered,
}

/// The lines of an operator, and the writer of their answers. A reader of a descriptor is asked only if the descriptor has input, so that the
/// end of the server is seen while no line comes.
#[derive(Drop)]
pub(crate) struct Console<L: Read + Drop, O: Write + Drop> {
    lines: L,
    answers: O,
    input: Input,
}

impl<L: Read + Drop, O: Write + Drop> Console<L, O> {
    /// The console of this reader and of this writer.
    pub(crate) fn new(lines: L, answers: O, input: Input) -> Self {
        Self {
            lines,
            answers,
            input,
        }
    }

    /// The writer of the answers.
    pub(crate) fn into_answers(self) -> O {
        self.answers
    }

    // Waits a while for input. Returns whether a read would not wait.
    fn has_input(&self) -> bool {
        let Input::Descriptor(descriptor) = self.input else {
            return true;
        };
        let mut looks = [pollfd {
            fd: descriptor,
            events: libc::net::POLLIN,
            revents: 0,
        }];
        libc::net::poll(&mut looks, LOOK) > 0
    }

    // Reads once, and attends the bytes that came.
    fn read_once<A: Account, R: Wait>(
        &mut self,
        operator: &mut Operator<'_, A, R>,
        alloc: Global,
        line: &mut Line,
    ) -> Came
        ensures attended { ReadsLines (L.remaining self.old.lines) (L.remaining self.new.lines) operator.old.account operator.old.known line.old
            (O.contents self.old.answers) (O.contents self.new.answers) (all_answered result) operator.new.known line.new }
        ensures account { operator.new.account ≡ operator.old.account }
    {
        let mut room = [0; ROOM];
        match self.lines.read(&mut room) {
            Ok(0) => Came::Ended,
            Ok(count) => {
                if take(&mut self.answers, operator, alloc, line, &room[..count]) {
                    Came::More
                } else {
                    Came::Unanswered
                }
            }
            Err(error) => {
                if matches!(error.kind(), ErrorKind::Interrupted | ErrorKind::WouldBlock) {
                    Came::More
                } else {
                    Came::Ended
                }
            }
        }
    }

    // Reads once if a read would not wait.
    fn read_ready<A: Account, R: Wait>(
        &mut self,
        operator: &mut Operator<'_, A, R>,
        alloc: Global,
        line: &mut Line,
    ) -> Came
        ensures attended { ReadsLines (L.remaining self.old.lines) (L.remaining self.new.lines) operator.old.account operator.old.known line.old
            (O.contents self.old.answers) (O.contents self.new.answers) (all_answered result) operator.new.known line.new }
        ensures account { operator.new.account ≡ operator.old.account }
    {
        if self.has_input() {
            self.read_once(operator, alloc, line)
        } else {
            Came::More
        }
    }

    /// Obeys the lines that come, until the input ends or fails, an answer cannot be written, or serving is over. Returns whether each answer was
    /// written. The end of the input does not end the server.
    pub(crate) fn attend<A: Account, R: Wait>(
        &mut self,
        rt: &R,
        operator: &mut Operator<'_, A, R>,
        alloc: Global,
        is_over: &AtomicBool,
    ) -> bool
        ensures { (line : Option (List ℕ)) × ReadsLines (L.remaining self.old.lines) (L.remaining self.new.lines) operator.old.account
            operator.old.known (Some []) (O.contents self.old.answers) (O.contents self.new.answers) result operator.new.known line }
    {
        if self.input == Input::Unread {
            return true;
        }
        let mut line = Line::new();
        for _turn in rt.forever() {
            if is_over.load(Ordering::SeqCst) {
                return true;
            }
            match self.read_ready(operator, alloc, &mut line) {
                Came::More => {}
                Came::Ended => return true,
                Came::Unanswered => return false,
            }
        }
        true
    }
}
