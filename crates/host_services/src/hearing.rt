//! Which notices do nothing to a service, so that it needn't have its turn.

ghost use Rattle.std.specs.Prelude.{◌≡◌};
ghost use Rattle.std.specs.List.{fold};
ghost use Rattle.host_services.specs.Ears as heard;
ghost use Rattle.host_services.specs.Ears.{AreHeardIn, ear_of};

use crate::Service;
use sockets::Notice;

/// What a notice is about, as far as services distinguish notices.
#[derive(Clone, Copy)]
pub(crate) enum Subject {
    /// A connection of this socket was opened or has ended, or bits arrived on it.
    Socket(u32),
    /// All connections with a peer are gone.
    Reset,
    /// Something else.
    Other,
}

impl Subject {
    /// Returns what this notice is about.
    pub(crate) fn of(notice: &Notice) -> Subject
        ensures { result ≡ heard.subject_of notice.now }
    {
        match notice {
            Notice::Opened { socket, .. }
            | Notice::Ended { socket, .. }
            | Notice::Arrived { socket, .. } => Subject::Socket(*socket),
            Notice::PairReset { .. } => Subject::Reset,
            _ => Subject::Other,
        }
    }
}

/// What a service may hear of. It is kept beside the service, so that all can be gone through quickly.
#[derive(Clone, Copy, PartialEq, Eq)]
pub(crate) enum Ear {
    /// Nothing any more.
    Nothing,
    /// Every notice.
    Everything,
    /// What opens, arrives or ends on three sockets, and that connections are gone.
    Begins {
        /// The socket that is asked, or that asks.
        asks: u32,
        /// The socket on which it is to receive.
        receive: u32,
        /// The socket on which it is to send.
        send: u32,
    },
    /// What opens, arrives or ends on two sockets.
    Ends {
        /// The socket on which it receives.
        receive: u32,
        /// The socket on which it sends.
        send: u32,
    },
}

impl Ear {
    /// Returns the ear of a server or a user: whether it has its outcome, whether both its connections were opened, and
    /// its sockets.
    fn of_three(over: bool, both: bool, asks: u32, receive: u32, send: u32) -> Ear
        ensures { result ≡ heard.ear_by over both asks receive send }
    {
        if over {
            Ear::Nothing
        } else if both {
            Ear::Everything
        } else {
            Ear::Begins {
                asks,
                receive,
                send,
            }
        }
    }

    /// Returns whether it hears of this socket.
    fn hears_of(&self, socket: u32) -> bool
        ensures { result ≡ heard.hears_of self.now socket }
    {
        match self {
            Ear::Nothing => false,
            Ear::Everything => true,
            Ear::Begins {
                asks,
                receive,
                send,
            } => socket == *asks || socket == *receive || socket == *send,
            Ear::Ends { receive, send } => socket == *receive || socket == *send,
        }
    }

    /// Returns whether a notice about this may do something to a service with this ear.
    pub(crate) fn hears(&self, subject: Subject) -> bool
        ensures { result ≡ heard.hears self.now subject }
    {
        match subject {
            Subject::Socket(socket) => self.hears_of(socket),
            Subject::Reset => matches!(self, Ear::Everything | Ear::Begins { .. }),
            Subject::Other => matches!(self, Ear::Everything),
        }
    }
}

/// What several services may hear of at most: everything, if one of them may hear everything; that connections are gone, if one
/// may hear of that; and what opens, arrives or ends on sockets within a range.
#[derive(Clone, Copy)]
pub(crate) struct Scope {
    /// Whether one of them may hear everything.
    everything: bool,
    /// Whether one of them may hear that connections are gone.
    resets: bool,
    /// The lowest socket that another one may hear of.
    low: u32,
    /// The highest.
    high: u32,
}

impl Scope {
    /// Returns the scope of no services.
    pub(crate) fn empty() -> Scope {
        Scope {
            everything: false,
            resets: false,
            low: u32::MAX,
            high: 0,
        }
    }

    /// Widens the scope to include one more socket.
    fn add(&mut self, socket: u32)
        ensures { self.new ≡ heard.with_socket socket self.old }
    {
        self.low = self.low.min(socket);
        self.high = self.high.max(socket);
    }

    /// Widens the scope to include one more ear.
    pub(crate) fn widen(&mut self, ear: Ear)
        ensures { self.new ≡ heard.widened self.old ear }
    {
        match ear {
            Ear::Nothing => {}
            Ear::Everything => self.everything = true,
            Ear::Begins {
                asks,
                receive,
                send,
            } => {
                self.resets = true;
                self.add(asks);
                self.add(receive);
                self.add(send);
            }
            Ear::Ends { receive, send } => {
                self.add(receive);
                self.add(send);
            }
        }
    }

    /// Widens the scope to include all of these ears.
    fn widen_all(&mut self, ears: &[Ear])
        ensures { self.new ≡ fold heard.widened self.old ears.now }
    {
        for ear in ears {
            self.widen(*ear);
        }
    }

    /// Returns the scope of services with these ears.
    #[tactic(auto, using(crate::proofs::ScopeLemmas::wide_enough))]
    pub(crate) fn of(ears: &[Ear]) -> Scope
        ensures { AreHeardIn result ears.now }
    {
        let mut scope = Scope::empty();
        scope.widen_all(ears);
        scope
    }

    /// Returns whether a notice about this may do something to one of the services with this scope.
    pub(crate) fn hears(&self, subject: Subject) -> bool
        ensures { result ≡ heard.is_heard_in self.now subject }
    {
        if self.everything {
            return true;
        }
        match subject {
            Subject::Socket(socket) => self.low <= socket && socket <= self.high,
            Subject::Reset => self.resets,
            Subject::Other => false,
        }
    }
}

impl Service {
    /// Returns what it may hear of. Nothing does anything to a server or a user with its outcome. Before that only what
    /// opens, arrives and ends on its sockets does, and that connections are gone, and to an echo service or a terminal
    /// only what arrives and ends on its two sockets.
    pub(crate) fn ear(&self) -> Ear
        ensures { result ≡ ear_of self.now }
    {
        match self {
            Service::Server(server) => Ear::of_three(
                server.is_over(),
                server.is_open(),
                server.listen().number(),
                server.receive().number(),
                server.send().number(),
            ),
            Service::User(user) => Ear::of_three(
                user.is_over(),
                user.is_open(),
                user.own().number(),
                user.receive().number(),
                user.send().number(),
            ),
            Service::Echo(echo) => Ear::Ends {
                receive: echo.receive().number(),
                send: echo.send().number(),
            },
            Service::Terminal(terminal) => Ear::Ends {
                receive: terminal.receive().number(),
                send: terminal.send().number(),
            },
        }
    }
}
