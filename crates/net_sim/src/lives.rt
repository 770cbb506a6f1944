//! What each thing that happens does to all lives.

ghost use Rattle.std.specs.Bool.{OnFalse, OnTrue};
ghost use Rattle.std.specs.Prelude.{◌≡◌, ℕ, Bool, List, [], Some, OnErr, OnOk};
ghost use Rattle.net_sim.specs.Book as book;
ghost use Rattle.net_sim.specs.Book.{lives_at, where_it, handed_to, fates_where};
ghost use Rattle.net_sim.specs.Inside.Counts.{AreWithin, IsWithin};
ghost use Rattle.net_sim.specs.Inside.Endings.{ends, turned, turns};
ghost use Rattle.net_sim.specs.Inside.Lives as all;
ghost use Rattle.net_sim.specs.Inside.Growing.{grown};
ghost use Rattle.net_sim.specs.Inside.Lives.{LivesState, handed_over, lives_grown, state};
ghost use Rattle.net_sim.specs.Inside.Open.{AreKept, Holds};
ghost use Rattle.net_sim.specs.Inside.Undo.{all_undone, GoesBack};
ghost use Rattle.promise.specs.declared.life.Fate.{Fate};

use crate::life::{Ending, Growth, Turn, end_at, grow_at, hand_at, nothing, turn_at, turn_of};
use crate::open::Open;
use crate::tally::Tally;
use crate::undo::{Undo, take_back};
use bit_messages::Bits;
use interface::{Crossing, HostAddr};
use promise::{Amount, BitLog, Fate, Life, Told};
use sockets::{Notice, Request};
use std::alloc::{AllocError, Global};
use std::marker::Model;
use std::mem;

/// The lives, what was handed over to be sent in each, and how far each is.
///
/// Nothing changes a life that has ended. So it is known where those are that are open, and only these are looked at.
///
/// No count of a life passes 4294967295 times the number of changes that were written, so none overflows.
#[derive(Drop)]
pub(crate) struct Lives {
    lives: Vec<Life>,
    handed: Vec<BitLog>,
    fates: Vec<Fate>,
    open: Open,
    changes: Tally,
    undo: Vec<Undo>,
    alloc: Global,
}

impl Model for Lives {
    ghost use Rattle.net_sim.specs.Inside.Counts.{AreWithin};
    ghost use Rattle.net_sim.specs.Inside.Lives.{LivesState};
    ghost use Rattle.net_sim.specs.Inside.Open.{AreKnown};

    ghost Value = { LivesState };

    ghost view = { λ l. record { lives = l.lives.items; handed = l.handed.items; fates = l.fates.items } };

    ghost invariant = { λ l. AreKnown l.open.known l.open.hosts l.open.sockets l.lives.items × AreWithin l.changes l.lives.items };
}

/// Ends those of the lives at these places that end.
fn end(
    lives: &mut [Life],
    places: &[usize],
    ending: &Ending,
    done: &mut Vec<Undo>,
) -> Result<(), AllocError>
    requires { Holds (ends ending.now) places.now lives.old }
    ensures done { OnOk result (lives.new ≡ where_it (ends ending.now) book.life_ended lives.old) }
    ensures kept { AreKept lives.old lives.new }
    ensures within { (n : ℕ) → AreWithin n lives.old → AreWithin n lives.new }
    ensures back { (handed : List (List Bool)) (fates : List Fate) → GoesBack done.old.items (state lives.old handed fates) done.new.items (state lives.new handed fates) }
{
    for at in places {
        end_at(&mut lives[*at], *at, ending, done)?;
    }
    Ok(())
}

/// Lets the life of a socket grow.
fn grow(
    lives: &mut [Life],
    places: &[usize],
    host: HostAddr,
    socket: u32,
    growth: &Growth,
    changes: &mut Tally,
    done: &mut Vec<Undo>,
) -> Result<(), AllocError>
    requires places { Holds (lives_at host socket) places.now lives.old }
    requires within { AreWithin changes.old lives.old }
    ensures done { OnOk result (lives.new ≡ where_it (lives_at host socket) (grown growth.now) lives.old) }
    ensures kept { AreKept lives.old lives.new }
    ensures within { AreWithin changes.new lives.new }
    ensures back { (handed : List (List Bool)) (fates : List Fate) → GoesBack done.old.items (state lives.old handed fates) done.new.items (state lives.new handed fates) }
{
    for at in places {
        grow_at(&mut lives[*at], *at, host, socket, growth, changes, done)?;
    }
    Ok(())
}

/// Adds bits that were handed over to the life of a socket.
fn hand(
    lives: &[Life],
    places: &[usize],
    host: HostAddr,
    socket: u32,
    bits: &Bits,
    handed: &mut [BitLog],
    done: &mut Vec<Undo>,
) -> Result<(), AllocError>
    requires { Holds (lives_at host socket) places.now lives.now }
    ensures done { OnOk result (handed.new ≡ handed_to (lives_at host socket) bits.now lives.now handed.old) }
    ensures back { (fates : List Fate) → GoesBack done.old.items (state lives.now handed.old fates) done.new.items (state lives.now handed.new fates) }
{
    for at in places {
        if *at < handed.len() {
            hand_at(&lives[*at], *at, host, socket, bits, &mut handed[*at], done)?;
        }
    }
    Ok(())
}

/// Changes the fates of those of the lives at these places whose fate changes.
fn turn(
    lives: &[Life],
    places: &[usize],
    turn: &Turn,
    fates: &mut [Fate],
    done: &mut Vec<Undo>,
) -> Result<(), AllocError>
    requires { Holds (turns turn.now) places.now lives.now }
    ensures done { OnOk result (fates.new ≡ fates_where (turns turn.now) (turned turn.now) lives.now fates.old) }
    ensures back { (handed : List (List Bool)) → GoesBack done.old.items (state lives.now handed fates.old) done.new.items (state lives.now handed fates.new) }
{
    for at in places {
        if *at < fates.len() {
            turn_at(&lives[*at], *at, turn, &mut fates[*at], done)?;
        }
    }
    Ok(())
}

/// Returns whether a host stops by what crossed. Any other crossing leaves the lives as they are.
fn is_stop(crossing: &Crossing) -> bool
    ensures { OnFalse result ((l : LivesState) → all.crossed crossing.now l ≡ l) }
{
    match crossing {
        Crossing::Down(_) => true,
        Crossing::Out(_) | Crossing::In(_) | Crossing::Answer(..) | Crossing::Up(_) => false,
    }
}

/// Returns whether no host stops by all of this, so that the lives stay as they are.
fn none_stops(news: &[Crossing]) -> bool
    ensures { OnTrue result ((l : LivesState) → all.all_crossed news.now l ≡ l) }
{
    for crossing in news {
        if is_stop(crossing) {
            return false;
        }
    }
    true
}

impl Lives {
    /// Returns no lives.
    pub(crate) fn new(alloc: Global) -> Lives
        ensures { result ≡ all.none }
    {
        Lives {
            lives: Vec::new(alloc),
            handed: Vec::new(alloc),
            fates: Vec::new(alloc),
            open: Open::new(alloc),
            changes: Tally::new(alloc),
            undo: Vec::new(alloc),
            alloc,
        }
    }

    /// Marks the lives that end as ended.
    fn end(&mut self, ending: &Ending, done: &mut Vec<Undo>) -> Result<(), AllocError>
        ensures done { OnOk result (self.new ≡ all.lives_state_ended ending.now self.old) }
        ensures back { GoesBack done.old.items self.old done.new.items self.new }
    {
        self.open.know(self.alloc, &self.lives)?;
        end(&mut self.lives, self.open.of(ending), ending, done)
    }

    /// Changes the fates of the lives whose fate changes.
    fn turn(&mut self, by: &Turn, done: &mut Vec<Undo>) -> Result<(), AllocError>
        ensures done { OnOk result (self.new ≡ all.lives_state_turned by.now self.old) }
        ensures back { GoesBack done.old.items self.old done.new.items self.new }
    {
        self.open.know(self.alloc, &self.lives)?;
        turn(&self.lives, self.open.by(by), by, &mut self.fates, done)
    }

    /// Changes the fates of the lives that end, and marks them as ended.
    fn pass(&mut self, ending: &Ending, done: &mut Vec<Undo>) -> Result<(), AllocError>
        ensures done { OnOk result (self.new ≡ all.lives_state_over ending.now self.old) }
        ensures back { GoesBack done.old.items self.old done.new.items self.new }
    {
        self.turn(&turn_of(ending), done)?;
        self.end(ending, done)
    }

    /// Lets the life of a socket grow.
    fn grow(
        &mut self,
        host: HostAddr,
        socket: u32,
        growth: &Growth,
        done: &mut Vec<Undo>,
    ) -> Result<(), AllocError>
        ensures done { OnOk result (self.new ≡ lives_grown host socket growth.now self.old) }
        ensures back { GoesBack done.old.items self.old done.new.items self.new }
    {
        self.open.know(self.alloc, &self.lives)?;
        let places = self.open.at(host, socket);
        grow(
            &mut self.lives,
            places,
            host,
            socket,
            growth,
            &mut self.changes,
            done,
        )
    }

    /// Adds bits that were handed over to the life of a socket.
    fn hand(
        &mut self,
        host: HostAddr,
        socket: u32,
        bits: &Bits,
        done: &mut Vec<Undo>,
    ) -> Result<(), AllocError>
        ensures done { OnOk result (self.new ≡ handed_over host socket bits.now self.old) }
        ensures back { GoesBack done.old.items self.old done.new.items self.new }
    {
        self.open.know(self.alloc, &self.lives)?;
        let places = self.open.at(host, socket);
        hand(
            &self.lives,
            places,
            host,
            socket,
            bits,
            &mut self.handed,
            done,
        )
    }

    /// Begins a life, with nothing counted or handed over yet.
    fn begin(&mut self, life: Life, done: &mut Vec<Undo>) -> Result<(), AllocError>
        requires { IsWithin 0 life }
        ensures done { OnOk result (self.new ≡ all.begun life self.old) }
        ensures back { GoesBack done.old.items self.old done.new.items self.new }
    {
        self.fates.reserve(1)?;
        self.handed.reserve(1)?;
        self.lives.reserve(1)?;
        done.reserve(1)?;
        self.open.enter(life.host, life.socket, &self.lives)?;
        done.push_reserved(Undo::Begun {
            lives: self.lives.len(),
            handed: self.handed.len(),
            fates: self.fates.len(),
        });
        self.fates.push_reserved(Fate::Open);
        self.handed.push_reserved(BitLog::new(self.alloc));
        self.lives.push_reserved(life);
        Ok(())
    }

    /// Records what crossed: a host that stops ends its lives.
    fn cross(&mut self, crossing: &Crossing, done: &mut Vec<Undo>) -> Result<(), AllocError>
        ensures done { OnOk result (self.new ≡ all.crossed crossing.now self.old) }
        ensures back { GoesBack done.old.items self.old done.new.items self.new }
    {
        match crossing {
            Crossing::Down(host) => self.pass(&Ending::On { host: *host }, done),
            Crossing::Out(_) | Crossing::In(_) | Crossing::Answer(..) | Crossing::Up(_) => Ok(()),
        }
    }

    /// Records a notice to the user of a host.
    fn tell(
        &mut self,
        host: HostAddr,
        notice: &Notice,
        done: &mut Vec<Undo>,
    ) -> Result<(), AllocError>
        ensures done { OnOk result (self.new ≡ all.lives_state_told host notice.now self.old) }
        ensures back { GoesBack done.old.items self.old done.new.items self.new }
    {
        match notice {
            Notice::Opened {
                socket,
                peer,
                foreign,
                own_stamp,
                partner_stamp,
            } => {
                let life = Life {
                    host,
                    socket: *socket,
                    peer: *peer,
                    foreign: *foreign,
                    own_stamp: *own_stamp,
                    partner_stamp: *partner_stamp,
                    bits: BitLog::new(self.alloc),
                    messages: 0,
                    granted: nothing(),
                    returned: nothing(),
                    ended: false,
                };
                self.begin(life, done)
            }
            Notice::Ended {
                socket,
                peer,
                foreign,
            } => {
                let ending = Ending::Between {
                    host,
                    socket: *socket,
                    peer: *peer,
                    foreign: *foreign,
                };
                self.pass(&ending, done)
            }
            Notice::PairReset { peer } => self.pass(&Ending::With { host, peer: *peer }, done),
            Notice::Sent { socket, bits } | Notice::Arrived { socket, bits } => {
                self.grow(host, *socket, &Growth::Message { bits }, done)
            }
            Notice::Returned {
                socket,
                messages,
                bits,
            } => {
                let growth = Growth::Return {
                    messages: *messages,
                    bits: *bits,
                };
                self.grow(host, *socket, &growth, done)
            }
            Notice::Ready { .. }
            | Notice::ContactFailed { .. }
            | Notice::Interrupt { .. }
            | Notice::Echoed { .. }
            | Notice::RemoteError { .. } => Ok(()),
        }
    }

    /// Records what the user of a host asked for, and wasn't refused.
    fn ask(
        &mut self,
        host: HostAddr,
        request: &Request,
        done: &mut Vec<Undo>,
    ) -> Result<(), AllocError>
        ensures done { OnOk result (self.new ≡ all.asked host request.now self.old) }
        ensures back { GoesBack done.old.items self.old done.new.items self.new }
    {
        match request {
            Request::Grant {
                socket,
                messages,
                bits,
            } => {
                let growth = Growth::Grant {
                    messages: *messages,
                    bits: *bits,
                };
                self.grow(host, *socket, &growth, done)
            }
            Request::Send { socket, bits } => self.hand(host, *socket, bits, done),
            Request::Close { socket } => {
                let turn = Turn::Closes {
                    host,
                    socket: *socket,
                };
                self.turn(&turn, done)
            }
            Request::Contact { .. }
            | Request::Listen { .. }
            | Request::OpenSend { .. }
            | Request::OpenReceive { .. }
            | Request::AskBack { .. }
            | Request::Interrupt { .. }
            | Request::Echo { .. } => Ok(()),
        }
    }

    /// Records all of these crossings, one after another.
    fn cross_all(&mut self, crossings: &[Crossing], done: &mut Vec<Undo>) -> Result<(), AllocError>
        ensures done { OnOk result (self.new ≡ all.all_crossed crossings.now self.old) }
        ensures back { GoesBack done.old.items self.old done.new.items self.new }
    {
        for crossing in crossings {
            self.cross(crossing, done)?;
        }
        Ok(())
    }

    /// Records all of these notices to users, one after another.
    fn tell_all(&mut self, told: &[Told], done: &mut Vec<Undo>) -> Result<(), AllocError>
        ensures done { OnOk result (self.new ≡ all.all_told told.now self.old) }
        ensures back { GoesBack done.old.items self.old done.new.items self.new }
    {
        for one in told {
            self.tell(one.host, &one.notice, done)?;
        }
        Ok(())
    }

    /// Records all that the services of a host asked for, and weren't refused, one after another.
    fn ask_all(
        &mut self,
        host: HostAddr,
        requests: &[Request],
        done: &mut Vec<Undo>,
    ) -> Result<(), AllocError>
        ensures done { OnOk result (self.new ≡ all.all_asked host requests.now self.old) }
        ensures back { GoesBack done.old.items self.old done.new.items self.new }
    {
        for request in requests {
            self.ask(host, request, done)?;
        }
        Ok(())
    }

    /// Records all of this, in this order: crossings, what a user asked for, the notices to users, and what the
    /// services of a host asked for then.
    fn go_through(
        &mut self,
        news: &[Crossing],
        asked: &Option<(HostAddr, Request)>,
        told: &[Told],
        by: HostAddr,
        ran: &[Request],
        done: &mut Vec<Undo>,
    ) -> Result<(), AllocError>
        ensures done { OnOk result (self.new ≡ all.followed news.now asked.now told.now (Some by) ran.now self.old) }
        ensures back { GoesBack done.old.items self.old done.new.items self.new }
    {
        self.cross_all(news, done)?;
        if let Some((host, request)) = asked {
            self.ask(*host, request, done)?;
        }
        self.tell_all(told, done)?;
        self.ask_all(by, ran, done)
    }

    /// Takes back all that was done. Where the open lives are is learnt anew when it is wanted.
    fn go_back(&mut self, done: Vec<Undo>)
        ensures { self.new ≡ all_undone done.items self.old }
    {
        take_back(&mut self.lives, &mut self.handed, &mut self.fates, done);
        self.open.forget();
    }

    /// Returns an empty list for what is done. It has the room that an earlier one had.
    fn empty_list(&mut self) -> Vec<Undo>
        ensures state { self.new ≡ self.old }
        ensures list { result.items ≡ [] }
    {
        let mut list = mem::replace(&mut self.undo, Vec::new(self.alloc));
        list.clear();
        list
    }

    /// Keeps all that was done, or takes it back if memory ran out.
    fn conclude(
        &mut self,
        outcome: Result<(), AllocError>,
        done: Vec<Undo>,
    ) -> Result<(), AllocError>
        ensures answer { result ≡ outcome }
        ensures done { OnOk outcome (self.new ≡ self.old) }
        ensures kept { OnErr outcome (self.new ≡ all_undone done.items self.old) }
    {
        if outcome.is_err() {
            self.go_back(done);
            return outcome;
        }
        self.undo = done;
        outcome
    }

    /// Records all of these crossings, and then all of these notices.
    fn cross_and_tell(
        &mut self,
        news: &[Crossing],
        told: &[Told],
        done: &mut Vec<Undo>,
    ) -> Result<(), AllocError>
        ensures done { OnOk result (self.new ≡ all.all_told told.now (all.all_crossed news.now self.old)) }
        ensures back { GoesBack done.old.items self.old done.new.items self.new }
    {
        self.cross_all(news, done)?;
        self.tell_all(told, done)
    }

    /// Records all of these crossings and nothing else; if memory runs out, the lives are what they were.
    pub(crate) fn cross_only(&mut self, news: &[Crossing]) -> Result<(), AllocError>
        ensures done { OnOk result (self.new ≡ all.all_crossed news.now self.old) }
        ensures kept { OnErr result (self.new ≡ self.old) }
    {
        if none_stops(news) {
            return Ok(());
        }
        let mut undo = self.empty_list();
        let crossed = self.cross_all(news, &mut undo);
        self.conclude(crossed, undo)
    }

    /// Records that the user of a host asked for this and nothing else; if memory runs out, the lives are what they
    /// were.
    pub(crate) fn ask_only(&mut self, host: HostAddr, request: &Request) -> Result<(), AllocError>
        ensures done { OnOk result (self.new ≡ all.asked host request.now self.old) }
        ensures kept { OnErr result (self.new ≡ self.old) }
    {
        let mut undo = self.empty_list();
        let asked = self.ask(host, request, &mut undo);
        self.conclude(asked, undo)
    }

    /// Records all of these crossings and then these notices; if memory runs out, the lives are what they were.
    pub(crate) fn hear(&mut self, news: &[Crossing], told: &[Told]) -> Result<(), AllocError>
        ensures done { OnOk result (self.new ≡ all.all_told told.now (all.all_crossed news.now self.old)) }
        ensures kept { OnErr result (self.new ≡ self.old) }
    {
        let mut undo = self.empty_list();
        let heard = self.cross_and_tell(news, told, &mut undo);
        self.conclude(heard, undo)
    }

    /// Records all of this; if memory runs out, the lives are what they were.
    pub(crate) fn follow(
        &mut self,
        news: &[Crossing],
        asked: &Option<(HostAddr, Request)>,
        told: &[Told],
        by: HostAddr,
        ran: &[Request],
    ) -> Result<(), AllocError>
        ensures done { OnOk result (self.new ≡ all.followed news.now asked.now told.now (Some by) ran.now self.old) }
        ensures kept { OnErr result (self.new ≡ self.old) }
    {
        let mut done = self.empty_list();
        let followed = self.go_through(news, asked, told, by, ran, &mut done);
        self.conclude(followed, done)
    }

    /// Returns the lives, in the order of opening.
    pub(crate) fn lives(&self) -> &[Life]
        ensures { result.now ≡ self.now.lives }
    {
        &self.lives
    }

    /// Returns what was handed over to be sent in each.
    pub(crate) fn handed(&self) -> &[BitLog]
        ensures { result.now ≡ self.now.handed }
    {
        &self.handed
    }

    /// Returns how far each is.
    pub(crate) fn fates(&self) -> &[Fate]
        ensures { result.now ≡ self.now.fates }
    {
        &self.fates
    }
}
