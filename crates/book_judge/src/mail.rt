//! The mailboxes after what has crossed: which message of each flow is outstanding, and which hosts are up.

ghost use Rattle.std.specs.Prelude.{◌≡◌, OnOk};
ghost use Rattle.book_judge.specs.Inside as tests;

use crate::flow_map::FlowMap;
use crate::texts::same_text;
use interface::{Answer, Crossing, Flow, HostAddr, Link, Text};
use std::alloc::{AllocError, Global};

/// What is known of a flow's last message, by the place where it went out.
#[derive(Clone, Copy, Drop)]
pub(crate) enum Held {
    /// None is outstanding.
    Empty,
    /// It waits to be taken.
    Waiting(usize),
    /// It was taken, and has no answer yet.
    Taken(usize),
}

/// What is known of a host.
#[derive(Clone, Copy, Drop)]
pub(crate) struct Mark {
    /// Whether it is up.
    pub up: bool,
    /// Where it came up last, and 0 before that: what it handed over earlier is forgotten.
    pub since: usize,
}

/// The mailboxes after some crossings. A host of which nothing is known is up, and a flow of which nothing is known has no
/// message outstanding.
#[derive(Drop)]
pub(crate) struct Mail {
    boxes: FlowMap<Held>,
    hosts: FlowMap<Mark>,
}

/// Returns the flow that a host has with itself: its mark is kept there.
fn to_itself(host: HostAddr) -> Flow
    ensures { result ≡ tests.to_itself host }
{
    Flow {
        source: host,
        destination: host,
        link: Link(0),
    }
}

/// Returns a host's mark.
fn mark_in(hosts: &FlowMap<Mark>, host: HostAddr) -> Mark
    ensures { result ≡ tests.mark_in hosts.now host }
{
    match hosts.get(&to_itself(host)) {
        Some(mark) => mark,
        None => Mark { up: true, since: 0 },
    }
}

/// Returns what is outstanding, where its source came up last at this place.
fn fresh(since: usize, held: Option<Held>) -> Held
    ensures { result ≡ tests.fresh since held }
{
    match held {
        Some(Held::Waiting(place)) if since <= place => Held::Waiting(place),
        Some(Held::Taken(place)) if since <= place => Held::Taken(place),
        _ => Held::Empty,
    }
}

/// Returns what is outstanding once it was taken.
fn taken(held: Held) -> Held
    ensures { result ≡ tests.taken held }
{
    match held {
        Held::Empty => Held::Empty,
        Held::Waiting(place) | Held::Taken(place) => Held::Taken(place),
    }
}

/// Returns whether a message with this text waits.
pub(crate) fn waits_with(held: Held, log: &[Crossing], text: &Text) -> bool
    ensures { result ≡ tests.waits_with held log.now text.now }
{
    let Held::Waiting(place) = held else {
        return false;
    };
    match log.get(place) {
        Some(Crossing::Out(out)) => same_text(&out.text, text),
        _ => false,
    }
}

/// Returns whether an answer fits what is outstanding.
fn fits_answer(kind: Answer, held: Held) -> bool
    ensures { result ≡ tests.fits_answer kind held }
{
    match held {
        Held::Empty => false,
        Held::Waiting(_) => kind != Answer::Rfnm,
        Held::Taken(_) => matches!(kind, Answer::Rfnm | Answer::Incomplete),
    }
}

impl Mail {
    /// Returns the mailboxes before anything has crossed.
    pub(crate) fn new(alloc: Global) -> Mail
        ensures { result ≡ tests.opening_mail }
    {
        Mail {
            boxes: FlowMap::new(alloc),
            hosts: FlowMap::new(alloc),
        }
    }

    /// Returns whether a host is up.
    fn is_up(&self, host: HostAddr) -> bool
        ensures { result ≡ tests.is_up self.now host }
    {
        mark_in(&self.hosts, host).up
    }

    /// Returns what is outstanding of a flow.
    fn held(&self, flow: &Flow) -> Held
        ensures { result ≡ tests.held_in self.now flow.now }
    {
        fresh(
            mark_in(&self.hosts, flow.source).since,
            self.boxes.get(flow),
        )
    }

    /// Returns whether a crossing finds what it needs. The log has what crossed before.
    pub(crate) fn finds(&self, log: &[Crossing], crossing: &Crossing) -> bool
        ensures { result ≡ tests.finds self.now log.now crossing.now }
    {
        match crossing {
            Crossing::Out(message) => {
                self.is_up(message.flow.source) && matches!(self.held(&message.flow), Held::Empty)
            }
            Crossing::In(message) => {
                self.is_up(message.flow.destination)
                    && waits_with(self.held(&message.flow), log, &message.text)
            }
            Crossing::Answer(kind, flow) => {
                self.is_up(flow.source) && fits_answer(*kind, self.held(flow))
            }
            Crossing::Down(host) => self.is_up(*host),
            Crossing::Up(host) => !self.is_up(*host),
        }
    }

    /// Lets a crossing change the mailboxes, at its place in the log.
    ///
    /// Errors: `AllocError`.
    pub(crate) fn cross(&mut self, place: usize, crossing: &Crossing) -> Result<(), AllocError>
        ensures { OnOk result (self.new ≡ tests.crossed place crossing.now self.old) }
    {
        match crossing {
            Crossing::Out(message) => self.boxes.set(message.flow, Held::Waiting(place)),
            Crossing::In(message) => {
                let held = self.held(&message.flow);
                self.boxes.set(message.flow, taken(held))
            }
            Crossing::Answer(_, flow) => self.boxes.set(*flow, Held::Empty),
            Crossing::Down(host) => {
                let since = mark_in(&self.hosts, *host).since;
                self.hosts.set(to_itself(*host), Mark { up: false, since })
            }
            Crossing::Up(host) => self.hosts.set(
                to_itself(*host),
                Mark {
                    up: true,
                    since: place,
                },
            ),
        }
    }
}
