//! What a world writes down.

ghost use Rattle.std.specs.Prelude.{◌≡◌, ◌+◌, ◌++◌, IfOk, OnErr, OnOk, length, map, reverse, take};
ghost use Rattle.net_sim.specs.Book.{all_crossed, all_told, asked, opening_kept};
ghost use Rattle.net_sim.specs.Inside.Lives.{entered, told_at};

use crate::asking::add_called;
use crate::crossed::Crossed;
use crate::lives::Lives;
use host_services::Reported;
use interface::{Crossing, HostAddr};
use promise::{BitLog, Called, Fate, Life, Told};
use sockets::{Notice, Request};
use std::alloc::{AllocError, Global};
use std::marker::Model;

/// What happened at a host in one step after something crossed, in this order.
#[derive(Drop)]
pub(crate) struct Page {
    /// The host.
    pub(crate) host: HostAddr,
    /// What a user asked for.
    pub(crate) asked: Option<(HostAddr, Request)>,
    /// Which contacts were asked for.
    pub(crate) called: Vec<Called>,
    /// The notices to the host's user.
    pub(crate) notices: Vec<Notice>,
    /// What the host's services asked for in their turns.
    pub(crate) ran: Vec<Request>,
    /// What these services reported.
    pub(crate) reports: Vec<Reported>,
}

/// What a world writes down: how much has crossed, the notices to users, the contacts that they asked for, what services
/// reported, a life for each opened end of a connection, what was handed over to be sent in each, and how far each is. All of them are
/// in their order, the oldest first.
///
/// Notes are seen with all that crossed, as the book is. But what crossed is in the carrier's log, and here only how much that is.
///
/// What is written at one time is written whole or not at all: where memory runs out in the lives, they are taken back to what they
/// were, and so are the notices. For all else there is room before anything is written.
#[derive(Drop)]
pub(crate) struct Notes {
    crossed: Crossed,
    notices: Vec<Told>,
    contacts: Vec<Called>,
    reports: Vec<Reported>,
    lives: Lives,
}

impl Model for Notes {
    ghost use Rattle.net_sim.specs.Book.{Kept};

    ghost Value = { Kept };

    ghost view = { λ n. record { book = record { crossings = n.crossed; notices = n.notices.items; contacts = n.contacts.items; reports = n.reports.items; lives = n.lives.lives }; handed = n.lives.handed; fates = n.lives.fates } };
}

/// Adds notices to a host's user after the earlier ones, with the number of crossings.
fn push_told(
    all: &mut Vec<Told>,
    host: HostAddr,
    place: usize,
    notices: Vec<Notice>,
) -> Result<(), AllocError>
    ensures done { OnOk result (all.new.items ≡ all.old.items ++ map (told_at host place) notices.items) }
    ensures before { take (length all.old.items) all.new.items ≡ all.old.items }
{
    for notice in notices {
        all.push(Told {
            host,
            place,
            notice,
        })?;
    }
    Ok(())
}

/// Adds all of these notices, or none if memory runs out.
#[inline(always)]
fn add_told(
    all: &mut Vec<Told>,
    host: HostAddr,
    place: usize,
    notices: Vec<Notice>,
) -> Result<(), AllocError>
    ensures done { OnOk result (all.new.items ≡ all.old.items ++ map (told_at host place) notices.items) }
    ensures kept { OnErr result (all.new.items ≡ all.old.items) }
{
    let before = all.len();
    if push_told(all, host, place, notices).is_err() {
        all.truncate(before);
        return Err(AllocError);
    }
    Ok(())
}

impl Notes {
    /// Returns notes by which nothing has happened.
    pub(crate) fn new(alloc: Global) -> Notes
        ensures { result ≡ opening_kept }
    {
        Notes {
            crossed: Crossed::new(),
            notices: Vec::new(alloc),
            contacts: Vec::new(alloc),
            reports: Vec::new(alloc),
            lives: Lives::new(alloc),
        }
    }

    /// Returns how many crossings there were.
    pub(crate) fn crossed(&self) -> usize
        ensures { result ≡ length self.now.book.crossings }
    {
        self.crossed.count()
    }

    /// Returns how many crossings there will be once these are written, too.
    pub(crate) fn place_after(&self, news: &[Crossing]) -> Result<usize, AllocError>
        ensures { IfOk result (λ place. place ≡ length self.now.book.crossings + length news.now) }
    {
        self.crossed.count_with(news)
    }

    /// Returns the notices to users.
    pub(crate) fn notices(&self) -> &[Told]
        ensures { result.now ≡ self.now.book.notices }
    {
        &self.notices
    }

    /// Returns the contacts that users asked for.
    pub(crate) fn contacts(&self) -> &[Called]
        ensures { result.now ≡ self.now.book.contacts }
    {
        &self.contacts
    }

    /// Returns what services reported.
    pub(crate) fn reports(&self) -> &[Reported]
        ensures { result.now ≡ self.now.book.reports }
    {
        &self.reports
    }

    /// Returns the lives of connections.
    pub(crate) fn lives(&self) -> &[Life]
        ensures { result.now ≡ self.now.book.lives }
    {
        self.lives.lives()
    }

    /// Returns what was handed over to be sent, a list of bits for each life.
    pub(crate) fn handed(&self) -> &[BitLog]
        ensures { result.now ≡ self.now.handed }
    {
        self.lives.handed()
    }

    /// Returns how far each life is, and how those ended that are over.
    pub(crate) fn fates(&self) -> &[Fate]
        ensures { result.now ≡ self.now.fates }
    {
        self.lives.fates()
    }

    /// Writes down what crossed, of which no user was notified.
    pub(crate) fn cross(&mut self, news: &[Crossing]) -> Result<(), AllocError>
        ensures done { OnOk result (self.new ≡ all_crossed (reverse news.now) self.old) }
        ensures kept { OnErr result (self.new ≡ self.old) }
    {
        let count = self.crossed.count_with(news)?;
        self.lives.cross_only(news)?;
        self.crossed.grow(news, count);
        Ok(())
    }

    /// Writes down what the user of a host asked for, of which it gets no notice.
    pub(crate) fn ask(&mut self, host: HostAddr, request: &Request) -> Result<(), AllocError>
        ensures done { OnOk result (self.new ≡ asked host request.now self.old) }
        ensures kept { OnErr result (self.new ≡ self.old) }
    {
        let count = self.contacts.len();
        let place = self.crossed.count();
        add_called(&mut self.contacts, host, place, request)?;
        if self.lives.ask_only(host, request).is_err() {
            self.contacts.truncate(count);
            return Err(AllocError);
        }
        Ok(())
    }

    /// Writes down what crossed, and what the user of a host was notified of it.
    #[inline(never)]
    pub(crate) fn tell(
        &mut self,
        host: HostAddr,
        news: &[Crossing],
        notices: Vec<Notice>,
    ) -> Result<(), AllocError>
        ensures done { OnOk result (self.new ≡ all_told host notices.items (all_crossed (reverse news.now) self.old)) }
        ensures kept { OnErr result (self.new ≡ self.old) }
    {
        let place = self.crossed.count_with(news)?;
        let told = self.notices.len();
        add_told(&mut self.notices, host, place, notices)?;
        if self.lives.hear(news, &self.notices[told..]).is_err() {
            self.notices.truncate(told);
            return Err(AllocError);
        }
        self.crossed.grow(news, place);
        Ok(())
    }

    /// Writes down what crossed, and what happened at a host then.
    pub(crate) fn write(&mut self, news: &[Crossing], page: Page) -> Result<(), AllocError>
        ensures done { OnOk result (self.new ≡ entered news.now page.asked page.called.items page.host page.notices.items page.ran.items page.reports.items self.old) }
        ensures kept { OnErr result (self.new ≡ self.old) }
    {
        let Page {
            host,
            asked,
            mut called,
            notices,
            ran,
            mut reports,
        } = page;
        self.contacts.reserve(called.len())?;
        self.reports.reserve(reports.len())?;
        let place = self.crossed.count_with(news)?;
        let told = self.notices.len();
        add_told(&mut self.notices, host, place, notices)?;
        let followed = self
            .lives
            .follow(news, &asked, &self.notices[told..], host, &ran);
        if followed.is_err() {
            self.notices.truncate(told);
            return Err(AllocError);
        }
        self.crossed.grow(news, place);
        self.contacts.append(&mut called)?;
        self.reports.append(&mut reports)?;
        Ok(())
    }
}
