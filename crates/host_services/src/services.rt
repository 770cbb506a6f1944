//! The services of a host.

ghost use Rattle.std.specs.Prelude.{◌≡◌, ◌<◌, ◌++◌, ◌∷◌, [], IfOk, OnErr, OnOk, length};
ghost use Rattle.std.specs.Bool.{OnFalse};
ghost use Rattle.host_pairs.specs.declared.notice.Notice.{Notice};
ghost use Rattle.host_services.specs.Ears.{AreDeaf, all_in, subject_of};
ghost use Rattle.host_services.specs.Services.{ServiceDeskState, no_services};
ghost use Rattle.host_services.specs.Turns as turns;
ghost use Rattle.icp.specs.declared.outcome.Failure.TheVariants as failure;
ghost use Rattle.icp.specs.declared.outcome.Outcome.TheVariants as outcome;

use crate::block::Block;
use crate::desk::ServiceDesk;
use crate::hearing::Subject;
use crate::{Report, Service};
use icp::{Failure, Outcome, Said, Server, StartFault, User};
use interface::HostAddr;
use ncp_control::SendSocket;
use sockets::Notice;
use std::alloc::{AllocError, Global};
use std::marker::Model;
use std::mem;

/// The services of a host, in the order in which they began.
///
/// They are in blocks, so that a notice passes by all services of a block at once where none of them hears it.
#[derive(Drop)]
pub struct Services {
    full: Vec<Block>,
    last: Block,
    typing: Option<SendSocket>,
    alloc: Global,
}

impl Model for Services {
    ghost use Rattle.std.specs.Prelude.{◌++◌};
    ghost use Rattle.host_services.specs.Ears.{all_in};
    ghost use Rattle.host_services.specs.Services.{ServicesState};

    ghost Value = { ServicesState };

    ghost view = { λ s. record { running = all_in s.full.items ++ s.last; typing = s.typing } };
}

/// Passes a notice to the services of these blocks, one after another.
#[tactic(auto, using(crate::proofs::BlockLemmas::more_blocks))]
fn tell_blocks(
    alloc: Global,
    blocks: &mut [Block],
    desk: &mut ServiceDesk,
    notice: &Notice,
    subject: Subject,
) -> Result<(), AllocError>
    requires { subject ≡ subject_of notice.now }
    ensures { IfOk result (λ _. turns.notice_heard notice.now (all_in blocks.old) desk.old ≡ (all_in blocks.new, desk.new)) }
{
    for at in 0..blocks.len() {
        blocks[at].tell(alloc, desk, notice, subject)?;
    }
    Ok(())
}

/// Passes a notice to the services of these blocks, and then to those of the last one.
fn tell_each(
    alloc: Global,
    full: &mut [Block],
    last: &mut Block,
    desk: &mut ServiceDesk,
    notice: &Notice,
) -> Result<(), AllocError>
    ensures { IfOk result (λ _. turns.notice_heard notice.now (all_in full.old ++ last.old) desk.old ≡ (all_in full.new ++ last.new, desk.new)) }
{
    let subject = Subject::of(notice);
    tell_blocks(alloc, full, desk, notice, subject)?;
    last.tell(alloc, desk, notice, subject)?;
    Ok(())
}

/// Returns whether a notice about this may do something to a service of these blocks.
fn any_hears(blocks: &[Block], subject: Subject) -> bool
    ensures { OnFalse result ((n : Notice) → subject ≡ subject_of n → AreDeaf (all_in blocks.now) n) }
{
    for block in blocks {
        if block.hears(subject) {
            return true;
        }
    }
    false
}

/// Passes several notices to the services, one after another.
fn tell_all(
    alloc: Global,
    full: &mut [Block],
    last: &mut Block,
    desk: &mut ServiceDesk,
    notices: &[Notice],
) -> Result<(), AllocError>
    ensures heard { IfOk result (λ _. turns.all_heard notices.now (all_in full.old ++ last.old) desk.old ≡ (all_in full.new ++ last.new, desk.new)) }
    ensures memory { OnErr result (0 < length notices.now) }
{
    for notice in notices {
        desk.count()?;
        tell_each(alloc, full, last, desk, notice)?;
    }
    Ok(())
}

/// Returns the outcome of a machine that can't begin.
fn bad_start() -> Outcome
    ensures { result ≡ outcome.Failed failure.BadSocket }
{
    Outcome::Failed(Failure::BadSocket)
}

impl Services {
    /// Returns the services of a host on which nothing runs.
    pub fn new(alloc: Global) -> Services
        ensures { result ≡ no_services }
    {
        Services {
            full: Vec::new(alloc),
            last: Block::new(alloc),
            typing: None,
            alloc,
        }
    }

    /// Returns the socket on which the terminal that came last sends what is typed; none where there was no terminal
    /// yet.
    pub fn typing(&self) -> Option<SendSocket>
        ensures { result ≡ self.now.typing }
    {
        self.typing
    }

    /// Returns the services in blocks, and those that began after them, in the order in which they began.
    pub fn running(&self) -> (&[Block], &[Service])
        ensures { all_in result.0.now ++ result.1.now ≡ self.now.running }
    {
        (&self.full, self.last.as_slice())
    }

    /// Begins a new block where the last one is full.
    #[tactic(auto, using(crate::proofs::BlockLemmas::one_block_more))]
    fn make_room(&mut self) -> Result<(), AllocError>
        ensures { OnOk result (self.new ≡ self.old) }
    {
        if !self.last.is_full() {
            return Ok(());
        }
        self.full.reserve(1)?;
        let last = mem::replace(&mut self.last, Block::new(self.alloc));
        self.full.push_reserved(last);
        Ok(())
    }

    /// Adds a service as the last.
    #[tactic(auto, using(crate::proofs::BlockLemmas::joined))]
    fn join(&mut self, service: Service) -> Result<(), AllocError>
        ensures { OnOk result (self.new ≡ record self.old { running = self.old.running ++ service ∷ [] }) }
    {
        self.make_room()?;
        self.last.push(service)
    }

    /// Returns whether a notice may do something to one of them.
    #[tactic(auto, using(crate::proofs::BlockLemmas::both_deaf))]
    fn hear(&self, notice: &Notice) -> bool
        ensures { OnFalse result (AreDeaf self.now.running notice.now) }
    {
        let subject = Subject::of(notice);
        any_hears(&self.full, subject) || self.last.hears(subject)
    }

    /// Returns whether one of these notices may do something to one of them. Where none does, they needn't hear it.
    pub fn hear_any(&self, notices: &[Notice]) -> bool
        ensures { OnFalse result ((d : ServiceDeskState) → turns.services_told notices.now self.now d ≡ turns.passed_by notices.now self.now d) }
    {
        for notice in notices {
            if self.hear(notice) {
                return true;
            }
        }
        false
    }

    /// Passes these notices of their host to the services, one after another. What they ask for is asked at once.
    ///
    /// Errors: `AllocError` when memory runs out, only where there is a notice.
    #[tactic(auto, unfolding(crate::specs::Turns::services_told))]
    pub fn tell(&mut self, desk: &mut ServiceDesk, notices: &[Notice]) -> Result<(), AllocError>
        ensures memory { OnErr result (0 < length notices.now) }
        ensures told { IfOk result (λ _. turns.services_told notices.now self.old desk.old ≡ (self.new, desk.new)) }
    {
        desk.typing = self.typing;
        tell_all(self.alloc, &mut self.full, &mut self.last, desk, notices)?;
        self.typing = desk.typing;
        Ok(())
    }

    /// Starts a server of an initial connection, on the odd socket `listen` and with an even base. One that can't
    /// begin, or whose first requests are refused, is reported to have failed.
    ///
    /// Errors: `AllocError` when memory runs out.
    #[tactic(auto, unfolding(crate::specs::Turns::server_begun))]
    pub fn serve(
        &mut self,
        desk: &mut ServiceDesk,
        listen: u32,
        base: u32,
    ) -> Result<(), AllocError>
        ensures { IfOk result (λ _. turns.server_begun listen base self.old desk.old ≡ (self.new, desk.new)) }
    {
        desk.typing = self.typing;
        let (mut server, requests) = match Server::start(self.alloc, listen, base) {
            Ok(started) => started,
            Err(StartFault::BadSocket) => return desk.report(Report::Server(bad_start())),
            Err(StartFault::OutOfMemory) => return Err(AllocError),
        };
        let said = Said {
            requests,
            outcome: None,
        };
        let next = desk.settle_server(self.alloc, &mut server, said)?;
        self.join(next.unwrap_or(Service::Server(server)))?;
        self.typing = desk.typing;
        Ok(())
    }

    /// Starts a user of an initial connection, from the even socket `own` to the odd socket `listen` of a peer. One
    /// that can't begin, or whose first request is refused, is reported to have failed.
    ///
    /// Errors: `AllocError` when memory runs out.
    #[tactic(auto, unfolding(crate::specs::Turns::user_begun))]
    pub fn connect(
        &mut self,
        desk: &mut ServiceDesk,
        peer: HostAddr,
        listen: u32,
        own: u32,
    ) -> Result<(), AllocError>
        ensures { IfOk result (λ _. turns.user_begun peer listen own self.old desk.old ≡ (self.new, desk.new)) }
    {
        desk.typing = self.typing;
        let (mut user, requests) = match User::start(self.alloc, peer, listen, own) {
            Ok(started) => started,
            Err(StartFault::BadSocket) => return desk.report(Report::User(bad_start())),
            Err(StartFault::OutOfMemory) => return Err(AllocError),
        };
        let said = Said {
            requests,
            outcome: None,
        };
        let next = desk.settle_user(self.alloc, &mut user, said)?;
        self.join(next.unwrap_or(Service::User(user)))?;
        self.typing = desk.typing;
        Ok(())
    }
}
