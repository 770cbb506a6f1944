//! Some services of a host that began one after another, and are passed by together.

ghost use Rattle.std.specs.Prelude.{◌≡◌, ◌++◌, ◌∷◌, [], IfOk, OnOk, map};
ghost use Rattle.std.specs.Bool.{OnFalse};
ghost use Rattle.host_pairs.specs.declared.notice.Notice.{Notice};
ghost use Rattle.host_services.specs.Ears.{AreDeaf, ear_of, subject_of};
ghost use Rattle.host_services.specs.Turns as turns;

use crate::Service;
use crate::desk::ServiceDesk;
use crate::hearing::{Ear, Scope, Subject};
use sockets::Notice;
use std::alloc::{AllocError, Global};
use std::marker::Model;

/// How many services a block has when it is full.
const ROOM: usize = 32;

/// Some services, in the order in which they began.
///
/// Beside each is what it may hear of, and beside all of them what any of them may hear of.
#[derive(Drop)]
pub struct Block {
    services: Vec<Service>,
    ears: Vec<Ear>,
    scope: Scope,
}

impl Model for Block {
    ghost use Rattle.std.specs.Prelude.{◌≡◌, List, map};
    ghost use Rattle.host_services.specs.Ears.{AreHeardIn, ear_of};
    ghost use Rattle.host_services.specs.Services.{Service};

    ghost Value = { List Service };

    ghost view = { λ b. b.services.items };

    ghost invariant = { λ b. (b.ears.items ≡ map ear_of b.services.items) × AreHeardIn b.scope b.ears.items };
}

/// Passes a notice to a service, unless it can't hear of what it is about. Returns whether it may hear of other things
/// now.
#[tactic(auto, using(crate::proofs::HearingLemmas::deaf))]
fn tell_one(
    alloc: Global,
    service: &mut Service,
    ear: &mut Ear,
    desk: &mut ServiceDesk,
    notice: &Notice,
    subject: Subject,
) -> Result<bool, AllocError>
    requires ear { ear.old ≡ ear_of service.old }
    requires subject { subject ≡ subject_of notice.now }
    ensures heard { IfOk result (λ _. turns.heard_by notice.now service.old desk.old ≡ (service.new, desk.new)) }
    ensures same { IfOk result (λ changed. OnFalse changed (ear.new ≡ ear.old)) }
    ensures ear { ear.new ≡ ear_of service.new }
{
    if !ear.hears(subject) {
        return Ok(false);
    }
    let told = desk.tell(alloc, service, notice);
    let before = *ear;
    *ear = service.ear();
    told?;
    Ok(before != *ear)
}

/// Passes a notice to each of these services, one after another. Returns whether one of them may hear of other things
/// now.
#[tactic(auto, using(crate::proofs::TurnLemmas::ear_at, crate::proofs::TurnLemmas::ears_long, crate::proofs::TurnLemmas::ears_set))]
fn tell_each(
    alloc: Global,
    services: &mut [Service],
    ears: &mut [Ear],
    desk: &mut ServiceDesk,
    notice: &Notice,
    subject: Subject,
) -> Result<bool, AllocError>
    requires ears { ears.old ≡ map ear_of services.old }
    requires subject { subject ≡ subject_of notice.now }
    ensures heard { IfOk result (λ _. turns.notice_heard notice.now services.old desk.old ≡ (services.new, desk.new)) }
    ensures same { IfOk result (λ changed. OnFalse changed (ears.new ≡ ears.old)) }
    ensures ears { ears.new ≡ map ear_of services.new }
{
    let mut changed = false;
    for at in 0..services.len() {
        let now = tell_one(
            alloc,
            &mut services[at],
            &mut ears[at],
            desk,
            notice,
            subject,
        )?;
        changed |= now;
    }
    Ok(changed)
}

impl Block {
    /// Returns a block without services.
    pub(crate) fn new(alloc: Global) -> Block
        ensures { result ≡ [] }
    {
        Block {
            services: Vec::new(alloc),
            ears: Vec::new(alloc),
            scope: Scope::empty(),
        }
    }

    /// Returns its services, in the order in which they began.
    pub fn as_slice(&self) -> &[Service]
        ensures { result.now ≡ self.now }
    {
        &self.services
    }

    /// Returns whether no service is to join it.
    pub(crate) fn is_full(&self) -> bool {
        self.services.len() >= ROOM
    }

    /// Adds a service as the last.
    #[tactic(auto, using(crate::proofs::TurnLemmas::ears_joined, crate::proofs::ScopeLemmas::one_more))]
    pub(crate) fn push(&mut self, service: Service) -> Result<(), AllocError>
        ensures { OnOk result (self.new ≡ self.old ++ service ∷ []) }
    {
        self.services.reserve(1)?;
        self.ears.reserve(1)?;
        let ear = service.ear();
        self.ears.push_reserved(ear);
        self.services.push_reserved(service);
        self.scope.widen(ear);
        Ok(())
    }

    /// Returns whether a notice about this may do something to one of its services.
    #[tactic(auto, using(crate::proofs::ScopeLemmas::all_deaf))]
    pub(crate) fn hears(&self, subject: Subject) -> bool
        ensures { OnFalse result ((n : Notice) → subject ≡ subject_of n → AreDeaf self.now n) }
    {
        self.scope.hears(subject)
    }

    /// Passes a notice to its services, one after another.
    #[inline(never)]
    fn tell_all(
        &mut self,
        alloc: Global,
        desk: &mut ServiceDesk,
        notice: &Notice,
        subject: Subject,
    ) -> Result<(), AllocError>
        requires { subject ≡ subject_of notice.now }
        ensures { IfOk result (λ _. turns.notice_heard notice.now self.old desk.old ≡ (self.new, desk.new)) }
    {
        let told = tell_each(
            alloc,
            &mut self.services,
            &mut self.ears,
            desk,
            notice,
            subject,
        );
        if !matches!(told, Ok(false)) {
            self.scope = Scope::of(&self.ears);
        }
        told?;
        Ok(())
    }

    /// Passes a notice to its services, one after another, unless none of them hears of what it is about.
    pub(crate) fn tell(
        &mut self,
        alloc: Global,
        desk: &mut ServiceDesk,
        notice: &Notice,
        subject: Subject,
    ) -> Result<(), AllocError>
        requires { subject ≡ subject_of notice.now }
        ensures { IfOk result (λ _. turns.notice_heard notice.now self.old desk.old ≡ (self.new, desk.new)) }
    {
        if !self.hears(subject) {
            return Ok(());
        }
        self.tell_all(alloc, desk, notice, subject)
    }
}
