//! Asking what became of a message, in place of giving it up.

ghost use Rattle.std.specs.Prelude.{◌≡◌, ◌≤◌, true, false, None, IfOk, OnOk, OnErr};
ghost use Rattle.packetiser.specs.declared.packet.PacketKind.TheVariants as kind;
ghost use Rattle.imp_node.specs.Asking as asking;
ghost use Rattle.imp_node.specs.Flows as flows;
ghost use Rattle.imp_node.specs.Pump.{stored};
ghost use Rattle.imp_node.specs.Room.{has_route};
ghost use Rattle.imp_node.specs.Turns.{Turned, Takes, ask_grows};

use crate::steps::answer_packet;
use crate::{Imp, Outgoing};
use interface::{CarrierFault, Flow, Number};
use packetiser::PacketKind;
use std::alloc::AllocError;

impl Imp {
    /// Asks what became of the outstanding message of a flow from one of its hosts: a question waits for the line to
    /// the destination's IMP. Without a live route there, and within one IMP, nothing is asked. The source may be down.
    /// It answers the frames to put on lines.
    ///
    /// Errors: `NoSuch` where the source isn't one of its hosts, `NotOutstanding` where no message of the flow
    /// is outstanding, `NoRoom` where the question has no room in the store. `OutOfMemory` only where a route
    /// leads to the destination's IMP or a frame is sent, and then the IMP is spent.
    #[tactic(auto, using(crate::proofs::Spending::ask_spent))]
    pub fn ask(&mut self, flow: Flow) -> Result<Vec<Outgoing>, CarrierFault>
        requires { self.old.spent ≡ false }
        ensures turn { Turned (asking.ask_refusal self.old flow) (ask_grows self.old flow) (λ frames. Takes (asking.ask self.old flow) self.new frames.items) self.old self.new result }
        ensures live { OnOk result (self.new.spent ≡ false) }
    {
        if let Some(fault) = self.ask_refusal(&flow) {
            return Err(fault);
        }
        let Ok(frames) = self.asked(flow) else {
            return Err(self.exhaust());
        };
        Ok(frames)
    }

    /// Returns why the IMP may not ask for the message of a flow.
    fn ask_refusal(&self, flow: &Flow) -> Option<CarrierFault>
        ensures { result ≡ asking.ask_refusal self.now flow.now }
    {
        let destination = flow.destination;
        if !self.is_own(&flow.source) {
            Some(CarrierFault::NoSuch)
        } else if self.sources.outstanding(flow).is_none() {
            Some(CarrierFault::NotOutstanding)
        } else if !self.has_room_to(destination.imp()) {
            Some(CarrierFault::NoRoom)
        } else {
            None
        }
    }

    /// Asks for the outstanding message of a flow, which isn't refused, and pumps.
    #[tactic(auto, using(crate::proofs::Sound::asking_own))]
    fn asked(&mut self, flow: Flow) -> Result<Vec<Outgoing>, AllocError>
        requires { asking.ask_refusal self.old flow ≡ None }
        ensures ok { IfOk result (λ frames. Takes (asking.ask self.old flow) self.new frames.items) }
        ensures memory { OnErr result (ask_grows self.old flow ≡ true) }
    {
        if let Some(number) = self.sources.outstanding(&flow) {
            self.question(flow, number)?;
        }
        self.pump_alone()
    }

    /// Stores a question about a message for its route, or drops it if there is no live route.
    fn question(&mut self, flow: Flow, number: Number) -> Result<(), AllocError>
        ensures ok { OnOk result (self.new ≡ stored (flows.answer_packet kind.Ask flow number) self.old) }
        ensures memory { OnErr result (has_route self.old flow.destination.imp ≡ true) }
    {
        let destination = flow.destination;
        if !self.has_route(destination.imp()) {
            return Ok(());
        }
        let question = answer_packet(self.alloc, PacketKind::Ask, flow, number);
        self.admit(question)
    }
}
