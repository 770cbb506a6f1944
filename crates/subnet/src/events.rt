//! All events of a subnet.

ghost use Rattle.std.specs.Prelude.{OnOk, OnErr};
ghost use Rattle.subnet.specs.Inside.Calling.{AreLive, Steps, SameLog};

use crate::parts::Parts;
use interface::{CarrierFault, NetEvent};

impl Parts {
    /// Lets an event happen in the subnet.
    pub(crate) fn step(&mut self, event: NetEvent) -> Result<(), CarrierFault>
        requires { AreLive self.old.imps }
        ensures step { Steps event self.old self.new result }
        ensures live { OnOk result (AreLive self.new.imps) }
        ensures keeps { OnErr result (SameLog self.old self.new) }
    {
        match event {
            NetEvent::Deliver {
                line,
                direction,
                frame,
            } => self.deliver(line, direction, frame),
            NetEvent::Drop {
                line,
                direction,
                frame,
            }
            | NetEvent::Garble {
                line,
                direction,
                frame,
            } => self.drop_frame(line, direction, frame),
            NetEvent::Resend(imp) => self.resend(imp),
            NetEvent::Route(imp) => self.route(imp),
            NetEvent::Claim(imp) => self.claim(imp),
            NetEvent::EndDown { imp, line } => self.end_down(imp, line),
            NetEvent::EndUp { imp, line } => self.end_up(imp, line),
            NetEvent::ImpDown(imp) => self.imp_down(imp),
            NetEvent::ImpUp(imp) => self.imp_up(imp),
            NetEvent::HostDown(host) => self.host_down(host),
            NetEvent::HostUp(host) => self.host_up(host),
            NetEvent::GiveUp(flow) => self.give_up(flow),
            NetEvent::Forget { at, from } => self.forget(at, from),
            NetEvent::Abandon(flow) => self.abandon(flow),
            NetEvent::Ask(flow) => self.ask(flow),
        }
    }
}
