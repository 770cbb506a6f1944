//! Quiet rounds: every IMP sends its distances and sends again, and every frame arrives once.

ghost use Rattle.std.specs.Prelude.{◌≡◌, ◌<◌, length, slice_get, true, false, IfOk, OnOk, OnErr};
ghost use Rattle.std.specs.List.{range_with_len};
ghost use Rattle.subnet.specs.Net.{wire_at, frames_on};
ghost use Rattle.subnet.specs.Events as events;
ghost use Rattle.subnet.specs.Calls.{round_grows, delivered_grows};
ghost use Rattle.subnet.specs.Inside.Calling.{AreLive, SameLog, carried_first};

use crate::imp_call::{answers_at_imp, takes_at_imp};
use crate::parts::Parts;
use imp_node::Outgoing;
use interface::Direction;
use std::alloc::AllocError;

impl Parts {
    /// Lets each IMP that is up send its distances and send again. Then the frames of each line are delivered and
    /// dropped, one direction after the other.
    ///
    /// Errors: memory runs out, and nothing else.
    pub(crate) fn quiet_round(&mut self) -> Result<(), AllocError>
        requires { AreLive self.old.imps }
        ensures ok { OnOk result (self.new ≡ events.quiet_round self.old) }
        ensures live { OnOk result (AreLive self.new.imps) }
        ensures memory { OnErr result (round_grows self.old ≡ true) }
        ensures keeps { SameLog self.old self.new }
    {
        let imps = self.imp_places();
        let lines = self.line_count() as usize;
        self.refresh_all(imps)?;
        self.turn_all(lines)
    }

    /// Returns how many places there are for IMPs.
    pub(crate) fn imp_places(&self) -> u8
        ensures { result ≡ length self.now.imps }
    {
        self.imps.len() as u8
    }

    /// Returns how many lines there are.
    pub(crate) fn line_count(&self) -> u32
        ensures { result ≡ length self.now.lines }
    {
        self.lines.len() as u32
    }

    /// Lets each IMP that is up send its distances and send again.
    #[tactic(auto, using(crate::proofs::Calls::Carries::range_more, crate::proofs::Calls::RoundMemory::refreshed_earlier))]
    fn refresh_all(&mut self, places: u8) -> Result<(), AllocError>
        requires { AreLive self.old.imps }
        ensures ok { OnOk result (self.new ≡ events.all_refreshed (range_with_len 0 places) self.old) }
        ensures live { OnOk result (AreLive self.new.imps) }
        ensures memory { OnErr result (round_grows self.old ≡ true) }
        ensures earlier { OnOk result (round_grows self.new ≡ true → round_grows self.old ≡ true) }
        ensures keeps { SameLog self.old self.new }
    {
        for imp in 0..places {
            self.refresh(imp)?;
        }
        Ok(())
    }

    /// Lets an IMP send its distances and send again, if it is up.
    #[tactic(auto, using(crate::proofs::Calls::Resting::not_refreshed))]
    fn refresh(&mut self, imp: u8) -> Result<(), AllocError>
        requires { AreLive self.old.imps }
        ensures ok { OnOk result (self.new ≡ events.refreshed self.old imp) }
        ensures live { OnOk result (AreLive self.new.imps) }
        ensures memory { OnErr result (round_grows self.old ≡ true) }
        ensures keeps { SameLog self.old self.new }
    {
        if !self.is_up(imp) {
            return Ok(());
        }
        self.tell_and_resend(imp)
    }

    /// Does the same, by the calls of the IMP.
    #[tactic(auto, using(crate::proofs::Calls::RoundMemory::telling_wants, crate::proofs::Calls::RoundMemory::sending_wants))]
    fn tell_and_resend(&mut self, imp: u8) -> Result<(), AllocError>
        requires { AreLive self.old.imps }
        ensures ok { OnOk result (self.new ≡ events.refreshed self.old imp) }
        ensures live { OnOk result (AreLive self.new.imps) }
        ensures memory { OnErr result (round_grows self.old ≡ true) }
        ensures keeps { SameLog self.old self.new }
    {
        self.tell(imp)?;
        self.send_again(imp)
    }

    /// Delivers and drops the frames of the first lines, one direction after the other.
    #[tactic(auto, using(crate::proofs::Calls::Carries::range_more))]
    fn turn_all(&mut self, lines: usize) -> Result<(), AllocError>
        requires { AreLive self.old.imps }
        ensures ok { OnOk result (self.new ≡ events.all_turns (range_with_len 0 lines) self.old) }
        ensures live { OnOk result (AreLive self.new.imps) }
        ensures memory { OnErr result (round_grows self.old ≡ true) }
        ensures earlier { OnOk result (round_grows self.new ≡ true → round_grows self.old ≡ true) }
        ensures keeps { SameLog self.old self.new }
    {
        for line in 0..lines {
            self.turn(line, Direction::Forward)?;
            self.turn(line, Direction::Back)?;
        }
        Ok(())
    }

    /// Delivers and drops the frames of a directed line that are live now.
    fn turn(&mut self, line: usize, direction: Direction) -> Result<(), AllocError>
        requires { AreLive self.old.imps }
        ensures ok { OnOk result (self.new ≡ events.turn_of line direction self.old) }
        ensures live { OnOk result (AreLive self.new.imps) }
        ensures memory { OnErr result (round_grows self.old ≡ true) }
        ensures earlier { OnOk result (round_grows self.new ≡ true → round_grows self.old ≡ true) }
        ensures keeps { SameLog self.old self.new }
    {
        let live = self.live(line, direction);
        self.carry(live, line, direction)
    }

    /// Returns how many frames are live on a directed line.
    fn live(&self, line: usize, direction: Direction) -> usize
        ensures { result ≡ length (frames_on direction (wire_at self.now.lines line)) }
    {
        if line < self.lines.len() {
            self.lines.all()[line].live(direction)
        } else {
            0
        }
    }

    /// Delivers once and drops each of the oldest frames of a directed line, the oldest first.
    #[tactic(auto, using(crate::proofs::Calls::Carries::carried_more, crate::proofs::Calls::RoundMemory::carried_earlier))]
    fn carry(&mut self, count: usize, line: usize, direction: Direction) -> Result<(), AllocError>
        requires { AreLive self.old.imps }
        ensures ok { OnOk result (self.new ≡ events.carried count line direction self.old) }
        ensures live { OnOk result (AreLive self.new.imps) }
        ensures memory { OnErr result (round_grows self.old ≡ true) }
        ensures earlier { OnOk result (round_grows self.new ≡ true → round_grows self.old ≡ true) }
        ensures keeps { SameLog self.old self.new }
    {
        for _ in 0..count {
            self.carry_first(line, direction)?;
        }
        Ok(())
    }

    /// Delivers and drops the oldest frame of a directed line, if there is one.
    #[tactic(auto, using(crate::proofs::Calls::Carries::none_carried, crate::proofs::Calls::RoundMemory::delivering_wants))]
    fn carry_first(&mut self, line: usize, direction: Direction) -> Result<(), AllocError>
        requires { AreLive self.old.imps }
        ensures ok { OnOk result (self.new ≡ carried_first line direction self.old) }
        ensures live { OnOk result (AreLive self.new.imps) }
        ensures memory { OnErr result (round_grows self.old ≡ true) }
        ensures keeps { SameLog self.old self.new }
    {
        if !self.has_frame(line, direction, 0) {
            return Ok(());
        }
        self.hand_over(line, direction)?;
        self.lose_first(line, direction);
        Ok(())
    }

    /// Delivers the oldest frame of a directed line at the far end.
    ///
    /// Errors: memory runs out, and nothing else.
    #[tactic(auto, using(crate::proofs::Calls::Taken::handed_quietly))]
    fn hand_over(&mut self, line: usize, direction: Direction) -> Result<(), AllocError>
        requires live { AreLive self.old.imps }
        requires there { line < length self.old.lines }
        requires some { 0 < length (frames_on direction (wire_at self.old.lines line)) }
        ensures ok { OnOk result (events.drop_frame self.new line direction 0 ≡ carried_first line direction self.old) }
        ensures live { OnOk result (AreLive self.new.imps) }
        ensures memory { OnErr result (delivered_grows self.old line direction (slice_get (frames_on direction (wire_at self.old.lines line)) 0) ≡ true) }
        ensures keeps { SameLog self.old self.new }
    {
        if self.takes_first(line, direction) {
            return Ok(());
        }
        if self.answers_first(line, direction)? {
            return Ok(());
        }
        self.hand_on(line, direction)
    }

    /// Delivers the oldest frame of a directed line at the far end, if it brings a packet that was given before and
    /// only its acknowledgement is sent. The call answers whether it arrived; else nothing changes.
    ///
    /// Measured: without it, messages over a chain of eight IMPs take some 7 % more instructions, and messages on 40
    /// connections over four IMPs some 3 %.
    ///
    /// Errors: memory runs out, and nothing else.
    #[tactic(auto, using(crate::proofs::Calls::Taken::taken_again, crate::proofs::Calls::Taken::again_wants))]
    fn answers_first(&mut self, line: usize, direction: Direction) -> Result<bool, AllocError>
        requires live { AreLive self.old.imps }
        requires there { line < length self.old.lines }
        ensures taken { IfOk result (λ done. done ≡ true → self.new ≡ events.deliver self.old line direction 0) }
        ensures left { IfOk result (λ done. done ≡ false → self.new ≡ self.old) }
        ensures live { OnOk result (AreLive self.new.imps) }
        ensures memory { OnErr result (delivered_grows self.old line direction (slice_get (frames_on direction (wire_at self.old.lines line)) 0) ≡ true) }
        ensures keeps { SameLog self.old self.new }
    {
        let imp = self.far_end(line, direction);
        let port = self.far_port(line, direction);
        match self.lines.all()[line].frames(direction).get(0) {
            Some(frame) => match answers_at_imp(&mut self.imps, imp, port, frame) {
                Some(ack) => {
                    self.lines.put_one(imp, Outgoing { port, frame: ack })?;
                    Ok(true)
                }
                None => Ok(false),
            },
            None => Ok(false),
        }
    }

    /// Delivers the oldest frame of a directed line in place at the far end, if nothing is to be sent for it. It stays
    /// on its line, and is not taken off it. The call answers whether it arrived; else nothing changes.
    ///
    /// Measured: without it, messages over a chain of eight IMPs take some 14 % more instructions, and messages on 40
    /// connections over four IMPs some 4 %.
    #[tactic(auto, using(crate::proofs::Calls::Taken::taken_quietly, crate::proofs::Calls::Delivering::none_brought))]
    fn takes_first(&mut self, line: usize, direction: Direction) -> bool
        requires live { AreLive self.old.imps }
        requires there { line < length self.old.lines }
        ensures taken { result ≡ true → self.new ≡ events.deliver self.old line direction 0 }
        ensures left { result ≡ false → self.new ≡ self.old }
        ensures live { AreLive self.new.imps }
        ensures keeps { SameLog self.old self.new }
    {
        let imp = self.far_end(line, direction);
        let port = self.far_port(line, direction);
        match self.lines.all()[line].frames(direction).get(0) {
            Some(frame) => takes_at_imp(&mut self.imps, imp, port, frame),
            None => true,
        }
    }

    /// Delivers the oldest frame of a directed line at the far end. It isn't copied: an empty frame is in its place
    /// until that is dropped.
    ///
    /// Errors: memory runs out, and nothing else.
    #[tactic(auto, using(crate::proofs::Calls::Taken::taken_lives, crate::proofs::Calls::Taken::taken_keeps))]
    fn hand_on(&mut self, line: usize, direction: Direction) -> Result<(), AllocError>
        requires live { AreLive self.old.imps }
        requires there { line < length self.old.lines }
        requires some { 0 < length (frames_on direction (wire_at self.old.lines line)) }
        ensures ok { OnOk result (events.drop_frame self.new line direction 0 ≡ carried_first line direction self.old) }
        ensures live { OnOk result (AreLive self.new.imps) }
        ensures memory { OnErr result (delivered_grows self.old line direction (slice_get (frames_on direction (wire_at self.old.lines line)) 0) ≡ true) }
        ensures keeps { SameLog self.old self.new }
    {
        let imp = self.far_end(line, direction);
        let port = self.far_port(line, direction);
        let frame = self.take_first(line, direction);
        self.come_in(imp, port, frame)
    }

    /// Loses the oldest frame of a directed line, if there is one.
    #[tactic(auto, using(crate::proofs::Calls::Carries::lost_none))]
    fn lose_first(&mut self, line: usize, direction: Direction)
        ensures lost { self.new ≡ events.drop_frame self.old line direction 0 }
        ensures imps { self.new.imps ≡ self.old.imps }
        ensures keeps { SameLog self.old self.new }
    {
        if self.has_frame(line, direction, 0) {
            self.lose(line, direction, 0);
        }
    }
}
