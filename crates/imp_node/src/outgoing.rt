//! Frames that an IMP puts on lines.

ghost use Rattle.std.specs.Prelude.{◌≡◌, ◌++◌, ◌∷◌, [], OnOk};

use imp_channel::Frame;
use std::alloc::AllocError;

/// A frame that an IMP puts on the line at one of its ports.
#[derive(Debug, Drop)]
pub struct Outgoing {
    /// The port of the line.
    pub port: u8,
    /// The frame that is sent on it.
    pub frame: Frame,
}

/// Puts a frame for the line at a port after the others.
#[inline]
pub(crate) fn push_frame(
    frames: &mut Vec<Outgoing>,
    port: u8,
    frame: Frame,
) -> Result<(), AllocError>
    ensures { OnOk result (frames.new.items ≡ frames.old.items ++ record { port = port; frame = frame } ∷ []) }
{
    frames.reserve(1)?;
    frames.push_reserved(Outgoing { port, frame });
    Ok(())
}
