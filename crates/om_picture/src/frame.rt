//! The frames that were made.

use om_interval::MAX_PROCESSES;
use std::alloc::AllocError;

#[derive(Clone, Copy)]
pub struct Frame {
    /// The place of its sending, and 0 before the window.
    pub x: u32,
    pub from: u32,
    pub to: u32,
    pub again: bool,
    pub given: bool,
}

// Adds so many frames more like this one.
fn add_few(frames: &mut Vec<Frame>, frame: Frame, few: usize) -> Result<(), AllocError> {
    for _ in 0..few {
        frames.push(frame)?;
    }
    Ok(())
}

/// Adds new frames, by receiver, and returns how many they are.
pub fn add_frames(
    frames: &mut Vec<Frame>,
    x: u32,
    from: u32,
    counts: &[usize; MAX_PROCESSES],
    again: bool,
) -> Result<u64, AllocError> {
    let mut to = 0;
    let before = frames.len();
    for few in counts {
        let frame = Frame {
            x,
            from,
            to,
            again,
            given: false,
        };
        add_few(frames, frame, *few)?;
        to = to.saturating_add(1);
    }
    Ok(frames.len().saturating_sub(before) as u64)
}
