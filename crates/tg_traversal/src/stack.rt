//! A stack of frames.
ghost use Rattle.std.specs.Prelude.{◌≡◌, ◌+◌, ◌++◌, [], All, IfErr, IfOk, IfSome, OnErr, OnOk, length, option_to_list};
ghost use Rattle.tg_traversal.specs.Frames.{IsFrame, frame_tasks};
ghost use Rattle.tg_traversal.specs.Left.{IsCome, IsStack, IsTurned, stack_tasks, top_tasks};

use crate::frame::{Frame, Visited};
use std::alloc::{AllocError, Global};
use std::marker::Model;

/// What comes next of a stack.
#[derive(Drop)]
pub(crate) enum Came {
    /// Nothing is left.
    Nothing,
    /// A line ends.
    Line,
    /// An entry is met at a link, or its child is gone into, or both.
    Link(Visited),
}

/// The frames of opened blocks, each below the one whose child it is: as contracts see it, the tasks that are left of
/// them.
#[derive(Drop)]
pub(crate) struct Stack {
    top: Option<Frame>,
    below: Vec<Frame>,
}

impl Model for Stack {
    ghost use Rattle.std.specs.Prelude.{List, ◌++◌};
    ghost use Rattle.tg_cid.specs.Cid.{CidParts};
    ghost use Rattle.tg_traversal.specs.Left.{IsStack, stack_tasks, top_tasks};
    ghost use Rattle.tg_model_laws.specs.Tasks.{Task};

    ghost Value = { List (Task CidParts) };

    ghost view = { λ s. top_tasks s.top ++ stack_tasks s.below.items };

    ghost invariant = { λ s. IsStack s.top s.below.items };
}

impl Stack {
    /// No frame. It takes no memory.
    pub(crate) fn new(alloc: Global) -> Stack
        ensures { result ≡ [] }
    {
        Stack {
            top: None,
            below: Vec::new(alloc),
        }
    }

    /// Takes what comes next; a frame of which nothing is left is dropped. The error is want of memory, with which
    /// nothing changes.
    pub(crate) fn next(&mut self, alloc: Global) -> Result<Came, AllocError>
        ensures come { IfOk result (λ came. IsCome self.old came self.new) }
        ensures err { OnErr result (self.new ≡ self.old) }
    {
        while let Some(frame) = self.top.take() {
            let (came, left) = match turned(frame, alloc) {
                Ok(found) => found,
                Err(frame) => {
                    self.top = Some(frame);
                    return Err(AllocError);
                }
            };
            self.top = uppermost(left, &mut self.below);
            match came {
                Came::Nothing => {}
                came => return Ok(came),
            }
        }
        Ok(Came::Nothing)
    }

    /// Puts a frame on top of the others, where something is left of it. The error is want of memory, with which
    /// nothing changes.
    pub(crate) fn push(&mut self, frame: Frame) -> Result<(), AllocError>
        requires { IsFrame frame }
        ensures ok { OnOk result (self.new ≡ frame_tasks frame ++ self.old) }
        ensures err { OnErr result (self.new ≡ self.old) }
    {
        if frame.is_spent() {
            return Ok(());
        }
        let Some(top) = self.top.replace(frame) else {
            return Ok(());
        };
        if let Err(failed) = self.below.push(top) {
            self.top = Some(failed.value);
            return Err(AllocError);
        }
        Ok(())
    }
}

/// What comes next of one frame, and the frame where something may be left of it. The error is want of memory, with
/// which the frame is given back as it was.
fn turned(frame: Frame, alloc: Global) -> Result<(Came, Option<Frame>), Frame>
    requires { IsFrame frame }
    ensures turned { IfOk result (λ found. IsTurned frame found.0 found.1) }
    ensures err { IfErr result (λ same. same ≡ frame) }
{
    let line = frame.line;
    let (visited, frame) = frame.next(alloc)?;
    if visited.is_nothing() {
        let came = if line { Came::Line } else { Came::Nothing };
        return Ok((came, None));
    }
    let left = if frame.is_spent() { None } else { Some(frame) };
    Ok((Came::Link(visited), left))
}

/// The frame that is on top: what is left of the one that was there, or the last of those below.
fn uppermost(left: Option<Frame>, below: &mut Vec<Frame>) -> Option<Frame>
    requires left { IfSome left IsFrame }
    requires below { All IsFrame below.old.items }
    ensures stack { IsStack result below.new.items }
    ensures tasks { top_tasks result ++ stack_tasks below.new.items ≡ top_tasks left ++ stack_tasks below.old.items }
    ensures count { length below.new.items + length (option_to_list result)
        ≡ length below.old.items + length (option_to_list left) }
{
    match left {
        Some(frame) => Some(frame),
        None => below.pop(),
    }
}
