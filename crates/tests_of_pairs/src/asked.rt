//! A pair that is asked, and what it answers.
ghost use Rattle.std.specs.Prelude.{◌≡◌, true};

use crate::volume::Volume;
use anyhow::Result;
use pair_machine::{PairCall, PairReply};
use std::alloc::Global;
use volume_pair::{Pair, PairHalt, PairStart};

/// How it ended.
#[derive(Clone, Copy, Debug, PartialEq, Eq)]
pub(crate) enum End {
    NotStarted(PairStart),
    Halted(PairHalt),
    Closed,
}

/// The replies, and how it ended.
#[derive(Drop)]
pub(crate) struct Answers {
    pub replies: Vec<PairReply>,
    pub end: End,
}

/// A pair on both disks, with 24 frames on each side, is asked these calls, and closed.
pub(crate) fn asked(
    alloc: Global,
    from: &mut Volume,
    to: &mut Volume,
    calls: &[PairCall],
) -> Result<Answers> {
    let mut replies = Vec::new(alloc);
    let mut pair = match Pair::over(alloc, from, to, 24) {
        Ok(pair) => pair,
        Err((why, _, _)) => {
            return Ok(Answers {
                replies,
                end: End::NotStarted(why),
            });
        }
    };
    for call in calls {
        match pair.step(call) {
            Ok(reply) => replies.push(reply)?,
            Err(halt) => {
                return Ok(Answers {
                    replies,
                    end: End::Halted(halt),
                });
            }
        }
    }
    let (ended, _, _) = pair.finish();
    let end = match ended {
        Ok(()) => End::Closed,
        Err(halt) => End::Halted(halt),
    };
    Ok(Answers { replies, end })
}
