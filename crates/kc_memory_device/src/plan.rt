//! How a device splits reads and writes, and which call fails.
ghost use Rattle.std.specs.Prelude.{◌≤◌};

use kc_io::{Action, Fault};

/// How a device behaves (our own).
#[derive(Clone, Copy)]
pub struct Plan {
    /// The most bytes that the first read of a file gives; 0 counts as 1.
    pub first_read: usize,
    /// The most bytes of each later read; 0 counts as 1.
    pub later_reads: usize,
    /// The most bytes that a write takes; 0 counts as 1.
    pub piece: usize,
    /// The total number of bytes that writes take. A write fails if no room is left.
    pub room: usize,
    /// The kind of calls that are counted, or all calls if None. `Open` is counted whether the file exists or not.
    pub counted: Option<Action>,
    /// The number of the call that fails, counted from 1; 0 for none. Removing temporary files is not counted.
    pub fail_at: u64,
    /// The fault with which it fails.
    pub fault: Fault,
}

/// A device that reads and writes all bytes at once, and never fails.
pub const SMOOTH: Plan = Plan {
    first_read: usize::MAX,
    later_reads: usize::MAX,
    piece: usize::MAX,
    room: usize::MAX,
    counted: None,
    fail_at: 0,
    fault: Fault::Refused,
};

/// The calls so far.
#[derive(Clone, Copy)]
pub(crate) struct Turns {
    pub(crate) plan: Plan,
    pub(crate) calls: u64,
    room: usize,
}

impl Turns {
    pub(crate) fn new(plan: Plan) -> Turns {
        Turns {
            plan,
            calls: 0,
            room: plan.room,
        }
    }

    /// Counts a call, and returns its fault, if it fails.
    pub(crate) fn next(&mut self, action: Action) -> Option<Fault> {
        let is_counted = match self.plan.counted {
            Some(counted) => counted == action,
            None => true,
        };
        if !is_counted {
            return None;
        }
        self.calls = self.calls.saturating_add(1);
        if self.calls == self.plan.fail_at {
            Some(self.plan.fault)
        } else {
            None
        }
    }

    /// The most bytes of the next read, after this many bytes.
    pub(crate) fn most(&self, given: usize) -> usize {
        if given == 0 {
            self.plan.first_read
        } else {
            self.plan.later_reads
        }
    }

    /// How many of these bytes a write takes: none if no room is left.
    pub(crate) fn taken(&mut self, bytes: usize) -> usize
        ensures { result ≤ bytes }
    {
        let count = bytes.min(self.plan.piece.max(1)).min(self.room);
        self.room = self.room.saturating_sub(count);
        count
    }
}
