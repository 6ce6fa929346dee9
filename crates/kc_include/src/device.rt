//! A device whose input files are pieces.
ghost use Rattle.std.specs.Prelude.{◌≡◌, ◌<◌, ◌≤◌, ◌-◌, ◌++◌, [], None, length, take};
ghost use Rattle.kc_include.specs.RestView.{ahead};
ghost use Rattle.kc_include.specs.Limits.{most_reads};

use crate::pieces::{Given, Piece};
use kc_io::{Device, Fault, Site};
use std::cell::Cell;

/// The maximum number of reads that return bytes.
const MOST_READS: u64 = 1 << 63;

// The unread rest of a piece: empty lines, then bytes.
#[derive(Drop)]
struct Rest<'d> {
    empty_lines: usize,
    bytes: &'d [u8],
}

// Puts the next bytes at the start of the buffer, and returns their number.
fn read_on(rest: &mut Rest<'_>, buffer: &mut [u8]) -> usize
    ensures within { result ≤ length buffer.old }
    ensures given { ahead rest.old ≡ take result buffer.new ++ ahead rest.new }
    ensures end { result ≡ 0 → 0 < length buffer.old → ahead rest.old ≡ [] }
{
    if rest.empty_lines > 0 {
        let count = rest.empty_lines.min(buffer.len());
        buffer[..count].fill(b'\n');
        rest.empty_lines -= count;
        return count;
    }
    let count = rest.bytes.len().min(buffer.len());
    buffer[..count].copy_from_slice(&rest.bytes[..count]);
    rest.bytes = &rest.bytes[count..];
    count
}

/// A device whose input files are pieces of the files that were read, in turns. Each call that opens a file opens the
/// next piece of the turn, for any name (our own). All other calls go to another device. It records nothing.
#[derive(Drop)]
pub struct PiecedDevice<'d, D> {
    inner: &'d mut D,
    turns: &'d [Vec<Piece<'d>>],
    // The current turn.
    turn: &'d Cell<usize>,
    // The turn in which a file was last opened, and its next piece.
    opened: usize,
    next: usize,
    // The unread rest of the piece.
    rest: Rest<'d>,
    // The number of reads that returned bytes.
    reads: u64,
}

impl<'d, D> PiecedDevice<'d, D> {
    /// Returns a device that uses this other device. The cell holds the number of the turn, counted from 0.
    pub fn new(
        inner: &'d mut D,
        turns: &'d [Vec<Piece<'d>>],
        turn: &'d Cell<usize>,
    ) -> PiecedDevice<'d, D> {
        PiecedDevice {
            inner,
            turns,
            turn,
            opened: 0,
            next: 0,
            rest: Rest {
                empty_lines: 0,
                bytes: &[],
            },
            reads: 0,
        }
    }

    // Returns the next piece of the turn.
    fn next_piece(&mut self) -> Option<Piece<'d>> {
        let turn = self.turn.get();
        if turn != self.opened {
            self.opened = turn;
            self.next = 0;
        }
        let piece = self.turns.get(turn)?.get(self.next).copied();
        self.next = self.next.saturating_add(1);
        piece
    }
}

impl<'d, D: Device> Device for PiecedDevice<'d, D> {
    ghost log = { λ _. None };

    ghost file = { λ s. record { to_come = None; reads_left = most_reads - s.reads } };

    fn open(&mut self, _name: &str, may_be_missing: bool) -> Result<bool, Fault> {
        self.rest = Rest {
            empty_lines: 0,
            bytes: &[],
        };
        match self.next_piece() {
            Some(piece) => match piece.given {
                Given::Lines(empty_lines, bytes) => {
                    self.rest = Rest { empty_lines, bytes };
                    Ok(true)
                }
                Given::Missing if may_be_missing => Ok(false),
                Given::Missing => Err(Fault::Refused),
                Given::Unreadable(fault) => Err(fault),
            },
            None => Err(Fault::Refused),
        }
    }

    fn read(&mut self, _name: &str, buffer: &mut [u8]) -> Result<usize, Fault> {
        if self.reads >= MOST_READS {
            return Err(Fault::Refused);
        }
        let count = read_on(&mut self.rest, buffer);
        if count > 0 {
            self.reads += 1;
        }
        Ok(count)
    }

    fn report(&mut self, parts: &[&[u8]]) -> Result<(), Fault> {
        self.inner.report(parts)
    }

    fn holds(&self, name: &str, bytes: &[u8]) -> bool {
        self.inner.holds(name, bytes)
    }

    fn create(&mut self, site: Site, name: &str) -> Result<(), Fault> {
        self.inner.create(site, name)
    }

    fn write(&mut self, site: Site, name: &str, bytes: &[u8]) -> Result<usize, Fault> {
        self.inner.write(site, name, bytes)
    }

    fn close(&mut self, site: Site, name: &str) -> Result<(), Fault> {
        self.inner.close(site, name)
    }

    fn move_there(&mut self, name: &str) -> Result<(), Fault> {
        self.inner.move_there(name)
    }

    fn clear(&mut self) {
        self.inner.clear()
    }
}
