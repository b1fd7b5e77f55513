//! Keeps what a history has of an accepted command.
ghost use Rattle.std.specs.Prelude.{◌≡◌, ◌↔◌, IsTrue};
ghost use Rattle.std.specs.Arc.{arc_value};

use crate::command::Command;
use crate::reply::CommandReply;
use std::marker::Model;
use std::ops::Deref;
use std::sync::Arc;

/// Holds an accepted command, with its seat and its reply.
///
/// The command has several owners, so an append's rows are kept once for the history and all its
/// receipts.
#[derive(Drop)]
pub struct Entry {
    /// Holds the number of the seat that called.
    seat: u64,
    /// Says what it asked for.
    command: Arc<Command>,
    /// Holds the reply that it got.
    reply: CommandReply,
}

impl Model for Entry {
    ghost use Rattle.std.specs.Arc.{arc_value};
    ghost use Rattle.histories.specs.Histories as histories;

    ghost Value = { histories.Entry };

    ghost view = { λ e. record {
      seat = e.seat;
      command = arc_value e.command;
      reply = e.reply;
    } };
}

impl Entry {
    /// Returns an entry of a seat.
    pub fn new(seat: u64, command: Arc<Command>, reply: CommandReply) -> Entry
        ensures { result
            ≡ record { seat = seat; command = arc_value command; reply = reply } }
    {
        Entry {
            seat,
            command,
            reply,
        }
    }

    /// Returns the number of the seat that called.
    pub fn seat(&self) -> u64
        ensures { result ≡ self.now.seat }
    {
        self.seat
    }

    /// Returns what it asked for.
    pub fn command(&self) -> &Command
        ensures { result.now ≡ self.now.command }
    {
        self.command.deref()
    }

    /// Returns the reply that it got.
    pub fn reply(&self) -> &CommandReply
        ensures { result.now ≡ self.now.reply }
    {
        &self.reply
    }

    /// Returns whether the entries are equal by value. Takes no memory.
    pub fn is_same(&self, other: &Entry) -> bool
        ensures { IsTrue result ↔ (self.now ≡ other.now) }
    {
        if self.seat != other.seat {
            return false;
        }
        if !self.reply.is_same(&other.reply) {
            return false;
        }
        self.command.deref().is_same(other.command.deref())
    }
}
