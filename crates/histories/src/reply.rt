//! Keeps the reply to an accepted command.
ghost use Rattle.std.specs.Prelude.{◌≡◌, ◌↔◌, IfOk, IsTrue};
ghost use Rattle.histories.specs.Views.{reply_of};

use answer_rows::AnswerRows;
use std::alloc::AllocError;
use std::marker::Model;
use std::ops::Deref;
use std::sync::Arc;

/// Says what the reply to an accepted command is.
#[derive(Drop)]
pub enum ReplyKind {
    /// Holds the number of the stream that was declared, or of the query that was registered.
    Number(u64),
    /// Says that it was done.
    Done,
    /// Holds the answers that were taken, each with its instant. They have several owners, so they
    /// are kept once for the history and all its receipts.
    Rows(Arc<AnswerRows>),
}

/// Holds the reply to an accepted command. Contracts see it as the machine's reply.
#[derive(Drop)]
pub struct CommandReply {
    /// Holds what it says.
    kind: ReplyKind,
}

impl Model for CommandReply {
    ghost use Rattle.reference.specs.Replies as machine;
    ghost use Rattle.histories.specs.Views.{reply_of};

    ghost Value = { machine.Reply };

    ghost view = { λ r. reply_of r.kind };
}

impl CommandReply {
    /// Returns a reply of this kind.
    pub fn new(kind: ReplyKind) -> CommandReply
        ensures { result ≡ reply_of kind }
    {
        CommandReply { kind }
    }

    /// Returns what it says.
    pub fn kind(&self) -> &ReplyKind
        ensures { reply_of result.now ≡ self.now }
    {
        &self.kind
    }

    /// Gives up the reply, and returns what it says.
    pub fn into_kind(self) -> ReplyKind
        ensures { reply_of result ≡ self }
    {
        self.kind
    }

    /// Returns the same reply once more; its answers are shared. Takes no memory.
    ///
    /// # Errors
    /// `AllocError` when no more owners can be counted; nothing has changed.
    pub fn share(&self) -> Result<CommandReply, AllocError>
        ensures { IfOk result (λ reply. reply ≡ self.now) }
    {
        match &self.kind {
            ReplyKind::Number(number) => Ok(CommandReply::new(ReplyKind::Number(*number))),
            ReplyKind::Done => Ok(CommandReply::new(ReplyKind::Done)),
            ReplyKind::Rows(rows) => {
                let rows = Arc::try_clone(rows)?;
                Ok(CommandReply::new(ReplyKind::Rows(rows)))
            }
        }
    }

    /// Returns whether the replies are equal by value. Takes no memory.
    pub fn is_same(&self, other: &CommandReply) -> bool
        ensures { IsTrue result ↔ (self.now ≡ other.now) }
    {
        match (&self.kind, &other.kind) {
            (ReplyKind::Number(number), ReplyKind::Number(other)) => number == other,
            (ReplyKind::Done, ReplyKind::Done) => true,
            (ReplyKind::Rows(rows), ReplyKind::Rows(others)) => {
                rows.deref().is_same(others.deref())
            }
            _ => false,
        }
    }
}
