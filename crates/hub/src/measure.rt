//! Measures a history, to say when it is time to forget.
//!
//! The contracts of a hub do not see these numbers: they change when it forgets, and nothing else.
ghost use Rattle.std.specs.Prelude.{◌≡◌, ◌<◌, ◌≤◌, ◌+◌, ◌-◌, ◌*◌, ◌/◌, ◌^◌, ◌↔◌, ◌⊎◌, []};
ghost use Rattle.std.specs.Prelude.{IsTrue, length, max, min, slice_get};
ghost use Rattle.std.specs.List.{sum_by};
ghost use Rattle.std.specs.Option.{option_map_or};
ghost use Rattle.leases.specs.Openings.{opening_in};
ghost use Rattle.hub.specs.Measures.{counted, values_held, values_of_command, values_of_entry};
ghost use Rattle.hub.specs.Measures.{values_of_query, values_of_reply, values_of_rows};
ghost use Rattle.hub.specs.Measures.{values_of_stream};

use histories::{Command, CommandKind, CommandReply, Entry, Receipt, ReplyKind};
use leases::Opening;
use reference::NewRows;
use std::ops::Deref;
use stream_store::Stored;

/// Says how many values an entry counts as, besides its rows and answers.
const ENTRY: u64 = 16;

/// Says how many values the instant of a row counts as, and each of its columns. It takes 16 bytes
/// in the history, and about as many in the engine until the hub forgets.
const PLACE: u64 = 4;

/// Says how many values an answer counts as that waits.
const ANSWER: u64 = 4;

/// Measures a history, in values of 8 bytes.
#[derive(Drop)]
pub(crate) struct HistoryMeasure {
    /// Counts the values of the entries since the last forget.
    values: u64,
    /// Counts the values that the last forget kept.
    kept: u64,
    /// Is how many values it takes at least, after a forget that ran out of memory.
    resumes: u64,
    /// Is how many entries are enough for a forget, at most `limit`.
    enough: u64,
    /// Limits the entries of the history.
    limit: u64,
}

impl HistoryMeasure {
    /// Measures an empty history of at most `limit` entries.
    pub(crate) fn new(limit: u64) -> HistoryMeasure
        ensures nothing { (result.values ≡ 0) × (result.kept ≡ 0) × (result.resumes ≡ 0) }
        ensures enough { result.enough ≡ limit - limit / 16 }
        ensures limit { result.limit ≡ limit }
    {
        HistoryMeasure {
            values: 0,
            kept: 0,
            resumes: 0,
            enough: usual_of(limit),
            limit,
        }
    }

    /// Adds the entry that a receipt is of.
    pub(crate) fn add(&mut self, receipt: &Receipt)
        ensures { self.new ≡ record self.old {
          values = counted (self.old.values + values_of_entry receipt.now.entry);
        } }
    {
        self.values = self.values.saturating_add(values_of(receipt.entry()));
    }

    /// Returns whether it is time to forget, with a history of `entries` entries.
    pub(crate) fn is_due(&self, values: u64, entries: u64) -> bool
        ensures { IsTrue result ↔ ((self.now.enough ≤ entries)
            ⊎ (max (max values self.now.kept) self.now.resumes ≤ self.now.values)) }
    {
        if entries >= self.enough {
            return true;
        }
        self.values >= values.max(self.kept).max(self.resumes)
    }

    /// Starts again after a forget that left this opening.
    pub(crate) fn restart(&mut self, opening: &Opening)
        ensures nothing { (self.new.values ≡ 0) × (self.new.resumes ≡ 0) }
        ensures kept { self.new.kept ≡ counted (values_held (opening_in opening.now)) }
        ensures enough { self.new.enough ≡ self.old.limit - self.old.limit / 16 }
        ensures limit { self.new.limit ≡ self.old.limit }
    {
        self.values = 0;
        self.kept = kept_in(opening);
        self.resumes = 0;
        self.enough = usual_of(self.limit);
    }

    /// Puts the next forget off: the last one ran out of memory. It is due when there are one
    /// eighth more values, and for the entries after an eighth of the last sixteenth of the limit.
    /// At the limit it stays due.
    pub(crate) fn put_off(&mut self, entries: u64)
        ensures values { self.new.values ≡ self.old.values }
        ensures kept { self.new.kept ≡ self.old.kept }
        ensures resumes { self.new.resumes
            ≡ min (self.old.values + self.old.values / 8) (2 ^ 64 - 1) }
        ensures fewer { entries < self.old.enough → self.new.enough ≡ self.old.enough }
        ensures enough { self.old.enough ≤ entries → self.new.enough
            ≡ min (min (entries + max (self.old.limit / 128) 1) (2 ^ 64 - 1)) self.old.limit }
        ensures limit { self.new.limit ≡ self.old.limit }
    {
        self.resumes = self.values.saturating_add(self.values / 8);
        if entries >= self.enough {
            let more = (self.limit / 128).max(1);
            self.enough = entries.saturating_add(more).min(self.limit);
        }
    }
}

// Returns how many entries are enough for a forget, of a history with room for `limit`.
fn usual_of(limit: u64) -> u64
    ensures { result ≡ limit - limit / 16 }
{
    limit.saturating_sub(limit / 16)
}

// Counts the values of an entry: those of its rows and answers, and those that it takes itself.
fn values_of(entry: &Entry) -> u64
    ensures { result ≡ counted (values_of_entry entry.now) }
{
    let rows = rows_of(entry.command());
    let answers = answers_of(entry.reply());
    ENTRY.saturating_add(rows).saturating_add(answers)
}

// Counts the values of a command's rows.
fn rows_of(command: &Command) -> u64
    ensures { result ≡ counted (values_of_command command.now) }
{
    match command.kind() {
        CommandKind::Append { rows, .. } => count_rows(rows),
        CommandKind::Declare { .. } => 0,
        CommandKind::Register { .. } => 0,
        CommandKind::Heartbeat { .. } => 0,
        CommandKind::Take { .. } => 0,
        CommandKind::Drop { .. } => 0,
    }
}

// Counts the values of rows that were appended.
fn count_rows(rows: &NewRows) -> u64
    ensures { result ≡ counted (values_of_rows rows.now) }
{
    let places = (rows.values().len() as u64).saturating_add(rows.len() as u64);
    places.saturating_mul(PLACE)
}

// Counts the values of a reply's answers.
fn answers_of(reply: &CommandReply) -> u64
    ensures { result ≡ counted (values_of_reply reply.now) }
{
    match reply.kind() {
        ReplyKind::Rows(rows) => rows.deref().words() as u64,
        ReplyKind::Number(_) => 0,
        ReplyKind::Done => 0,
    }
}

// Counts the values that an opening holds: those of the rows that queries need, and those of the
// answers that wait.
fn kept_in(opening: &Opening) -> u64
    ensures { result ≡ counted (values_held (opening_in opening.now)) }
{
    let rows = rows_in(opening.streams());
    let answers = answers_in(opening);
    rows.saturating_add(answers)
}

// Counts the values of the rows that streams keep.
fn rows_in(streams: &[Stored]) -> u64
    ensures { result ≡ counted (sum_by values_of_stream streams.now) }
{
    let mut values: u64 = 0;
    for stream in streams {
        values = values.saturating_add(stream_rows(stream));
    }
    values
}

// Counts the values of the rows that a stream keeps.
fn stream_rows(stream: &Stored) -> u64
    ensures { result ≡ counted (values_of_stream stream.now) }
{
    let width = (stream.columns().len() as u64 + 1) * PLACE;
    (stream.kept() as u64).saturating_mul(width)
}

// Counts the values of the answers that wait at all queries.
fn answers_in(opening: &Opening) -> u64
    ensures { result ≡ counted (sum_by values_of_query (opening_in opening.now).queries) }
{
    let mut values: u64 = 0;
    for query in 0..opening.queries() as u64 {
        values = values.saturating_add(waiting_in(opening, query));
    }
    values
}

// Counts the values of the answers that wait at a query.
#[tactic(auto, unfolding(leases::specs::Openings::opening_in))]
fn waiting_in(opening: &Opening, query: u64) -> u64
    ensures { result ≡ min (length (option_map_or (λ q. q.earlier) (slice_get
        (opening_in opening.now).queries query) []) * ANSWER) (2 ^ 64 - 1) }
{
    match opening.waiting(query) {
        Some(answers) => (answers.len() as u64).saturating_mul(ANSWER),
        None => 0,
    }
}
