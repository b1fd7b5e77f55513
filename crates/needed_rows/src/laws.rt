//! States what holds of the needs of queries: functions that do nothing, each with one law.
ghost use Rattle.std.specs.Prelude.{◌≡◌, ℕ, List, Option, Some, length, slice_get};
ghost use Rattle.reference.specs.Machine.{Registered, Stream};
ghost use Rattle.stream_store.specs.Closing.{closed_of};
ghost use Rattle.needed_rows.specs.Columns.{AreColumns, IsRegular, StandFor};
ghost use Rattle.needed_rows.specs.declared.reader.ClosedRows.{ClosedRows};
ghost use Rattle.needed_rows.specs.Queries.{AreCaughtUp, ReadersSay, readers_over};

/// Says that the readers of a stream show what running queries need of it. Of the closed elements
/// it is what some reader needs, judged by the closed elements only. Of the open elements it is all
/// that are in the input of a reader.
pub fn readers_say_what_is_needed()
    ensures { (streams : List Stream) (queries : List Registered) (marks : List (Option ℕ)) (n : ℕ)
        (s : Stream) → slice_get streams n ≡ Some s
        → AreCaughtUp s.first_open (readers_over n queries marks)
        → ReadersSay streams queries marks n s }
{}

/// Says that the columns of what a stream has closed are in order, and are its closed elements.
pub fn columns_stand_for_what_is_closed()
    ensures { (s : Stream) (rows : ClosedRows) → IsRegular s
        → AreColumns (length s.columns) (closed_of s).elements rows → StandFor s rows }
{}
