//! Writes how far queries and streams are.
ghost use Rattle.std.specs.Prelude.{◌++◌, decimal, map};
ghost use Rattle.std.specs.Fmt.{signed_decimal};
ghost use Rattle.names.specs.Names.{names_of};
ghost use Rattle.reference.specs.StatusViews.{query_status_in, status_in, stream_status_in};
ghost use Rattle.wire.specs.Paged.{Writes};
ghost use Rattle.wire.specs.Printed.{after_commas, broken_text, name_text, query_status_text};
ghost use Rattle.wire.specs.Printed.{status_text, stream_status_text, with_commas};

use crate::device::Sink;
use crate::page::Page;
use reference::{Name, QueryStatus, Status, StreamStatus};

/// Adds a name between quotation marks. A name has no byte that a text of JSON has to escape.
#[tactic(auto, using(crate::proofs::Printing::writes_both), unfolding(crate::specs::Printed::name_text))]
fn add_name<K: Sink>(sink: &mut K, page: &mut Page, name: &[u8])
    ensures { Writes (K.taken sink.old) (K.failures sink.old) page.old
        (K.taken sink.new) (K.failures sink.new) page.new (name_text name.now) }
{
    page.add(sink, b"\"");
    page.add(sink, name);
    page.add(sink, b"\"");
}

/// Adds a key and a count.
#[tactic(auto, using(crate::proofs::Printing::writes_both))]
fn add_count<K: Sink>(sink: &mut K, page: &mut Page, key: &[u8], count: u64)
    ensures { Writes (K.taken sink.old) (K.failures sink.old) page.old
        (K.taken sink.new) (K.failures sink.new) page.new (key.now ++ decimal count) }
{
    page.add(sink, key);
    page.add_digits(sink, count);
}

/// Adds a key and an instant.
#[tactic(auto, using(crate::proofs::Printing::writes_both))]
fn add_instant<K: Sink>(sink: &mut K, page: &mut Page, key: &[u8], at: i64)
    ensures { Writes (K.taken sink.old) (K.failures sink.old) page.old
        (K.taken sink.new) (K.failures sink.new) page.new (key.now ++ signed_decimal at) }
{
    page.add(sink, key);
    page.add_number(sink, at);
}

/// Adds the key that only a broken query has.
fn add_broken<K: Sink>(sink: &mut K, page: &mut Page, is_broken: bool)
    ensures { Writes (K.taken sink.old) (K.failures sink.old) page.old
        (K.taken sink.new) (K.failures sink.new) page.new (broken_text is_broken) }
{
    if is_broken {
        page.add(sink, b",\"broken\":true");
    }
}

#[tactic(auto, using(crate::proofs::Printing::writes_both), unfolding(crate::specs::Printed::query_status_text))]
fn add_query<K: Sink>(sink: &mut K, page: &mut Page, query: &QueryStatus)
    ensures { Writes (K.taken sink.old) (K.failures sink.old) page.old
        (K.taken sink.new) (K.failures sink.new) page.new
        (query_status_text (query_status_in query.now)) }
{
    add_instant(sink, page, b"{\"base\":", query.base);
    add_broken(sink, page, query.is_broken);
    page.add(sink, b",\"name\":");
    add_name(sink, page, query.name.as_str().as_bytes());
    add_count(sink, page, b",\"taken\":", query.taken);
    add_instant(sink, page, b",\"upto\":", query.upto);
    add_count(sink, page, b",\"waiting\":", query.waiting);
    page.add(sink, b"}");
}

#[tactic(auto, using(crate::proofs::Printing::writes_both))]
fn add_more_queries<K: Sink>(sink: &mut K, page: &mut Page, queries: &[QueryStatus])
    ensures { Writes (K.taken sink.old) (K.failures sink.old) page.old
        (K.taken sink.new) (K.failures sink.new) page.new
        (after_commas query_status_text (map query_status_in queries.now)) }
{
    for query in queries {
        page.add(sink, b",");
        add_query(sink, page, query);
    }
}

#[tactic(auto, using(crate::proofs::Printing::writes_both))]
fn add_queries<K: Sink>(sink: &mut K, page: &mut Page, queries: &[QueryStatus])
    ensures { Writes (K.taken sink.old) (K.failures sink.old) page.old
        (K.taken sink.new) (K.failures sink.new) page.new
        (with_commas query_status_text (map query_status_in queries.now)) }
{
    if let Some((query, more)) = queries.split_first() {
        add_query(sink, page, query);
        add_more_queries(sink, page, more);
    }
}

#[tactic(auto, using(crate::proofs::Printing::writes_both))]
fn add_more_columns<K: Sink>(sink: &mut K, page: &mut Page, columns: &[Name])
    ensures { Writes (K.taken sink.old) (K.failures sink.old) page.old
        (K.taken sink.new) (K.failures sink.new) page.new
        (after_commas name_text (names_of columns.now)) }
{
    for column in columns {
        page.add(sink, b",");
        add_name(sink, page, column.as_bytes());
    }
}

#[tactic(auto, using(crate::proofs::Printing::writes_both))]
fn add_columns<K: Sink>(sink: &mut K, page: &mut Page, columns: &[Name])
    ensures { Writes (K.taken sink.old) (K.failures sink.old) page.old
        (K.taken sink.new) (K.failures sink.new) page.new
        (with_commas name_text (names_of columns.now)) }
{
    if let Some((column, more)) = columns.split_first() {
        add_name(sink, page, column.as_bytes());
        add_more_columns(sink, page, more);
    }
}

#[tactic(auto, using(crate::proofs::Printing::writes_both), unfolding(crate::specs::Printed::stream_status_text))]
fn add_stream<K: Sink>(sink: &mut K, page: &mut Page, stream: &StreamStatus)
    ensures { Writes (K.taken sink.old) (K.failures sink.old) page.old
        (K.taken sink.new) (K.failures sink.new) page.new
        (stream_status_text (stream_status_in stream.now)) }
{
    add_instant(sink, page, b"{\"closed\":", stream.closed);
    page.add(sink, b",\"columns\":[");
    add_columns(sink, page, stream.columns.as_slice());
    page.add(sink, b"],\"name\":");
    add_name(sink, page, stream.name.as_bytes());
    add_count(sink, page, b",\"rows\":", stream.rows);
    page.add(sink, b"}");
}

#[tactic(auto, using(crate::proofs::Printing::writes_both))]
fn add_more_streams<K: Sink>(sink: &mut K, page: &mut Page, streams: &[StreamStatus])
    ensures { Writes (K.taken sink.old) (K.failures sink.old) page.old
        (K.taken sink.new) (K.failures sink.new) page.new
        (after_commas stream_status_text (map stream_status_in streams.now)) }
{
    for stream in streams {
        page.add(sink, b",");
        add_stream(sink, page, stream);
    }
}

#[tactic(auto, using(crate::proofs::Printing::writes_both))]
fn add_streams<K: Sink>(sink: &mut K, page: &mut Page, streams: &[StreamStatus])
    ensures { Writes (K.taken sink.old) (K.failures sink.old) page.old
        (K.taken sink.new) (K.failures sink.new) page.new
        (with_commas stream_status_text (map stream_status_in streams.now)) }
{
    if let Some((stream, more)) = streams.split_first() {
        add_stream(sink, page, stream);
        add_more_streams(sink, page, more);
    }
}

/// Adds the line of a status to a page.
#[tactic(auto, using(crate::proofs::Printing::writes_both), unfolding(crate::specs::Printed::status_text))]
pub(crate) fn add_status<K: Sink>(sink: &mut K, page: &mut Page, status: &Status)
    ensures { Writes (K.taken sink.old) (K.failures sink.old) page.old
        (K.taken sink.new) (K.failures sink.new) page.new (status_text (status_in status.now)) }
{
    page.add(sink, b"{\"ok\":true,\"queries\":[");
    add_queries(sink, page, status.queries.as_slice());
    page.add(sink, b"],\"streams\":[");
    add_streams(sink, page, status.streams.as_slice());
    page.add(sink, b"]}\n");
}
