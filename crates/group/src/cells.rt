//! What a state keeps of each group: its count of rows, a tally for each item, and the row shown
//! last.

ghost use Rattle.std.specs.Prelude.{◌≡◌, ◌+◌, ◌^◌, ◌<◌, ◌≤◌, length, map};
ghost use Rattle.std.specs.Prelude.{IfOk, OnErr, OnOk, IsSome, pos, Some, None};
ghost use Rattle.std.specs.Prelude.{cond, true, false, ◌++◌, ◌+ℤ◌, ◌-ℤ◌, ◌*◌, ◌/◌};
ghost use Rattle.std.specs.Prelude.{◌==◌, fold, get_or};
ghost use Rattle.std.specs.BTreeMap.{is_at};
ghost use Rattle.std.specs.BTreeMap as tree;
ghost use Rattle.std.specs.Map.{set_value, values_of};
ghost use Rattle.std.specs.List.{All, list_any};
ghost use Rattle.values.specs.Row.{value_cmp};
ghost use Rattle.values.specs.Ranges.{IsAnswerValue};
ghost use Rattle.lane_kernels.specs.Lanes.{IsWithin};
ghost use Rattle.group.specs.Cells.{count_of, one_more, one_less, values_by, number_of, keeps};
ghost use Rattle.group.specs.Cells.{signed_by, tally_zero, tally_by, tallies_after};
ghost use Rattle.group.specs.Cells.{cell_zero, cell_after, showing, each, figure, figures};
ghost use Rattle.group.specs.Cells.{sum_figure, least, greatest, clamped_or, number_figure};
ghost use Rattle.group.specs.Cells.{value_figure, keeping, TallyRoom, CellRoom, ReadsInRange};
ghost use Rattle.group.specs.Cells.{partly, tally_after};
ghost use Rattle.column.specs.Bits.{bits, word_count, place as place_of};
ghost use Rattle.column.specs.Columns.{IsStreamValue};
ghost use Rattle.group.specs.Batches.{rows_counted, leaving, fields, tally_values, tally_sums};
ghost use Rattle.group.specs.Batches.{tally_rows, numbers_read, AllInRange, row_in};
ghost use Rattle.std.specs.Option.{is_some, option_map};
ghost use Rattle.values.specs.Row.{same_row};
ghost use Rattle.values.specs.declared.TheConstants.{MAX_COLUMNS};
ghost use Rattle.group.specs.Cells.{all_tallies, held, reads, shown_figure, keeps_each};
ghost use Rattle.group.specs.Cells.{aggregate_figure};
ghost use Rattle.group.specs.Turns.{same_shown, signed_row, swap_of};
ghost use Rattle.group.specs.Groups.{no_columns};
ghost use Rattle.std.specs.Prelude.{◌||◌, IfSome, IsTrue};
ghost use Rattle.std.specs.Ordering.{int_cmp, is_lt};
ghost use Rattle.op_queue.specs.Flat.{with_signed};
ghost use Rattle.group.specs.Runs.{put_out, ShowsKey};
ghost use Rattle.group.specs.Plans.{plan_for, plan_of};
ghost use Rattle.group.specs.Quiet.{IsQuietCell};

use crate::rows::{enters, field_at, value_in};
use crate::shape::GroupBy;
use crate::shown_row::ShownRow;
use column::{Batch, Column};
use lane_kernels::{count_set, count_signed, sum_signed};
use op_queue::SignedRows;
use std::alloc::{AllocError, Global};
use std::collections::BTreeMap;
use std::marker::Model;
use values::{Aggregate, ListItem, Row, SourceColumn, Value};

/// Returns the number that an item reads in a row of a batch; null if it reads none.
fn number_at(item: ListItem, batch: &Batch, place: usize) -> Value
    requires { place < length batch.now }
    ensures { result ≡ number_of item (row_in batch.now place).1 }
{
    match item {
        ListItem::Key(_) => Value::null(),
        ListItem::CountAll => Value::null(),
        ListItem::Of(_, column) => field_at(batch, place, column),
    }
}

/// Returns whether an item reads numbers at all.
fn reads(item: ListItem) -> bool
    ensures { result ≡ reads item }
{
    match item {
        ListItem::Key(_) => false,
        ListItem::CountAll => false,
        ListItem::Of(_, _) => true,
    }
}

/// Returns whether any item reads numbers.
fn reads_any(items: &[ListItem]) -> bool
    ensures { result ≡ list_any reads items.now }
{
    items.iter().any(|item| reads(*item))
}

/// Returns whether an aggregate keeps each number. Min and Max do, since the least or greatest may
/// leave.
fn keeps_each(aggregate: Aggregate) -> bool
    ensures { result ≡ keeps_each aggregate }
{
    match aggregate {
        Aggregate::Count => false,
        Aggregate::Sum => false,
        Aggregate::Min => true,
        Aggregate::Max => true,
    }
}

/// Returns whether an item keeps each number that it reads.
fn keeps(item: ListItem) -> bool
    ensures { result ≡ keeps item }
{
    match item {
        ListItem::Key(_) => false,
        ListItem::CountAll => false,
        ListItem::Of(aggregate, _) => keeps_each(aggregate),
    }
}

/// Returns whether any item keeps each number that it reads.
pub(crate) fn keeps_any(items: &[ListItem]) -> bool
    ensures { result ≡ list_any keeps items.now }
{
    items.iter().any(|item| keeps(*item))
}

/// Adds one to the count of a value.
///
/// # Errors
/// `AllocError` when out of memory; then nothing has changed.
fn add_value(values: &mut BTreeMap<Value, u64>, value: Value) -> Result<(), AllocError>
    requires room { count_of value values.old.entries ≤ 2 ^ 62 + 1024 }
    requires some { All (λ m. 0 < m) (values_of values.old.entries) }
    ensures ok { OnOk result (values.new.entries ≡ one_more value values.old.entries) }
    ensures back { OnOk result (one_less value values.new.entries ≡ values.old.entries) }
    ensures err { OnErr result (values.new.entries ≡ values.old.entries) }
{
    let count = values.get(&value).copied().unwrap_or(0);
    values.insert(value, count + 1)?;
    Ok(())
}

/// Sets the count of a value that the map has.
fn set_count(values: &mut BTreeMap<Value, u64>, value: Value, count: u64)
    requires { IsSome (tree.get value_cmp values.old value) }
    ensures { values.new.entries ≡ set_value (is_at (value_cmp value)) values.old.entries count }
{
    if let Some(slot) = values.get_mut(&value) {
        *slot = count;
    }
}

/// Takes one from the count of a value.
fn remove_value(values: &mut BTreeMap<Value, u64>, value: Value)
    ensures { values.new.entries ≡ one_less value values.old.entries }
{
    let count = values.get(&value).copied().unwrap_or(0);
    if count > 1 {
        set_count(values, value, count - 1);
        return;
    }
    values.remove(&value);
}

/// Lets a value enter or leave if `keeps` is set, else does nothing. It takes memory only for a
/// value that enters.
///
/// # Errors
/// `AllocError` when out of memory; then nothing has changed.
fn keep_value(
    values: &mut BTreeMap<Value, u64>,
    keeps: bool,
    enters: bool,
    value: Value,
) -> Result<(), AllocError>
    requires room { All (λ m. m ≤ 2 ^ 62 + 1024) (values_of values.old.entries) }
    requires some { All (λ m. 0 < m) (values_of values.old.entries) }
    ensures ok { OnOk result (values.new.entries
        ≡ cond keeps (values_by enters value values.old.entries) values.old.entries) }
    ensures back { OnOk result (IsTrue enters → IsTrue keeps
        → one_less value values.new.entries ≡ values.old.entries) }
    ensures err { OnErr result (values.new.entries ≡ values.old.entries) }
    ensures refused { OnErr result (IsTrue enters × IsTrue keeps) }
{
    if !keeps {
        return Ok(());
    }
    if enters {
        add_value(values, value)?;
        return Ok(());
    }
    remove_value(values, value);
    Ok(())
}

/// Returns the count with one more if `enters` is set, else with one less.
fn counted(count: i64, enters: bool) -> i64
    requires { IsWithin (2 ^ 62 + 1025) count }
    ensures { result ≡ count +ℤ signed_by enters (pos 1) }
{
    if enters { count + 1 } else { count - 1 }
}

/// Returns the sum with the number added if it enters, else with the number taken away.
fn summed(total: i128, enters: bool, number: i64) -> i128
    requires { IsWithin ((2 ^ 62 + 1025) * 2 ^ 63) total }
    ensures { result ≡ total +ℤ signed_by enters number }
{
    if enters {
        total + number as i128
    } else {
        total - number as i128
    }
}

/// Returns the count after a batch.
fn count_added(count: i64, more: i64) -> i64
    requires count { IsWithin (2 ^ 62) count }
    requires more { IsWithin 1024 more }
    ensures { result ≡ count +ℤ more }
{
    count + more
}

/// Returns the sum after a batch.
fn sum_added(total: i128, more: i64) -> i128
    requires { IsWithin (2 ^ 62 * 2 ^ 63) total }
    ensures { result ≡ total +ℤ more }
{
    total + more as i128
}

/// Keeps what an item needs of the numbers that it reads in a group's rows: how many, and their
/// exact sum. For Min and Max it also keeps how often each number is there.
#[derive(Drop)]
pub(crate) struct Tally {
    /// Counts the numbers that entered, less those that left. Nulls do not count.
    numbers: i64,
    /// Holds the exact sum of these numbers.
    total: i128,
    /// Holds for each number how often it is there, for Min and Max. It is empty for other items.
    values: BTreeMap<Value, u64>,
}

impl Model for Tally {
    ghost use Rattle.std.specs.Prelude.{◌<◌};
    ghost use Rattle.std.specs.Map.{values_of};
    ghost use Rattle.std.specs.List.{All};
    ghost use Rattle.group.specs.Cells.{TallyState as State};

    ghost Value = { State };

    ghost view = { λ t.
        record { numbers = t.numbers; total = t.total; values = t.values.entries } };

    ghost invariant = { λ t. All (λ m. 0 < m) (values_of t.values.entries) };
}

impl Tally {
    /// Makes the tally of no rows.
    fn new(alloc: Global) -> Tally
        ensures { result ≡ tally_zero }
    {
        Tally {
            numbers: 0,
            total: 0,
            values: BTreeMap::new(alloc),
        }
    }

    /// Counts and sums a number that enters or leaves.
    fn count(&mut self, enters: bool, number: i64)
        requires numbers { IsWithin (2 ^ 62 + 1025) self.old.numbers }
        requires total { IsWithin ((2 ^ 62 + 1025) * 2 ^ 63) self.old.total }
        ensures { self.new ≡ tally_by enters false (Some number) self.old }
    {
        self.numbers = counted(self.numbers, enters);
        self.total = summed(self.total, enters, number);
    }

    /// Lets a value enter or leave the kept ones if `keeps` is set.
    ///
    /// # Errors
    /// `AllocError` when out of memory; then nothing has changed.
    fn keep(&mut self, keeps: bool, enters: bool, value: Value) -> Result<(), AllocError>
        requires { All (λ m. m ≤ 2 ^ 62 + 1024) (values_of self.old.values) }
        ensures ok { OnOk result (self.new
            ≡ keeping self.old
            (cond keeps (values_by enters value self.old.values) self.old.values)) }
        ensures back { OnOk result (IsTrue enters → IsTrue keeps
            → one_less value (one_more value self.old.values) ≡ self.old.values) }
        ensures err { OnErr result (self.new ≡ self.old) }
        ensures refused { OnErr result (IsTrue enters × IsTrue keeps) }
    {
        keep_value(&mut self.values, keeps, enters, value)?;
        Ok(())
    }

    /// Lets a row with this value enter or leave. A null changes nothing. It takes memory only to
    /// keep a value that enters.
    ///
    /// # Errors
    /// `AllocError` when out of memory; then nothing has changed.
    fn take(&mut self, enters: bool, keeps: bool, value: Value) -> Result<(), AllocError>
        requires { TallyRoom (2 ^ 62 + 1024) self.old }
        ensures tally { OnOk result (self.new ≡ tally_by enters keeps value self.old) }
        ensures range { OnOk result (IsAnswerValue value) }
        ensures back { OnOk result (IsTrue enters
            → tally_by false keeps value (tally_by true keeps value self.old) ≡ self.old) }
        ensures err { OnErr result (self.new ≡ self.old) }
        ensures refused { OnErr result (IsTrue enters × IsTrue keeps) }
    {
        match value.number() {
            None => Ok(()),
            Some(number) => {
                self.keep(keeps, enters, value)?;
                self.count(enters, number);
                Ok(())
            }
        }
    }

    /// Takes a value out of the kept ones if `keeps` is set. Takes no memory.
    fn drop_kept(&mut self, keeps: bool, value: Value)
        ensures { self.new ≡ keeping self.old
            (cond keeps (one_less value self.old.values) self.old.values) }
    {
        if keeps {
            remove_value(&mut self.values, value);
        }
    }

    /// Lets a row with this value leave. Takes no memory.
    fn take_back(&mut self, keeps: bool, value: Value)
        requires { TallyRoom (2 ^ 62 + 1025) self.old }
        ensures { self.new ≡ tally_by false keeps value self.old }
    {
        if let Some(number) = value.number() {
            self.drop_kept(keeps, value);
            self.count(false, number);
        }
    }

    /// Lets the values of a column enter, or leave if their bit in `minus` is set. It keeps none of
    /// them: it counts and sums them by lanes.
    fn take_sums(&mut self, lane: &Column, minus: &[u64])
        requires small { All IsStreamValue lane.now }
        requires words { length minus.now ≡ word_count (length lane.now) }
        requires room { TallyRoom (2 ^ 62) self.old }
        ensures { self.new ≡ tally_sums (bits (length lane.now) minus.now) lane.now self.old }
    {
        let _ = lane.len(); // for the proof
        self.numbers = count_added(self.numbers, count_signed(lane, minus));
        self.total = sum_added(self.total, sum_signed(lane, minus));
    }

    /// Lets the values of a column enter, or leave if their bit in `minus` is set, one after the
    /// other. It takes memory only to keep values.
    fn take_values(&mut self, lane: &Column, keeps: bool, minus: &[u64]) -> Result<(), AllocError>
        requires words { length minus.now ≡ word_count (length lane.now) }
        requires room { TallyRoom (2 ^ 62) self.old }
        ensures tally { OnOk result (self.new
            ≡ tally_values keeps (bits (length lane.now) minus.now) lane.now self.old) }
        ensures range { OnOk result (All IsAnswerValue lane.now) }
        ensures refused { OnErr result (IsTrue keeps) }
    {
        for place in 0..lane.len() {
            self.take(!is_set(minus, place), keeps, lane.get(place))?;
        }
        Ok(())
    }

    /// Lets the values of a column enter, or leave if their bit in `minus` is set.
    fn take_lane(&mut self, lane: &Column, keeps: bool, minus: &[u64]) -> Result<(), AllocError>
        requires words { length minus.now ≡ word_count (length lane.now) }
        requires room { TallyRoom (2 ^ 62) self.old }
        ensures tally { OnOk result (self.new
            ≡ tally_values keeps (bits (length lane.now) minus.now) lane.now self.old) }
        ensures range { OnOk result (All IsAnswerValue lane.now) }
        ensures refused { OnErr result (IsTrue keeps) }
    {
        if keeps {
            self.take_values(lane, true, minus)?;
            return Ok(());
        }
        if lane.is_in_stream_range() {
            self.take_sums(lane, minus);
            return Ok(());
        }
        self.take_values(lane, false, minus)?;
        Ok(())
    }

    /// Takes in the values that the rows of a batch have in a column, each with its row's sign.
    fn take_fields(
        &mut self,
        column: SourceColumn,
        keeps: bool,
        batch: &Batch,
    ) -> Result<(), AllocError>
        requires { TallyRoom (2 ^ 62) self.old }
        ensures tally { OnOk result (self.new
            ≡ tally_values keeps (leaving batch.now) (fields column batch.now) self.old) }
        ensures range { OnOk result (All IsAnswerValue (fields column batch.now)) }
        ensures refused { OnErr result (IsTrue keeps) }
    {
        let _ = batch.len(); // for the proof
        if column.source != 0 {
            return Ok(());
        }
        if column.column >= batch.width() {
            return Ok(());
        }
        self.take_lane(batch.column(column.column), keeps, batch.leaving_words())?;
        Ok(())
    }

    /// Takes in the rows of a batch, which enter and leave.
    fn take_batch(&mut self, item: ListItem, batch: &Batch) -> Result<(), AllocError>
        requires { TallyRoom (2 ^ 62) self.old }
        ensures tally { OnOk result (self.new ≡ tally_rows batch.now item self.old) }
        ensures range { OnOk result (All IsAnswerValue (numbers_read item batch.now)) }
        ensures refused { OnErr result (keeps item ≡ true) }
    {
        match item {
            ListItem::Key(_) => Ok(()),
            ListItem::CountAll => Ok(()),
            ListItem::Of(aggregate, column) => {
                self.take_fields(column, keeps_each(aggregate), batch)
            }
        }
    }

    /// Returns the exact figure of an aggregate of the numbers.
    fn aggregate_figure(&self, aggregate: Aggregate) -> Figure
        ensures { result ≡ aggregate_figure aggregate self.now }
    {
        match aggregate {
            Aggregate::Count => number_figure(self.numbers as i128),
            Aggregate::Sum => sum_figure(self.numbers, self.total),
            Aggregate::Min => value_figure(least(&self.values)),
            Aggregate::Max => value_figure(greatest(&self.values)),
        }
    }

    /// Returns the exact figure of an item of the list, for a group with this key and `rows` rows.
    fn figure(&self, item: ListItem, key: &[Value], rows: i64) -> Figure
        ensures { result ≡ figure key.now rows item self.now }
    {
        match item {
            ListItem::Key(column) => value_figure(value_in(key, column)),
            ListItem::CountAll => number_figure(rows as i128),
            ListItem::Of(aggregate, _) => self.aggregate_figure(aggregate),
        }
    }
}

/// Holds the exact figure of an item of the list: a count or a sum, or else a value from a row.
#[derive(Clone, Copy, PartialEq, Eq, Drop)]
pub(crate) struct Figure {
    /// Holds the count or the exact sum; `None` if the figure is a value.
    pub(crate) number: Option<i128>,
    /// Holds the value; null if the figure is a number.
    pub(crate) value: Value,
}

impl Figure {
    /// Returns the value that shows the figure. A number is shown as the nearest one of the answer
    /// range.
    pub(crate) fn shown(self) -> Value
        ensures { result ≡ clamped_or self.value self.number }
    {
        match self.number {
            Some(number) => Value::clamped(number),
            None => self.value,
        }
    }
}

fn number_figure(number: i128) -> Figure
    ensures { result ≡ number_figure number }
{
    Figure {
        number: Some(number),
        value: Value::null(),
    }
}

fn value_figure(value: Value) -> Figure
    ensures { result ≡ value_figure value }
{
    Figure {
        number: None,
        value,
    }
}

/// Returns the figure of a sum: null if there are no numbers.
fn sum_figure(numbers: i64, total: i128) -> Figure
    ensures { result ≡ sum_figure numbers total }
{
    if numbers == 0 {
        value_figure(Value::null())
    } else {
        number_figure(total)
    }
}

fn least(values: &BTreeMap<Value, u64>) -> Value
    ensures { result ≡ least values.now.entries }
{
    match values.first_key_value() {
        Some((value, _)) => *value,
        None => Value::null(),
    }
}

fn greatest(values: &BTreeMap<Value, u64>) -> Value
    ensures { result ≡ greatest values.now.entries }
{
    match values.last_key_value() {
        Some((value, _)) => *value,
        None => Value::null(),
    }
}

/// Keeps what is known of a group: its count of rows, a tally for each item of the list, and the
/// row shown last.
#[derive(Drop)]
pub(crate) struct Cell {
    /// Counts the rows that entered, less those that left.
    rows: i64,
    /// Holds the tallies of the list's items, in order. The last items may have none yet.
    tallies: Vec<Tally>,
    /// Counts the last items that have no tally, because they took no number.
    more: usize,
    /// Holds the row that was shown last, or no row if none was shown yet.
    shown: ShownRow,
}

impl Model for Cell {
    ghost use Rattle.group.specs.Cells.{CellState as State, all_tallies};

    ghost Value = { State };

    ghost view = { λ c.
        record {
          rows = c.rows;
          tallies = all_tallies c.more c.tallies.items;
          shown = c.shown;
        } };
}

/// Lets a row of a batch enter or leave each tally.
///
/// # Errors
/// `AllocError` when out of memory; then nothing has changed.
fn take_tallies(
    tallies: &mut Vec<Tally>,
    items: &[ListItem],
    batch: &Batch,
    place: usize,
) -> Result<(), AllocError>
    requires within { place < length batch.now }
    requires aligned { length tallies.old.items ≡ length items.now }
    requires room { All (TallyRoom (2 ^ 62 + 1024)) tallies.old.items }
    ensures tallies { OnOk result (tallies.new.items
        ≡ tallies_after (row_in batch.now place) items.now tallies.old.items) }
    ensures range { OnOk result (ReadsInRange items.now (row_in batch.now place)) }
    ensures err { OnErr result (tallies.new.items ≡ tallies.old.items) }
{
    let enters = enters(batch, place);
    for i in 0..items.len() {
        let item = items[i];
        let taken = tallies[i].take(enters, keeps(item), number_at(item, batch, place));
        if let Err(error) = taken {
            give_back(tallies, items, batch, place, i);
            return Err(error);
        }
    }
    Ok(())
}

/// Lets a row of a batch leave each of the first `count` tallies. Takes no memory.
fn give_back(
    tallies: &mut Vec<Tally>,
    items: &[ListItem],
    batch: &Batch,
    place: usize,
    count: usize,
)
    requires within { place < length batch.now }
    requires few { count ≤ length items.now }
    requires aligned { length tallies.old.items ≡ length items.now }
    requires room { All (TallyRoom (2 ^ 62 + 1025)) tallies.old.items }
    ensures { tallies.new.items ≡ partly (tally_after (false, (row_in batch.now place).1))
        count items.now tallies.old.items }
{
    for i in 0..count {
        let item = items[i];
        tallies[i].take_back(keeps(item), number_at(item, batch, place));
    }
}

/// Appends `more` tallies of no numbers.
///
/// # Errors
/// `AllocError` when out of memory; then nothing has changed.
fn add_tallies(alloc: Global, tallies: &mut Vec<Tally>, more: usize) -> Result<(), AllocError>
    ensures ok { OnOk result (tallies.new.items ≡ all_tallies more tallies.old.items) }
    ensures err { OnErr result (tallies.new.items ≡ tallies.old.items) }
{
    tallies.reserve_exact(more)?;
    for _ in 0..more {
        tallies.push_reserved(Tally::new(alloc));
    }
    Ok(())
}

/// Returns whether the bit at a place is set.
fn is_set(words: &[u64], place: usize) -> bool
    requires { place / 64 < length words.now }
    ensures { result ≡ (place_of words.now place == 1) }
{
    words[place / 64] >> (place % 64) & 1 == 1
}

/// Returns `all` less twice `gone`: how many stay, less how many go.
fn less_twice(all: usize, gone: u32) -> i64
    requires { all ≤ 1024 }
    ensures { result ≡ pos all -ℤ pos (2 * gone) }
{
    all as i64 - 2 * gone as i64
}

/// Returns how many rows of a batch enter, less how many leave.
fn rows_counted(batch: &Batch) -> i64
    ensures value { result ≡ rows_counted batch.now }
    ensures few { IsWithin 1024 result }
{
    less_twice(batch.len(), count_set(batch.leaving_words()))
}

/// Lets the rows of a batch enter and leave each tally. It takes memory only if an item keeps its
/// numbers.
fn take_batches(
    tallies: &mut Vec<Tally>,
    items: &[ListItem],
    batch: &Batch,
) -> Result<(), AllocError>
    requires aligned { length tallies.old.items ≡ length items.now }
    requires room { All (TallyRoom (2 ^ 62)) tallies.old.items }
    ensures tallies { OnOk result (tallies.new.items
        ≡ each (tally_rows batch.now) items.now tallies.old.items) }
    ensures range { OnOk result (AllInRange items.now batch.now) }
    ensures refused { OnErr result (list_any keeps items.now ≡ true) }
{
    for place in 0..items.len() {
        tallies[place].take_batch(items[place], batch)?;
    }
    Ok(())
}

/// Returns the exact figure of an aggregate of no numbers.
fn empty_aggregate(aggregate: Aggregate) -> Figure
    ensures { result ≡ aggregate_figure aggregate tally_zero }
{
    match aggregate {
        Aggregate::Count => number_figure(0),
        Aggregate::Sum => value_figure(Value::null()),
        Aggregate::Min => value_figure(Value::null()),
        Aggregate::Max => value_figure(Value::null()),
    }
}

/// Returns the exact figure of an item that took no number.
fn empty_figure(item: ListItem, key: &[Value], rows: i64) -> Figure
    ensures { result ≡ figure key.now rows item tally_zero }
{
    match item {
        ListItem::Key(column) => value_figure(value_in(key, column)),
        ListItem::CountAll => number_figure(rows as i128),
        ListItem::Of(aggregate, _) => empty_aggregate(aggregate),
    }
}

/// Returns the exact figure of the item at a place. An item without a tally took no number.
fn figure_at(tallies: &[Tally], place: usize, item: ListItem, key: &[Value], rows: i64) -> Figure
    ensures { result ≡ figure key.now rows item (get_or tallies.now place tally_zero) }
{
    if place < tallies.len() {
        return tallies[place].figure(item, key, rows);
    }
    empty_figure(item, key, rows)
}

/// Writes the exact figures of a group, one for each item of the list.
fn write_figures(
    list: &mut Vec<Figure>,
    tallies: &[Tally],
    more: usize,
    items: &[ListItem],
    key: &[Value],
    rows: i64,
) -> Result<(), AllocError>
    ensures figures { OnOk result (list.new.items
        ≡ figures key.now rows items.now (all_tallies more tallies.now)) }
    ensures few { OnOk result (length list.new.items ≤ length items.now) }
{
    let count = items.len().min(tallies.len().saturating_add(more));
    list.clear();
    for place in 0..count {
        list.push(figure_at(tallies, place, items[place], key, rows))?;
    }
    Ok(())
}

/// Writes the row that shows the figures of a group. If the room is too small, it grows to exactly
/// what the row needs.
fn write_row(
    row: &mut Vec<Value>,
    tallies: &[Tally],
    more: usize,
    items: &[ListItem],
    key: &[Value],
    rows: i64,
) -> Result<(), AllocError>
    ensures { OnOk result (row.new.items
        ≡ map shown_figure (figures key.now rows items.now (all_tallies more tallies.now))) }
{
    let count = items.len().min(tallies.len().saturating_add(more));
    row.clear();
    row.reserve_exact(count)?;
    for place in 0..count {
        row.push_reserved(figure_at(tallies, place, items[place], key, rows).shown());
    }
    Ok(())
}

/// Returns whether the row with these values is the one that was shown.
fn is_shown(shown: &ShownRow, row: &[Value]) -> bool
    ensures { result ≡ same_shown shown.now (Some (held row.now)) }
{
    match shown.values() {
        Some(values) => has_values(values, row),
        None => false,
    }
}

/// Returns whether the values are the same.
pub(crate) fn has_values(values: &[Value], row: &[Value]) -> bool
    ensures { result ≡ same_row values.now row.now }
{
    values == row
}

/// Emits the row that was shown as one that leaves, if there is one.
fn put_shown(shown: &ShownRow, rows: &mut SignedRows) -> Result<(), AllocError>
    ensures { OnOk result (rows.new
        ≡ with_signed rows.old (signed_row false rows.old.width shown.now)) }
{
    match shown.values() {
        Some(values) => rows.push_fitted(false, values),
        None => Ok(()),
    }
}

impl Cell {
    /// Makes a group of no rows. Takes no memory.
    pub(crate) fn new(alloc: Global, count: usize) -> Cell
        ensures { result ≡ cell_zero count }
    {
        Cell {
            rows: 0,
            tallies: Vec::new(alloc),
            more: count,
            shown: ShownRow::none(),
        }
    }

    /// Lets a row of a batch, which is of this group, enter or leave. It takes memory only for a
    /// number that an item reads.
    ///
    /// # Errors
    /// `AllocError` when out of memory; then nothing has changed.
    #[inline(always)]
    pub(crate) fn take(
        &mut self,
        alloc: Global,
        items: &[ListItem],
        batch: &Batch,
        place: usize,
    ) -> Result<(), AllocError>
        requires within { place < length batch.now }
        requires room { CellRoom (2 ^ 62 + 1024) items.now self.old }
        ensures cell { OnOk result (self.new
            ≡ cell_after items.now self.old (row_in batch.now place)) }
        ensures range { OnOk result (ReadsInRange items.now (row_in batch.now place)) }
        ensures err { OnErr result (self.new ≡ self.old) }
    {
        if reads_any(items) {
            return self.take_read(alloc, items, batch, place);
        }
        self.rows = counted(self.rows, enters(batch, place));
        Ok(())
    }

    /// Does what `take` does, for a list whose items read numbers.
    #[inline(never)]
    fn take_read(
        &mut self,
        alloc: Global,
        items: &[ListItem],
        batch: &Batch,
        place: usize,
    ) -> Result<(), AllocError>
        requires within { place < length batch.now }
        requires room { CellRoom (2 ^ 62 + 1024) items.now self.old }
        ensures cell { OnOk result (self.new
            ≡ cell_after items.now self.old (row_in batch.now place)) }
        ensures range { OnOk result (ReadsInRange items.now (row_in batch.now place)) }
        ensures err { OnErr result (self.new ≡ self.old) }
    {
        add_tallies(alloc, &mut self.tallies, self.more)?;
        self.more = 0;
        take_tallies(&mut self.tallies, items, batch, place)?;
        self.rows = counted(self.rows, enters(batch, place));
        Ok(())
    }

    /// Takes in the rows of a batch, which are all of this group.
    ///
    /// # Errors
    /// `AllocError` when out of memory; then nothing has changed, if no item keeps its numbers.
    pub(crate) fn take_batch(
        &mut self,
        alloc: Global,
        items: &[ListItem],
        batch: &Batch,
    ) -> Result<(), AllocError>
        requires { CellRoom (2 ^ 62) items.now self.old }
        ensures cell { OnOk result (self.new ≡ fold (cell_after items.now) self.old batch.now) }
        ensures range { OnOk result (AllInRange items.now batch.now) }
        ensures err { OnErr result (list_any keeps items.now ≡ false → self.new ≡ self.old) }
    {
        add_tallies(alloc, &mut self.tallies, self.more)?;
        self.more = 0;
        take_batches(&mut self.tallies, items, batch)?;
        self.rows = count_added(self.rows, rows_counted(batch));
        Ok(())
    }

    /// Sets the row that was shown last. It takes no memory if the one before had as many values.
    pub(crate) fn show(&mut self, alloc: Global, row: &Row) -> Result<(), AllocError>
        ensures { OnOk result (self.new ≡ showing self.old (Some row.now)) }
    {
        self.shown.set(alloc, row.as_slice())?;
        Ok(())
    }

    /// Writes the exact figures, one for each item of the list.
    pub(crate) fn write_figures(
        &self,
        list: &mut Vec<Figure>,
        items: &[ListItem],
        key: &[Value],
    ) -> Result<(), AllocError>
        ensures figures { OnOk result (list.new.items
            ≡ figures key.now self.now.rows items.now self.now.tallies) }
        ensures few { OnOk result (length list.new.items ≤ length items.now) }
    {
        write_figures(list, &self.tallies, self.more, items, key, self.rows)?;
        Ok(())
    }

    /// Returns the number of rows.
    pub(crate) fn rows(&self) -> i64
        ensures { result ≡ self.now.rows }
    {
        self.rows
    }

    /// Returns the row that was shown last.
    pub(crate) fn shown(&self) -> Option<&[Value]>
        ensures value { option_map (λ values. held values.now) result ≡ self.now.shown }
        ensures few { IfSome result (λ values. length values.now ≤ MAX_COLUMNS) }
    {
        self.shown.values()
    }

    /// Emits the row that was shown as one that leaves.
    fn put_none(&self, rows: &mut SignedRows) -> Result<(), AllocError>
        ensures { OnOk result (rows.new ≡ with_signed rows.old
            (swap_of rows.old.width self.now.shown None)) }
    {
        put_shown(&self.shown, rows)?;
        Ok(())
    }

    /// Emits the row that was shown as one that leaves and the other as one that enters.
    fn put_other(&self, row: &[Value], rows: &mut SignedRows) -> Result<(), AllocError>
        ensures { OnOk result (rows.new ≡ with_signed rows.old
            (signed_row false rows.old.width self.now.shown
            ++ signed_row true rows.old.width (Some (held row.now)))) }
    {
        put_shown(&self.shown, rows)?;
        rows.push_fitted(true, row)?;
        Ok(())
    }

    /// If another row was shown than this one, emits that one as leaving and this one as entering,
    /// and returns this one.
    fn plan_row(
        &self,
        alloc: Global,
        row: &[Value],
        rows: &mut SignedRows,
    ) -> Result<Option<ShownRow>, AllocError>
        requires { length row.now ≤ MAX_COLUMNS }
        ensures plan { IfOk result (λ plan.
            plan ≡ plan_for self.now.shown (Some (held row.now))) }
        ensures rows { OnOk result (rows.new ≡ with_signed rows.old
            (swap_of rows.old.width self.now.shown (Some (held row.now)))) }
    {
        if is_shown(&self.shown, row) {
            return Ok(None);
        }
        self.put_other(row, rows)?;
        let row = ShownRow::of(alloc, row)?;
        Ok(Some(row))
    }

    /// Shows this row, or none. Takes no memory.
    pub(crate) fn put_row(&mut self, row: ShownRow)
        ensures { self.new ≡ showing self.old row }
    {
        self.shown = row;
    }

    /// Returns whether the group has rows.
    fn has_rows(&self) -> bool
        ensures { result ≡ is_lt (int_cmp (pos 0) self.now.rows) }
    {
        0 < self.rows
    }

    /// Returns whether there are `count` tallies.
    fn has_tallies(&self, count: usize) -> bool
        ensures { IsTrue result → length self.now.tallies ≡ count }
    {
        let given = self.tallies.len();
        if count < given {
            return false;
        }
        self.more == count - given
    }

    /// Returns whether the row that was shown has these values.
    fn shows(&self, values: &[Value]) -> bool
        ensures { IsTrue result → self.now.shown ≡ Some (held values.now) }
    {
        is_shown(&self.shown, values)
    }

    /// Returns whether the group shows its key, has rows, and has as many tallies as the key has
    /// values. If the list is the key, as in Distinct, the key is the row that it has to show.
    #[inline(always)]
    pub(crate) fn is_quiet(&self, key: &[Value]) -> bool
        ensures { IsTrue result → IsQuietCell (held key.now) self.now }
    {
        if !self.shows(key) {
            return false;
        }
        if !self.has_rows() {
            return false;
        }
        self.has_tallies(key.len())
    }

    /// Returns whether the group shows its key, and that is the row that it has to show.
    fn shows_key(&self, group: &GroupBy, key: &[Value]) -> bool
        ensures { IsTrue result → ShowsKey group.now (held key.now) self.now }
    {
        if !self.is_quiet(key) {
            return false;
        }
        group.lists_key(key.len())
    }

    /// Returns whether the group has a row to show.
    fn has_row(&self, group: &GroupBy) -> bool
        ensures { result ≡ (no_columns group.now.by || is_lt (int_cmp (pos 0) self.now.rows)) }
    {
        group.is_whole() || 0 < self.rows
    }

    /// Emits what a tick of the group puts out: if the row to show differs from the one that was
    /// shown, that one as leaving and the other as entering. Returns the row that the group is to
    /// show then, or none; `None` if that is what it shows. `spare` lends room for the row; what it
    /// holds does not matter.
    pub(crate) fn plan(
        &self,
        alloc: Global,
        group: &GroupBy,
        key: &[Value],
        spare: &mut Vec<Value>,
        rows: &mut SignedRows,
    ) -> Result<Option<ShownRow>, AllocError>
        ensures plan { IfOk result (λ plan. plan ≡ plan_of group.now (held key.now) self.now) }
        ensures rows { OnOk result (rows.new
            ≡ put_out group.now (held key.now) self.now rows.old) }
    {
        if !self.has_row(group) {
            self.put_none(rows)?;
            return Ok(Some(ShownRow::none()));
        }
        let quiet = self.shows_key(group, key);
        if quiet {
            return Ok(None);
        }
        write_row(
            spare,
            &self.tallies,
            self.more,
            group.items(),
            key,
            self.rows,
        )?;
        self.plan_row(alloc, spare, rows)
    }
}
