//! Says which instants a window shows, when it moves, and which instants it still needs.
ghost use Rattle.std.specs.Prelude.{◌≡◌, ℕ, ◌<◌, ◌≤◌, ◌+◌, ◌-◌, ◌*◌, ◌/◌, ◌==◌, false, min};
ghost use Rattle.std.specs.Prelude.{◌&&◌, nat_le};
ghost use Rattle.values.specs.Moving as moving;
ghost use Rattle.values.specs.Reach.{reaches};
ghost use Rattle.values.specs.Moving.{has};
ghost use Rattle.values.specs.declared.reach.Reach.TheVariants.{Steps as AtSteps};

use crate::step::Step;

/// Says which instants a window shows, and when it moves. Neither the first nor the last of them
/// ever falls as time goes on.
#[derive(Clone, Copy, Debug)]
pub enum Reach {
    /// Shows all instants so far, and never moves: `[Range Unbounded]`.
    All,
    /// Shows the current instant and as many before it as the number says: `[Range 9]`, and `[Now]`
    /// where that is 0. It moves at each tick.
    Last(u64),
    /// Shows what `Last` of the number shows at an earlier instant: the greatest multiple of the
    /// step that is at most this instant. It shows no instant where that multiple is not above the
    /// query's base. It moves at the multiples: `[Range 9 Slide 5]`.
    Steps(u64, Step),
}

/// Holds the instants whose rows a window still needs: all from one on, and some before that.
#[derive(Clone, Copy, Debug)]
pub struct NeededInstants {
    /// Holds the instant from which on all are needed.
    pub since: u64,
    /// Holds the first of the earlier instants that are needed.
    pub low: u64,
    /// Holds the instant after the last of the earlier ones. None is needed if it is at most `low`.
    pub high: u64,
}

impl Reach {
    /// Returns whether the window shows at the instant `at` what came at the instant `came`. `from`
    /// is the first instant above the query's base.
    pub fn shows(&self, from: u64, at: u64, came: u64) -> bool
        ensures { result ≡ reaches from self.now at came }
    {
        match self {
            Reach::All => came <= at,
            Reach::Last(span) => at.saturating_sub(*span) <= came && came <= at,
            Reach::Steps(span, step) => {
                let last = last_multiple(*step, at);
                from <= last && last.saturating_sub(*span) <= came && came <= last
            }
        }
    }

    /// Returns whether the window moves at the tick of an instant.
    pub fn moves(&self, at: u64) -> bool
        ensures { result ≡ moving.moves self.now at }
    {
        match self {
            Reach::All => false,
            Reach::Last(_) => true,
            Reach::Steps(_, step) => last_multiple(*step, at) == at,
        }
    }

    /// Returns the first instant that the window shows once it has moved at the tick of an instant.
    pub fn oldest(&self, at: u64) -> u64
        ensures { result ≡ moving.oldest self.now at }
    {
        match self {
            Reach::All => 0,
            Reach::Last(span) => at.saturating_sub(*span),
            Reach::Steps(span, _) => at.saturating_sub(*span),
        }
    }

    /// Returns whether rows are shown as soon as they come.
    pub fn shows_at_once(&self) -> bool
        ensures { result ≡ moving.at_once self.now }
    {
        match self {
            Reach::All => true,
            Reach::Last(_) => true,
            Reach::Steps(_, _) => false,
        }
    }

    /// Returns an instant below which, from `start` on, the window does not move.
    pub fn stays_until(&self, start: u64) -> u64
        ensures { (t : ℕ) → start ≤ t → t < result → moving.moves self.now t ≡ false }
    {
        match self {
            Reach::All => u64::MAX,
            Reach::Last(_) => start,
            Reach::Steps(_, step) => next_multiple(step.get(), start),
        }
    }

    /// Returns an instant before whose tick no row of the instant `first` or later is past.
    pub fn keeps_until(&self, first: u64) -> u64
        ensures { (t : ℕ) → t < result → moving.oldest self.now t ≤ first }
    {
        match self {
            Reach::All => u64::MAX,
            Reach::Last(span) => first.saturating_add(*span).saturating_add(1),
            Reach::Steps(span, _) => first.saturating_add(*span).saturating_add(1),
        }
    }

    /// Returns which instants the window still needs. Its input starts at the instant `first`, and
    /// `next` is the instant after the query's mark. It needs all from `next` on, and those that it
    /// shows at the mark or later when nothing more comes.
    pub fn needs(&self, first: u64, next: u64) -> NeededInstants
        ensures { (i : ℕ) → has result i ≡ (nat_le first i && moving.needs first self.now next i) }
    {
        match self {
            Reach::All => NeededInstants {
                since: first,
                low: 0,
                high: 0,
            },
            Reach::Last(span) => NeededInstants {
                since: first.max(next.saturating_sub(1).saturating_sub(*span)),
                low: 0,
                high: 0,
            },
            Reach::Steps(span, step) => steps_need(*span, *step, first, next),
        }
    }
}

/// Returns which instants a window needs that moves only at multiples of its step. It needs what it
/// shows at the multiple up to the mark, and what it will show at the next one. The next one shows
/// the most of all later ones. If the step is longer than the span, there is a gap between the two.
fn steps_need(span: u64, step: Step, first: u64, next: u64) -> NeededInstants
    ensures { (i : ℕ) → has result i
        ≡ (nat_le first i && moving.needs first (AtSteps span step) next i) }
{
    let multiple = last_multiple(step, next.saturating_sub(1));
    let least = next.min(least_at_next(multiple, span, step.get()));
    let since = first.max(least);
    if multiple < first {
        return NeededInstants {
            since,
            low: 0,
            high: 0,
        };
    }
    NeededInstants {
        since,
        low: first.max(multiple.saturating_sub(span)),
        high: multiple + 1,
    }
}

/// Returns the greatest multiple of the step that is not above the instant.
fn last_multiple(step: Step, at: u64) -> u64
    ensures value { result ≡ at / step * step }
    ensures most { result ≤ at }
{
    let step = step.get();
    at / step * step
}

/// Returns an instant below which, from `start` on, no multiple of the step is.
fn next_multiple(step: u64, start: u64) -> u64
    requires { 0 < step }
    ensures { (t : ℕ) → start ≤ t → t < result → (t / step * step == t) ≡ false }
{
    let last = start / step * step;
    if last == start {
        return start;
    }
    last.saturating_add(step)
}

/// Returns the least instant that a window shows at the multiple after this one. Returns the
/// greatest number if the instant is above that.
fn least_at_next(multiple: u64, span: u64, step: u64) -> u64
    ensures { result ≡ min (multiple + step - span) 18446744073709551615 }
{
    if span <= step {
        multiple.saturating_add(step - span)
    } else {
        multiple.saturating_sub(span - step)
    }
}
