//! States what holds for every turn of a window, by functions that do nothing. Each has one law.
ghost use Rattle.std.specs.Prelude.{◌≡◌, ◌≤◌, ◌++◌, ℕ, List};
ghost use Rattle.values.specs.Window.{Element};
ghost use Rattle.op_queue.specs.declared.item.Item.TheVariants.{Rows, Tick};
ghost use Rattle.windows.specs.Laws.{Each, IsRising, PassesTicks, Stands, TakesRows, TakesTick};
ghost use Rattle.windows.specs.Laws.{coming};
ghost use Rattle.windows.specs.Windows.{IsNext, Stays, WindowState};

/// States the law of rows of the instant t.
pub fn window_takes_rows()
    ensures { (from : ℕ) (s new : WindowState) (t : ℕ) (held es : List Element)
        → Stands from t s held → Each (λ e. e.instant ≡ t) es → IsRising (held ++ es)
        → IsNext s (Rows t (coming es)) new → TakesRows from t s new held es }
{}

/// States the law of the tick of the instant t.
pub fn window_takes_ticks()
    ensures { (from : ℕ) (s new : WindowState) (t : ℕ) (held : List Element)
        → Stands from t s held → IsNext s (Tick t) new → TakesTick from t s new held }
{}

/// States the law of ticks at which nothing changes, from the instant n to below b.
pub fn window_passes_ticks()
    ensures { (from : ℕ) (s : WindowState) (n b : ℕ) (held : List Element)
        → n ≤ b → Stands from n s held → Stays n b s → PassesTicks from n b s held }
{}
