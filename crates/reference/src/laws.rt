//! States laws of answers that hold for every query and every input.
ghost use Rattle.std.specs.Prelude.{◌≡◌, ◌≤◌, ◌<◌, ℕ, Bool, List, ◌++◌, map};
ghost use Rattle.values.specs.Row.{Row};
ghost use Rattle.values.specs.Tables.{SameTables};
ghost use Rattle.values.specs.Arrivals.{Longer, AllCameAlike};
ghost use Rattle.values.specs.Enough.{WindowsShowTheSame};
ghost use Rattle.values.specs.Window.{Element, Window, numbered};
ghost use Rattle.values.specs.Answers.{Resolved, answers, shown_at};

/// Says that answers only grow: those of a shorter run are a prefix of those of a longer one.
pub fn answers_only_grow()
    ensures { (q : Resolved) (start : ℕ) (until : ℕ) (later : ℕ) (inputs : List (List Element))
        → start ≤ until → until ≤ later
        → (rest : List (ℕ × Row))
        × (answers q start later inputs ≡ answers q start until inputs ++ rest) }
{}

/// States the law of two worlds: inputs whose windows show the same bags at every instant have the
/// same answers.
pub fn equal_window_bags_have_equal_answers()
    ensures { (q : Resolved) (start : ℕ) (until : ℕ) (inputs : List (List Element))
        (others : List (List Element))
        → ((t : ℕ) → start ≤ t → t < until
        → SameTables (shown_at start q.windows t inputs) (shown_at start q.windows t others))
        → answers q start until inputs ≡ answers q start until others }
{}

/// Says that elements which come later, at instants that are still open, change no answer of a
/// closed instant.
pub fn later_elements_change_no_closed_answer()
    ensures { (q : Resolved) (start : ℕ) (until : ℕ) (inputs : List (List Element))
        (longer : List (List Element))
        → Longer until inputs longer → answers q start until inputs ≡ answers q start until longer }
{}

/// Says that the order of arrival matters only to windows of last rows, and only within an instant.
/// Two inputs with the same elements at each window have the same answers. At a window of last
/// rows, the elements of each instant must also be in the same order.
pub fn order_of_arrival_matters_to_last_rows_within_an_instant_alone()
    ensures { (q : Resolved) (start : ℕ) (until : ℕ) (inputs : List (List (ℕ × Row)))
        (others : List (List (ℕ × Row)))
        → AllCameAlike q.windows inputs others
        → answers q start until (map (numbered 0) inputs)
        ≡ answers q start until (map (numbered 0) others) }
{}

/// Says that a window shows the same rows from an instant on, whatever comes later, if enough of
/// its input is kept. Enough is all that it then still shows, and all that is later than the
/// instant before.
pub fn windows_show_the_same()
    ensures { (start : ℕ) (w : Window) (next : ℕ) (input : List Element) (kept : Element → Bool)
        → WindowsShowTheSame start w next input kept }
{}
