//! Compares what entered and left, in whatever order the rows came.
ghost use Rattle.std.specs.Prelude.{◌≡◌, ◌+◌, ◌==◌, IsTrue};
ghost use Rattle.std.specs.List.{list_all};
ghost use Rattle.values.specs.Row.{row_cmp};
ghost use Rattle.values.specs.Bag.{copies};
ghost use Rattle.row_bags.specs.Compared.{are_balanced, is_balanced};
ghost use Rattle.row_bags.specs.Piles.{pile_in};

use crate::difference::stands_at;
use crate::pile::Pile;
use values::Value;

#[tactic(auto, using(crate::proofs::ComparedLemmas::alike_on))]
/// Returns whether the piles have the same rows in the same order.
pub(crate) fn are_alike(rows: &Pile, others: &Pile) -> bool
    ensures { IsTrue result → (pile_in rows.now ≡ pile_in others.now) }
{
    if rows.len() != others.len() {
        return false;
    }
    for place in 0..rows.len() {
        if !stands_at(rows.values(place), others, place) {
            return false;
        }
    }
    true
}

/// Returns whether the first two piles together have each row as often as the last two.
pub(crate) fn are_even(a: &Pile, b: &Pile, c: &Pile, d: &Pile) -> bool
    ensures { result
        ≡ are_balanced (pile_in a.now) (pile_in b.now) (pile_in c.now) (pile_in d.now) }
{
    all_even(a, a, b, c, d)
        && all_even(b, a, b, c, d)
        && all_even(c, a, b, c, d)
        && all_even(d, a, b, c, d)
}

/// Returns whether `are_even` holds of the rows of a pile.
fn all_even(rows: &Pile, a: &Pile, b: &Pile, c: &Pile, d: &Pile) -> bool
    ensures { result
        ≡ list_all (is_balanced (pile_in a.now) (pile_in b.now) (pile_in c.now) (pile_in d.now))
        (pile_in rows.now) }
{
    for place in 0..rows.len() {
        let values = rows.values(place);
        let one = count_in(values, a) as u128 + count_in(values, b) as u128;
        let other = count_in(values, c) as u128 + count_in(values, d) as u128;
        if one != other {
            return false;
        }
    }
    true
}

#[tactic(auto, using(crate::proofs::ComparedLemmas::counts, crate::proofs::ComparedLemmas::passes))]
/// Returns how often the pile has the row.
fn count_in(values: &[Value], rows: &Pile) -> usize
    ensures { result ≡ copies row_cmp values.now (pile_in rows.now) }
{
    let mut count = 0;
    for place in 0..rows.len() {
        if stands_at(values, rows, place) {
            count += 1;
        }
    }
    count
}
