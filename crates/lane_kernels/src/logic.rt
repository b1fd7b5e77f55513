//! Computes Not, And and Or of three truths.

ghost use Rattle.std.specs.Prelude.{◌≡◌, ◌≤◌, ℕ, length};
ghost use Rattle.values.specs.Condition.{not3, and3, or3};
ghost use Rattle.lane_kernels.specs.Truth.{IsClearFrom, IsKnownTruth, truth_at};

/// Negates a truth, place by place.
///
/// All lent lists have the same number of words. Where the bits from a place on are 0 in what is
/// read, they are 0 in what is written.
pub fn not3(a_truth: &[u64], a_known: &[u64], truth: &mut [u64], known: &mut [u64])
    requires same_a { length a_known.now ≡ length a_truth.now }
    requires same_truth { length truth.old ≡ length a_truth.now }
    requires same_known { length known.old ≡ length a_truth.now }
    requires is_a { IsKnownTruth a_truth.now a_known.now }
    ensures places { (i : ℕ)
        → truth_at truth.new known.new i ≡ not3 (truth_at a_truth.now a_known.now i) }
    ensures well_formed { IsKnownTruth truth.new known.new }
    ensures past { (n : ℕ) → IsClearFrom n a_known.now → IsClearFrom n known.new }
{
    for w in 0..a_truth.len() {
        let (t, k) = (a_truth[w], a_known[w]);
        truth[w] = k & !t;
        known[w] = k;
    }
}

/// Computes whether both truths hold, place by place; its words are as for `not3`.
pub fn and3(
    a_truth: &[u64],
    a_known: &[u64],
    b_truth: &[u64],
    b_known: &[u64],
    truth: &mut [u64],
    known: &mut [u64],
)
    requires same_a { length a_known.now ≡ length a_truth.now }
    requires same_b { length b_truth.now ≡ length a_truth.now }
    requires same_b_known { length b_known.now ≡ length a_truth.now }
    requires same_truth { length truth.old ≡ length a_truth.now }
    requires same_known { length known.old ≡ length a_truth.now }
    requires is_a { IsKnownTruth a_truth.now a_known.now }
    requires is_b { IsKnownTruth b_truth.now b_known.now }
    ensures places { (i : ℕ)
        → truth_at truth.new known.new i
        ≡ and3 (truth_at a_truth.now a_known.now i) (truth_at b_truth.now b_known.now i) }
    ensures well_formed { IsKnownTruth truth.new known.new }
    ensures past { (n : ℕ) → IsClearFrom n a_known.now → IsClearFrom n b_known.now
        → IsClearFrom n known.new }
{
    for w in 0..a_truth.len() {
        let (t, k, u, l) = (a_truth[w], a_known[w], b_truth[w], b_known[w]);
        truth[w] = t & u;
        known[w] = (k & l) | (k & !t) | (l & !u);
    }
}

/// Computes whether one of two truths holds, place by place; its words are as for `not3`.
pub fn or3(
    a_truth: &[u64],
    a_known: &[u64],
    b_truth: &[u64],
    b_known: &[u64],
    truth: &mut [u64],
    known: &mut [u64],
)
    requires same_a { length a_known.now ≡ length a_truth.now }
    requires same_b { length b_truth.now ≡ length a_truth.now }
    requires same_b_known { length b_known.now ≡ length a_truth.now }
    requires same_truth { length truth.old ≡ length a_truth.now }
    requires same_known { length known.old ≡ length a_truth.now }
    requires is_a { IsKnownTruth a_truth.now a_known.now }
    requires is_b { IsKnownTruth b_truth.now b_known.now }
    ensures places { (i : ℕ)
        → truth_at truth.new known.new i
        ≡ or3 (truth_at a_truth.now a_known.now i) (truth_at b_truth.now b_known.now i) }
    ensures well_formed { IsKnownTruth truth.new known.new }
    ensures past { (n : ℕ) → IsClearFrom n a_known.now → IsClearFrom n b_known.now
        → IsClearFrom n known.new }
{
    for w in 0..a_truth.len() {
        let (t, k, u, l) = (a_truth[w], a_known[w], b_truth[w], b_known[w]);
        truth[w] = t | u;
        known[w] = (k & l) | t | u;
    }
}
