#![tactic(auto)]

ghost use Rattle.std.specs.Prelude.{◌≡◌, ℕ, ◌+◌, ◌≤◌, true, Some, None, MatchResult};
ghost use Rattle.text.specs.Writing.{bytes_of};
ghost use Rattle.kind.specs.Meaning.{Meaning};

use text::Text;

/// The number is no latency of the kind: refusal 1.
#[derive(Clone, Copy, Debug, PartialEq, Eq)]
pub struct NoLatency;

/// A kind of latency: what links are measured in. Its totals are sums of latencies; a total within reach r is one
/// of at most r latencies, and sums are kept right up to a reach of 16,777,216.
pub trait Kind {
    type Latency: Copy;

    type Total: Copy;

    /// how many words of a file make one latency
    const WORDS: usize;

    ghost meaning: { Meaning Self.Latency Self.Total };

    fn latency(number: i32) -> Result<Self::Latency, NoLatency>
        ensures { MatchResult result (λ l. meaning.reads number ≡ Some (meaning.latency l)) (λ _. meaning.reads number ≡ None) };

    fn zero() -> Self::Total
        ensures { (meaning.total result ≡ meaning.quantities.zero) × meaning.within 0 result };

    /// A latency as a total.
    fn of(l: &Self::Latency) -> Self::Total
        ensures { (meaning.total result ≡ meaning.latency l.now) × meaning.within 1 result };

    fn sum(a: &Self::Total, b: &Self::Total) -> Self::Total
        ensures { (i j : ℕ) → meaning.within i a.now → meaning.within j b.now → i + j ≤ 16777216 → (meaning.total result ≡ meaning.quantities.plus (meaning.total a.now) (meaning.total b.now)) × meaning.within (i + j) result };

    fn negated(a: &Self::Total) -> Self::Total
        ensures { (i : ℕ) → meaning.within i a.now → i ≤ 16777216 → (meaning.total result ≡ meaning.quantities.minus (meaning.total a.now)) × meaning.within i result };

    /// Whether two totals mean the same quantity.
    fn same(a: &Self::Total, b: &Self::Total) -> bool
        ensures yes { meaning.within 16777216 a.now → meaning.within 16777216 b.now → result ≡ true → meaning.total a.now ≡ meaning.total b.now }
        ensures no { meaning.within 16777216 a.now → meaning.within 16777216 b.now → meaning.total a.now ≡ meaning.total b.now → result ≡ true };

    fn is_below(a: &Self::Total) -> bool
        ensures { meaning.within 16777216 a.now → result ≡ meaning.below (meaning.total a.now) };

    fn is_ordered() -> bool
        ensures { result ≡ meaning.ordered };

    /// The bytes that a total is printed as.
    fn text(t: &Self::Total) -> Text
        ensures { meaning.within 16777216 t.now → bytes_of result ≡ meaning.text (meaning.total t.now) };
}
