ghost use Rattle.std.specs.Prelude.{◌≡◌, ℕ, ◌+◌, ◌≤◌};

use kind::Kind;

// The receiver's offset that leaves the link a latency of zero.
pub(crate) fn asked<K: Kind>(measured: &K::Latency, from: &K::Total) -> K::Total
    ensures { (i : ℕ) → K.Kind.meaning.within i from.now → i + 1 ≤ 16777216 → (K.Kind.meaning.quantities.plus (K.Kind.meaning.latency measured.now) (K.Kind.meaning.total result) ≡ K.Kind.meaning.total from.now) × K.Kind.meaning.within (i + 1) result }
{
    K::sum(from, &K::negated(&K::of(measured)))
}

// Whether the offsets of sender and receiver leave the link a latency below zero.
pub(crate) fn falls_short<K: Kind>(measured: &K::Latency, from: &K::Total, to: &K::Total) -> bool
    ensures { (i j : ℕ) → K.Kind.meaning.within i from.now → K.Kind.meaning.within j to.now → 1 + j + i ≤ 16777216 → result ≡ K.Kind.meaning.below (K.Kind.meaning.quantities.plus (K.Kind.meaning.quantities.plus (K.Kind.meaning.latency measured.now) (K.Kind.meaning.total to.now)) (K.Kind.meaning.quantities.minus (K.Kind.meaning.total from.now))) }
{
    let ahead = K::sum(&K::of(measured), to);
    K::is_below(&K::sum(&ahead, &K::negated(from)))
}
