//! What is known of the error counts of nodes.

ghost use Rattle.std.specs.Prelude.{◌≡◌, ◌⊎◌};
ghost use Rattle.can_confinement.specs.KnownCounts.{Knows, known_of};
ghost use Rattle.can_confinement.specs.Counters.{counts_of};
ghost use Rattle.can_confinement.specs.declared.counters.Counters.{Counters as CountersValue};

use crate::counters::Counters;

/// What is known of the error counts of nodes (Bosch CAN Specification 2.0, part B, 8 FAULT CONFINEMENT), the least
/// first.
#[derive(Clone, Copy, Debug, PartialEq, Eq)]
pub enum KnownCounts {
    /// Nothing.
    Any,
    /// Both are 0.
    Zero,
}

impl KnownCounts {
    /// What is known of these counters, as much as there is to be known: that both counts are 0 where they are (Bosch
    /// CAN Specification 2.0, part B, 8 FAULT CONFINEMENT).
    pub fn of(counters: Counters) -> KnownCounts
        ensures known { Knows result counters }
        ensures most { result ≡ known_of (counts_of counters) }
    {
        if counters.tec() == 0 && counters.rec() == 0 {
            return KnownCounts::Zero;
        }
        KnownCounts::Any
    }

    /// What is known of nodes of which some have counts of which this is known and some such of which the other is.
    pub fn and(self, other: KnownCounts) -> KnownCounts
        ensures this { (counters : CountersValue) → Knows self counters → Knows result counters }
        ensures other { (counters : CountersValue) → Knows other counters → Knows result counters }
        ensures most { result ≡ self ⊎ result ≡ other }
    {
        match self {
            KnownCounts::Any => KnownCounts::Any,
            KnownCounts::Zero => other,
        }
    }
}
