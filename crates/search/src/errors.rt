ghost use Rattle.std.specs.Prelude.{◌≡◌};
ghost use Rattle.search.specs.declared.errors.Unknown.TheVariants.{Torn as UnknownTorn};

/// No offsets carry the links.
#[derive(Clone, Copy, Debug, PartialEq, Eq)]
pub struct Torn;

/// Why links do not tell the difference of two switches' offsets.
#[derive(Clone, Copy, Debug, PartialEq, Eq)]
pub enum Unknown {
    // no offsets carry the links
    Torn,
    // no walk leads from one to the other, so that their difference is free
    Apart,
}

impl From<Torn> for Unknown {
    ghost from_gives = { λ _ r. r ≡ UnknownTorn };

    fn from(_torn: Torn) -> Unknown {
        Unknown::Torn
    }
}

/// No offsets carry the links and the new one: so many steps are written, which lead back from its receiver to its sender.
#[derive(Clone, Copy, Debug, PartialEq, Eq)]
pub struct Contradiction {
    pub steps: usize,
}
