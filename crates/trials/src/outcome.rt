ghost use Rattle.std.specs.Prelude.{◌≡◌, [], ◌∷◌};

use calls::Refusal;

/// A refusal, how many steps it shows, and the words that then stand at the start of a step row that held zeros.
#[derive(Clone, Copy, Debug, PartialEq, Eq)]
pub struct ShownRefusal {
    pub refusal: Refusal,
    pub steps: usize,
    // the whole row, so that a theorem tells the places left zero too
    pub words: [u32; 3],
}

/// What came of a call: it was taken, or it was refused.
pub type Outcome = Result<(), ShownRefusal>;

// A refusal by itself shows no steps.
impl From<Refusal> for ShownRefusal {
    ghost from_gives = { λ e r. r ≡ record { refusal = e; steps = 0; words = 0 ∷ 0 ∷ 0 ∷ [] } };

    fn from(refusal: Refusal) -> ShownRefusal {
        ShownRefusal {
            refusal,
            steps: 0,
            words: [0; 3],
        }
    }
}
