//! Phases in a text: each has a word.

ghost use Rattle.std.specs.Prelude.{◌≡◌};
ghost use Rattle.hy_text.specs.Phase.{phase_of, phase_word};

use crate::table::{Named, read_named};
use hy_base::Cause;
use hy_record::Phase;

/// All phases.
const PHASES: [Phase; 9] = [
    Phase::Read,
    Phase::Store,
    Phase::Update,
    Phase::Fetch,
    Phase::Watch,
    Phase::Reread,
    Phase::Olds,
    Phase::Drop,
    Phase::Forget,
];

impl Named for Phase {
    ghost word_of = { phase_word };

    fn word(self) -> &'static [u8] {
        match self {
            Phase::Read => b"read",
            Phase::Store => b"store",
            Phase::Update => b"update",
            Phase::Fetch => b"fetch",
            Phase::Watch => b"watch",
            Phase::Reread => b"reread",
            Phase::Olds => b"olds",
            Phase::Drop => b"drop",
            Phase::Forget => b"forget",
        }
    }
}

/// The phase whose word this is.
pub fn read_phase(word: &[u8]) -> Result<Phase, Cause>
    ensures { result ≡ phase_of word.now }
{
    read_named(&PHASES, word)
}
