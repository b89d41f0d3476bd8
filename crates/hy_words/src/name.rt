//! The names of commands.

ghost use Rattle.hy_words.specs.Words.{name_word};

use hy_text::Named;

/// The name of a command.
#[derive(Clone, Copy, Debug, PartialEq, Eq)]
pub(crate) enum Name {
    Replay,
    Check,
    Keep,
    Make,
    Vectors,
    Meta,
    Cloud,
    Put,
    Get,
    Delete,
    Collect,
}

/// The names of all commands.
pub(crate) const NAMES: [Name; 11] = [
    Name::Replay,
    Name::Check,
    Name::Keep,
    Name::Make,
    Name::Vectors,
    Name::Meta,
    Name::Cloud,
    Name::Put,
    Name::Get,
    Name::Delete,
    Name::Collect,
];

impl Named for Name {
    ghost word_of = { name_word };

    fn word(self) -> &'static [u8] {
        match self {
            Name::Replay => b"replay",
            Name::Check => b"check",
            Name::Keep => b"keep",
            Name::Make => b"make",
            Name::Vectors => b"vectors",
            Name::Meta => b"meta",
            Name::Cloud => b"cloud",
            Name::Put => b"put",
            Name::Get => b"get",
            Name::Delete => b"delete",
            Name::Collect => b"collect",
        }
    }
}
