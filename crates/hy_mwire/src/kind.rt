//! The kinds of messages, and the byte that names each.

ghost use Rattle.std.specs.Prelude.{◌≡◌};
ghost use Rattle.hy_mwire.specs.Kind.{ask_byte, say_byte, kind_byte, kind_of};

/// A kind of message, as the first byte of a frame names it.
#[derive(Clone, Copy, Debug)]
pub(crate) enum MessageKind {
    Join,
    Joined,
    Full,
    Ask(AskKind),
    Say(SayKind),
}

/// What a client asks for.
#[derive(Clone, Copy, Debug)]
pub(crate) enum AskKind {
    Read,
    Update,
    Watch,
    Olds,
    Forget,
}

/// What the service answers.
#[derive(Clone, Copy, Debug)]
pub(crate) enum SayKind {
    Has,
    Applied,
    Kept,
    Fired,
    OldList,
    Forgot,
}

impl MessageKind {
    /// The kind that the byte names.
    pub(crate) fn of(byte: u8) -> Option<MessageKind>
        ensures { result ≡ kind_of byte }
    {
        match byte {
            0x01 => Some(MessageKind::Join),
            0x02 => Some(MessageKind::Ask(AskKind::Read)),
            0x03 => Some(MessageKind::Ask(AskKind::Update)),
            0x04 => Some(MessageKind::Ask(AskKind::Watch)),
            0x05 => Some(MessageKind::Ask(AskKind::Olds)),
            0x06 => Some(MessageKind::Ask(AskKind::Forget)),
            0x81 => Some(MessageKind::Joined),
            0x82 => Some(MessageKind::Say(SayKind::Has)),
            0x83 => Some(MessageKind::Say(SayKind::Applied)),
            0x84 => Some(MessageKind::Say(SayKind::Kept)),
            0x85 => Some(MessageKind::Say(SayKind::Fired)),
            0x86 => Some(MessageKind::Say(SayKind::OldList)),
            0x87 => Some(MessageKind::Say(SayKind::Forgot)),
            0x88 => Some(MessageKind::Full),
            _ => None,
        }
    }

    /// The byte that names the kind.
    pub(crate) fn byte(self) -> u8
        ensures { result ≡ kind_byte self }
    {
        match self {
            MessageKind::Join => 0x01,
            MessageKind::Joined => 0x81,
            MessageKind::Full => 0x88,
            MessageKind::Ask(kind) => kind.byte(),
            MessageKind::Say(kind) => kind.byte(),
        }
    }
}

impl AskKind {
    fn byte(self) -> u8
        ensures { result ≡ ask_byte self }
    {
        match self {
            AskKind::Read => 0x02,
            AskKind::Update => 0x03,
            AskKind::Watch => 0x04,
            AskKind::Olds => 0x05,
            AskKind::Forget => 0x06,
        }
    }
}

impl SayKind {
    fn byte(self) -> u8
        ensures { result ≡ say_byte self }
    {
        match self {
            SayKind::Has => 0x82,
            SayKind::Applied => 0x83,
            SayKind::Kept => 0x84,
            SayKind::Fired => 0x85,
            SayKind::OldList => 0x86,
            SayKind::Forgot => 0x87,
        }
    }
}
