//! The limits of the store and of its texts.

ghost use Rattle.std.specs.Prelude.{◌≡◌};

/// The most faulty clouds that a store can be set up to bear.
pub const MAX_F: u8 = 3;

/// The most parts that a value is cut into.
pub const MAX_K: u8 = 4;

/// The most clouds of a store: twice its faults and its parts.
pub const MAX_N: u8 = 10;

/// The most clouds that a set of clouds can name: one for each of its bits.
pub const MAX_CLOUDS: u8 = 16;

/// The most bytes of a value.
pub const MAX_VALUE: u32 = 1_048_576;

/// The most bytes of a key.
pub const MAX_KEY: usize = 64;

/// The most bytes of a record's spelling.
pub const MAX_RECORD: usize = 338;

/// The most sessions of one metadata service, and so of clients of a schedule.
pub const MAX_SESSIONS: u32 = 4_096;

/// The most bytes of a text that a command reads.
pub const MAX_INPUT: u64 = 16_777_216;

/// The most event lines of a schedule.
pub const MAX_EVENTS: u32 = 16_384;

/// The most events that a seed makes.
pub const MAX_MADE: u32 = 10_000;

/// The most bytes of a value in a schedule or a report.
pub const MAX_TEXT_VALUE: usize = 4_096;

/// The number of the last line that a fault can name; it stands for each later line too.
pub const MAX_LINE: u32 = 4_294_967_295;

/// The last sequence number that a timestamp has.
pub const MAX_SN: u32 = 4_294_967_294;

/// The first sequence number that no timestamp has.
pub const SN_END: u32 = 4_294_967_295;

/// The last number of a client or of an operation, and the largest count that is told.
pub const MAX_COUNT: u32 = 4_294_967_295;

/// The limits have these numbers: a clause that cites a limit by its name speaks of no other.
pub fn limits_have_these_numbers()
    ensures store { (MAX_F ≡ 3) × (MAX_K ≡ 4) × (MAX_N ≡ 10) × (MAX_CLOUDS ≡ 16) }
    ensures bytes { (MAX_VALUE ≡ 1048576) × (MAX_KEY ≡ 64) × (MAX_RECORD ≡ 338) }
    ensures numbers { (MAX_SESSIONS ≡ 4096) × (MAX_SN ≡ 4294967294)
        × (SN_END ≡ 4294967295) × (MAX_COUNT ≡ 4294967295) }
    ensures texts { (MAX_INPUT ≡ 16777216) × (MAX_EVENTS ≡ 16384) × (MAX_MADE ≡ 10000)
        × (MAX_TEXT_VALUE ≡ 4096) × (MAX_LINE ≡ 4294967295) }
{}
