//! The limits of the words of the command line, and the number of arrivals where none is given.

/// The last port.
pub const MAX_PORT: u16 = 65_535;

/// The last port of a first cloud.
pub const MAX_FIRST_PORT: u16 = 65_520;

/// The last seed.
pub const MAX_SEED: u64 = 18_446_744_073_709_551_615;

/// How many arrivals a server takes.
pub const SERVER_ARRIVALS: u32 = 1_000_000;

/// How many arrivals a put, a get or a delete takes.
pub const CLIENT_ARRIVALS: u32 = 2_000;

/// How many arrivals a collection takes, which may await 2,560 answers.
pub const COLLECT_ARRIVALS: u32 = 20_000;
