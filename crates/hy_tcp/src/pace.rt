//! How long a pass over the sockets that finds nothing goes on.

use std::rt::Clock;
use std::thread;
use std::time::{Duration, Instant};

/// So many microseconds without an arrival are the first Quiet behind one. A Quiet is a timeout to whoever
/// waits.
const QUIET: u32 = 4_000;

/// The longest Quiet, in microseconds. Each in a row is twice as long as the one before it, so that a peer
/// that is far is asked again some times and not dozens of times.
const LONGEST_QUIET: u32 = 64_000;

/// So many microseconds after a Quiet the next comes at a pass that finds nothing, also where arrivals
/// came meanwhile: so a peer that sends a byte now and then keeps nobody from a timeout.
const STEADY: u128 = 64_000;

/// The first rest after an arrival, in microseconds.
const SHORTEST: u32 = 20;

/// The longest rest soon after an arrival, in microseconds. Each Quiet in a row doubles it, up to the
/// time of the first Quiet.
const LONGEST: u32 = 250;

/// What a rest takes beyond its length, in microseconds.
const WAKING: u32 = 60;

/// How many sockets are looked at in vain after an arrival before the first rest: some 200 microseconds,
/// in which a peer that was answered mostly sends what it has next.
const EAGER: usize = 512;

/// The rests between passes that find nothing: each is twice as long as the one before, up to a limit.
#[derive(Clone, Copy, Debug)]
pub(crate) struct Pace {
    eager: usize,
    rest: u32,
    longest: u32,
    spent: u32,
    quiet: u32,
    since: Option<Instant>,
}

impl Pace {
    /// Before the first rest.
    pub(crate) fn new() -> Pace {
        Pace {
            eager: EAGER,
            rest: SHORTEST,
            longest: LONGEST,
            spent: 0,
            quiet: QUIET,
            since: None,
        }
    }

    /// Something came: the next Quiet is a short one again.
    pub(crate) fn came(&mut self) {
        self.quiet = QUIET;
        self.hurry();
    }

    /// Begins without a rest, and then with the shortest one again.
    pub(crate) fn hurry(&mut self) {
        self.eager = EAGER;
        self.rest = SHORTEST;
        self.longest = LONGEST;
        self.spent = 0;
    }

    /// Whether the next pass begins at once, where one looks at so many sockets.
    pub(crate) fn is_eager(&mut self, sockets: usize) -> bool {
        let eager = self.eager > sockets;
        self.eager = self.eager.saturating_sub(sockets).saturating_sub(1);
        eager
    }

    /// Whether nothing came for so long that it is quiet, or the last Quiet is so long ago. The next count
    /// begins then.
    pub(crate) fn is_over<C: Clock>(&mut self, clock: &C) -> bool {
        let over = self.spent >= self.quiet || self.is_due(clock);
        if over {
            self.spent = 0;
            self.quiet = self.quiet.saturating_mul(2).min(LONGEST_QUIET);
            self.longest = self.longest.saturating_mul(2).min(QUIET);
            self.since = Instant::now(clock).ok();
        }
        over
    }

    /// Whether the last Quiet, or the first look, is long ago.
    fn is_due<C: Clock>(&mut self, clock: &C) -> bool {
        match self.since {
            None => {
                self.since = Instant::now(clock).ok();
                false
            }
            Some(since) => match since.elapsed(clock) {
                Ok(passed) => passed.as_micros() >= STEADY,
                Err(_) => false,
            },
        }
    }

    /// Rests, and makes the next rest longer.
    pub(crate) fn rest<C: Clock>(&mut self, clock: &C) {
        thread::sleep(clock, Duration::from_micros(u64::from(self.rest)));
        let took = self.rest.saturating_add(WAKING);
        self.spent = self.spent.saturating_add(took);
        self.rest = self.rest.saturating_mul(2).min(self.longest);
    }
}
