//! What is drawn of a seed: the events of a schedule, one after the other.

ghost use Rattle.std.specs.Prelude.{◌≡◌, ◌+◌, ◌<◌, ◌≤◌, IfOk, OnOk, nat_lt};
ghost use Rattle.hy_make.specs.Drawing.{action_drawn, key_drawn, say_drawn};

use hy_base::{Blob, NoMemory};
use hy_record::{Action, CloudSay, Key, Stamp};
use hy_sched::Event;
use rand_core::SeedableRng;
use rand_core::utils::NextWord;
use rand_pcg::Lcg64Xsh32;
use std::alloc::Global;

/// Random words, and how many messages it has passed: they were delivered in order, or left out.
#[derive(Drop)]
pub(crate) struct Drawer {
    random: Lcg64Xsh32,
    cursor: u32,
}

impl Drawer {
    ghost use Rattle.hy_base.specs.declared.limits.TheConstants.{MAX_COUNT};
    ghost use Rattle.hy_make.specs.Drawing.{
      any_delivery,
      draw,
      drawer_of,
      event_of_row,
      forgery,
      invocation,
      loss,
      next_delivery,
      next_event,
      passed,
      timeout,
    };

    /// The drawer of the seed, which has passed no message.
    pub(crate) fn of_seed(seed: u64) -> Drawer
        ensures { result ≡ drawer_of seed }
    {
        Drawer {
            random: Lcg64Xsh32::seed_from_u64(seed),
            cursor: 0,
        }
    }

    /// The next event, where so many messages were sent.
    #[tactic(auto, unfolding(crate::specs::Drawing::next_event))]
    pub(crate) fn next_event(&mut self, alloc: Global, sent: u64) -> Result<Event, NoMemory>
        requires { self.old.cursor < MAX_COUNT }
        ensures event { IfOk result (λ event. event ≡ (next_event sent self.old).0) }
        ensures after { OnOk result (self.new ≡ (next_event sent self.old).1) }
    {
        let row = self.draw(16);
        self.event_of_row(alloc, row, sent)
    }

    /// The event of a row of the table of events.
    #[tactic(auto, unfolding(crate::specs::Drawing::event_of_row))]
    fn event_of_row(&mut self, alloc: Global, row: u32, sent: u64) -> Result<Event, NoMemory>
        requires { self.old.cursor < MAX_COUNT }
        ensures event { IfOk result (λ event. event ≡ (event_of_row row sent self.old).0) }
        ensures after { OnOk result (self.new ≡ (event_of_row row sent self.old).1) }
    {
        match row {
            0..=2 => self.invocation(alloc),
            3..=11 => Ok(self.next_delivery(sent)),
            12 => Ok(self.any_delivery()),
            13 => Ok(self.loss(sent)),
            14 => Ok(self.timeout()),
            _ => self.forgery(alloc),
        }
    }

    /// A client is asked for an operation.
    #[tactic(auto, unfolding(crate::specs::Drawing::invocation))]
    fn invocation(&mut self, alloc: Global) -> Result<Event, NoMemory>
        ensures event { IfOk result (λ event. event ≡ (invocation self.old).0) }
        ensures after { OnOk result (self.new ≡ (invocation self.old).1) }
    {
        let client = 1 + self.draw(4);
        let key = key_drawn(self.draw(2));
        let kind = self.draw(8);
        let byte = self.draw(256);
        let action = action_drawn(alloc, kind, key, byte as u8)?;
        Ok(Event::Invoke { client, action })
    }

    /// The first message that was not passed is delivered; where each was passed, a client times out.
    #[tactic(auto, unfolding(crate::specs::Drawing::next_delivery))]
    fn next_delivery(&mut self, sent: u64) -> Event
        requires { self.old.cursor < MAX_COUNT }
        ensures event { result ≡ (next_delivery sent self.old).0 }
        ensures after { self.new ≡ (next_delivery sent self.old).1 }
    {
        let timeout = self.timeout();
        if self.pass(sent) {
            Event::Give {
                number: self.cursor,
            }
        } else {
            timeout
        }
    }

    /// Some message is delivered, if it was sent.
    #[tactic(auto, unfolding(crate::specs::Drawing::any_delivery))]
    fn any_delivery(&mut self) -> Event
        ensures event { result ≡ (any_delivery self.old).0 }
        ensures after { self.new ≡ (any_delivery self.old).1 }
    {
        let number = 1 + self.draw(65_536);
        Event::Give { number }
    }

    /// The first message that was not passed is passed without delivery, and a client times out.
    #[tactic(auto, unfolding(crate::specs::Drawing::loss))]
    fn loss(&mut self, sent: u64) -> Event
        requires { self.old.cursor < MAX_COUNT }
        ensures event { result ≡ (loss sent self.old).0 }
        ensures after { self.new ≡ (loss sent self.old).1 }
    {
        let timeout = self.timeout();
        self.pass(sent);
        timeout
    }

    /// A client times out.
    #[tactic(auto, unfolding(crate::specs::Drawing::timeout))]
    fn timeout(&mut self) -> Event
        ensures event { result ≡ (timeout self.old).0 }
        ensures after { self.new ≡ (timeout self.old).1 }
        ensures cursor { self.new.cursor ≡ self.old.cursor }
    {
        let client = 1 + self.draw(4);
        Event::Tick { client }
    }

    /// An answer of cloud 0 is forged.
    #[tactic(auto, unfolding(crate::specs::Drawing::forgery))]
    fn forgery(&mut self, alloc: Global) -> Result<Event, NoMemory>
        ensures event { IfOk result (λ event. event ≡ (forgery self.old).0) }
        ensures after { OnOk result (self.new ≡ (forgery self.old).1) }
    {
        let client = 1 + self.draw(4);
        let op = 1 + self.draw(8);
        let key = key_drawn(self.draw(2));
        let sn = 1 + self.draw(8);
        let cid = 1 + self.draw(4);
        let say = say_drawn(alloc, self.draw(4))?;
        Ok(Event::Lie {
            cloud: 0,
            client,
            op,
            key,
            stamp: small_stamp(sn, cid),
            say,
        })
    }

    /// Passes one message more, where more were sent; whether it did.
    #[tactic(auto, unfolding(crate::specs::Drawing::passed))]
    fn pass(&mut self, sent: u64) -> bool
        requires { self.old.cursor < MAX_COUNT }
        ensures passes { result ≡ nat_lt self.old.cursor sent }
        ensures after { self.new ≡ passed sent self.old }
    {
        let passes = u64::from(self.cursor) < sent;
        if passes {
            self.cursor += 1;
        }
        passes
    }

    /// A number below the limit.
    #[tactic(auto, unfolding(crate::specs::Drawing::draw))]
    fn draw(&mut self, limit: u32) -> u32
        requires { 0 < limit }
        ensures value { result ≡ (draw limit self.old).0 }
        ensures after { self.new ≡ (draw limit self.old).1 }
        ensures below { result < limit }
        ensures cursor { self.new.cursor ≡ self.old.cursor }
    {
        self.random.next_word() % limit
    }
}

/// The key of a number.
#[tactic(auto, unfolding(crate::specs::Drawing::key_drawn))]
fn key_drawn(number: u32) -> Key
    ensures { result ≡ key_drawn number }
{
    if number == 0 {
        Key::read(b"a").unwrap()
    } else {
        Key::read(b"b").unwrap()
    }
}

/// The action of a number on the key; a put stores the byte.
#[tactic(auto, unfolding(crate::specs::Drawing::action_drawn))]
fn action_drawn(alloc: Global, number: u32, key: Key, byte: u8) -> Result<Action, NoMemory>
    ensures { IfOk result (λ action. action ≡ action_drawn number key byte) }
{
    if number <= 2 {
        let value = Blob::copy_of(alloc, &[byte])?;
        Ok(Action::Put { key, value })
    } else if number <= 5 {
        Ok(Action::Get { key })
    } else if number == 6 {
        Ok(Action::Delete { key })
    } else {
        Ok(Action::Collect { key })
    }
}

/// The forged answer of a number.
#[tactic(auto, unfolding(crate::specs::Drawing::say_drawn))]
fn say_drawn(alloc: Global, number: u32) -> Result<CloudSay, NoMemory>
    ensures { IfOk result (λ say. say ≡ say_drawn number) }
{
    if number == 0 {
        Ok(CloudSay::Stored { fresh: true })
    } else if number == 1 {
        Ok(CloudSay::Missing)
    } else if number == 2 {
        Ok(CloudSay::Body(Blob::copy_of(alloc, &[0])?))
    } else {
        Ok(CloudSay::Body(Blob::copy_of(alloc, &[1])?))
    }
}

/// The timestamp of these numbers.
fn small_stamp(sn: u32, cid: u32) -> Stamp
    requires { sn ≤ 8 }
    ensures { result ≡ record { sn = sn; cid = cid } }
{
    Stamp::new(sn, cid).unwrap()
}
