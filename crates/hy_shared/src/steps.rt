//! The steps of sessions.

ghost use Rattle.std.specs.Prelude.{◌≡◌, ◌≢◌, true, ℕ, ◌<◌, ◌≤◌, ◌*◌, ◌++◌, ◌∷◌, [], length, ◌+◌, ◌%◌, ◌^◌, max, None, Some, IsSome, IfOk, OnErr, vec_capacity};
ghost use Rattle.atomic_table.specs.Table.{Allows};
ghost use Rattle.hy_shared.specs.declared.event.Event.TheVariants.{Begin, Ask, Set, End};
ghost use Rattle.hy_shared.specs.Layout.{head_place, row_place, width};
ghost use Rattle.hy_shared.specs.Rows.{record_words, FitsLayout};
ghost use Rattle.hy_shared.specs.Recorded.{HasRecord};
ghost use Rattle.hy_shared.specs.Found.{Reads, HasWritten};
ghost use Rattle.hy_shared.specs.Moves.{writing};
ghost use Rattle.hy_shared.specs.Rule.{IsTable, is_plain};
ghost use Rattle.hy_shared.specs.Events.{event_number, pack};
ghost use Rattle.hy_shared.specs.Sessions.{SeesHistory, next_row, new_session_of};
ghost use Rattle.hy_shared.specs.Answers.{MayFinish, Finishes, MayRead, Looks, MayUpdate, Updates, OwnsRow, IsWordOf, MergesViews};

use crate::found::Found;
use crate::law::{Lesson, NewSession, Note, Told};
use crate::pass::Pass;
use crate::places::{hash_count, head_place, packed, row_place, unpacked};
use crate::root::Root;
use crate::rows::{MOST_HASHES, hash_of_words, row_len, row_word, ruled};
use crate::running::Running;
use crate::said::{Said, Seen};
use crate::shared::SharedMeta;
use crate::view::View;
use atomic_table::Seat;
use hy_base::NoMemory;
use hy_points::ActKind;
use hy_record::{Hash, Record, Reply};
use std::alloc::Global;
use std::marker::Brand;

impl SharedMeta {
    /// The session of the next client.
    pub fn split(&self, root: &mut Root) -> Pass
        requires table { root.old.table ≡ self.now }
        requires room { root.old.given < self.now.layout.clients }
        ensures root { root.new ≡ record { table = root.old.table; given = root.old.given + 1 } }
        ensures session { result ≡ new_session_of root.old.table (root.old.given + 1) }
    {
        let seat = self.table.shared.split_seat::<NewSession>(&mut root.seat);
        root.given += 1;
        Pass {
            seat,
            layout: self.layout,
            client: root.given,
            begun: 0,
            running: None,
        }
    }

    /// Begins an operation on the key, and answers the number of the event.
    pub fn begin(&self, pass: &mut Pass, key: u32, act: ActKind) -> u64
        requires table { pass.old.table ≡ self.now }
        requires idle { pass.old.running ≡ None }
        requires room { pass.old.begun < self.now.layout.ops }
        requires key { key < self.now.layout.keys }
        requires plain { is_plain act ≡ true }
        ensures event { SeesHistory pass.old (Begin (next_row pass.old) pass.old.client key act) pass.new }
        ensures begun { pass.new.begun ≡ pass.old.begun + 1 }
        ensures running { pass.new.running ≡ Some (record { row = next_row pass.old; key = key; act = act; found = None; set = None }) }
        ensures place { result ≡ event_number pass.new.seen }
    {
        let row = pass.next_row();
        let found = self.count_begin::<Brand>(&mut pass.seat, pass.client, row, key, &act);
        let place = found + 1;
        pass.begun += 1;
        pass.running = Some(Running {
            row,
            key,
            act,
            found: None,
            set: None,
        });
        place
    }

    /// Ends the running operation with the reply, and answers the number of the event.
    pub fn finish(&self, pass: &mut Pass, reply: &Reply) -> u64
        requires table { pass.old.table ≡ self.now }
        requires reply { MayFinish pass.old reply.now }
        ensures event { Finishes pass.old reply.now pass.new }
        ensures place { result ≡ event_number pass.new.seen }
    {
        let running = pass.now();
        let found = self.count_end::<Brand>(&mut pass.seat, running.row, reply);
        pass.running = None;
        found + 1
    }

    /// Reads the head of the running operation's key.
    fn look(&self, pass: &mut Pass) -> Option<Seen>
        requires table { pass.old.table ≡ self.now }
        requires open { MayRead pass.old }
        ensures { Looks pass.old result pass.new }
    {
        let running = pass.now();
        let word = self.load_head::<Brand>(&mut pass.seat, running.key, running.row);
        let (stamp, row) = unpacked(word);
        pass.running = Some(Running {
            row: running.row,
            key: running.key,
            act: running.act,
            found: Some(stamp),
            set: running.set,
        });
        if word == 0 {
            return None;
        }
        Some(Seen { stamp, row })
    }

    /// Reads the record of the running operation's key, and the row of the operation that wrote it.
    ///
    /// It takes its memory first: a call that was refused has read nothing.
    pub fn read(&self, alloc: Global, pass: &mut Pass) -> Result<Option<Found>, NoMemory>
        requires table { pass.old.table ≡ self.now }
        requires open { MayRead pass.old }
        ensures ok { IfOk result (λ found. Reads pass.old found pass.new) }
        ensures err { OnErr result (pass.new ≡ pass.old) }
    {
        let hashes = Vec::with_capacity(alloc, MOST_HASHES)?;
        let key = pass.now().key;
        match self.look(pass) {
            None => Ok(None),
            Some(seen) => {
                let rec = self.read_row(alloc, &mut pass.seat, key, &seen, hashes);
                Ok(Some(Found { rec, row: seen.row }))
            }
        }
    }

    /// Reads the record of the row that the seat has seen written. It takes no memory.
    fn read_row(
        &self,
        alloc: Global,
        seat: &mut Seat<(), View>,
        _key: u32,
        seen: &Seen,
        mut hashes: Vec<Hash>,
    ) -> Record
        requires table { seat.old.table_id ≡ self.now.id }
        requires row { seen.now.row < self.now.layout.clients * self.now.layout.ops }
        requires written { HasWritten self.now.layout seat.old.me.0.seen _key seen.now.row seen.now.stamp }
        requires room { (hashes.items ≡ []) × (10 ≤ vec_capacity hashes) }
        ensures table { seat.new.table_id ≡ seat.old.table_id }
        ensures same { seat.new.me ≡ seat.old.me }
        ensures stamp { result.stamp ≡ seen.now.stamp }
        ensures recorded { HasRecord seat.old.me.0.seen _key seen.now.row result }
        ensures fits { FitsLayout self.now.layout result }
    {
        let head = self.read_word(seat, seen.row, 0);
        if head / 65536 % 65536 == 0 {
            return ruled(Record::deletion(alloc, seen.stamp));
        }
        let count = hash_count(self.layout.f, self.layout.k);
        for i in 0..count {
            let a = self.read_word(seat, seen.row, 1 + 4 * i);
            let b = self.read_word(seat, seen.row, 2 + 4 * i);
            let c = self.read_word(seat, seen.row, 3 + 4 * i);
            let d = self.read_word(seat, seen.row, 4 + 4 * i);
            hashes.push_reserved(hash_of_words(a, b, c, d));
        }
        ruled(Record::of_hashes(
            seen.stamp,
            (head / 4294967296) as u32,
            self.layout.f,
            self.layout.k,
            (head % 65536) as u16,
            hashes,
        ))
    }

    /// Writes the record to the row of the running operation, and then to the head of its key, where it is above the
    /// record there.
    pub fn update(&self, pass: &mut Pass, rec: &Record) -> Said
        requires table { pass.old.table ≡ self.now }
        requires next { MayUpdate pass.old rec.now }
        ensures { Updates pass.old rec.now result pass.new }
    {
        let running = pass.now();
        let stamp = rec.stamp();
        let known = rec.known();
        let word = packed(&stamp, running.row);
        self.write_row(&mut pass.seat, running.row, rec);
        let old = self.raise_head::<Brand>(&mut pass.seat, running.key, running.row, rec, word);
        let (found, _) = unpacked(old);
        pass.running = Some(Running {
            row: running.row,
            key: running.key,
            act: running.act,
            found: running.found,
            set: Some(stamp),
        });
        if found.is_below(&stamp) {
            return Said::Applied;
        }
        Said::Kept(found)
    }

    /// Writes the words of the record to the row.
    fn write_row(&self, seat: &mut Seat<(), View>, row: u32, rec: &Record)
        requires table { seat.old.table_id ≡ self.now.id }
        requires row { OwnsRow self.now.layout seat.old.me.0 row }
        requires new { seat.old.me.0.written ≡ [] }
        requires few { length (record_words rec.now) ≤ width self.now.layout }
        ensures table { seat.new.table_id ≡ seat.old.table_id }
        ensures slots { seat.new.me.1 ≡ seat.old.me.1 }
        ensures view { seat.new.me.0 ≡ writing seat.old.me.0 row (record_words rec.now) }
    {
        let count = row_len(rec);
        for i in 0..count {
            self.write_word(seat, row, i, row_word(rec, i));
        }
    }

    /// Writes the next word of the row.
    fn write_word(&self, seat: &mut Seat<(), View>, row: u32, i: usize, word: u64)
        requires table { seat.old.table_id ≡ self.now.id }
        requires row { OwnsRow self.now.layout seat.old.me.0 row }
        requires next { length seat.old.me.0.written ≡ i }
        requires room { i < width self.now.layout }
        requires same { seat.old.me.0.written ≢ [] → seat.old.me.0.row ≡ row }
        ensures table { seat.new.table_id ≡ seat.old.table_id }
        ensures slots { seat.new.me.1 ≡ seat.old.me.1 }
        ensures view { seat.new.me.0 ≡ writing seat.old.me.0 row (seat.old.me.0.written ++ word ∷ []) }
    {
        let _layout = &self.layout;
        self.store_word::<Brand>(seat, row, i, word);
    }

    /// The word of a row that the seat has seen written.
    fn read_word(&self, seat: &mut Seat<(), View>, row: u32, i: usize) -> u64
        requires table { seat.old.table_id ≡ self.now.id }
        requires row { row < self.now.layout.clients * self.now.layout.ops }
        requires inside { i < width self.now.layout }
        ensures table { seat.new.table_id ≡ seat.old.table_id }
        ensures same { seat.new.me ≡ seat.old.me }
        ensures word { IsWordOf seat.old.me.0.seen row i result }
    {
        self.load_word::<Brand>(seat, row, i)
    }

    /// Loads a word of a row.
    fn load_word<J: Lesson>(&self, seat: &mut Seat<(), View>, row: u32, i: usize) -> u64
        requires table { seat.old.table_id ≡ self.now.id }
        requires inside { (row < self.now.layout.clients * self.now.layout.ops) × (i < width self.now.layout) }
        requires rule { Allows (IsTable self.now.layout) self.now.id.slots seat.old.id seat.old.me (row_place self.now.layout row i) (λ n. n) (λ n after. J.tells seat.old.me.0 n after.0 × (after.1 ≡ seat.old.me.1)) }
        ensures table { seat.new.table_id ≡ seat.old.table_id }
        ensures slots { seat.new.me.1 ≡ seat.old.me.1 }
        ensures told { J.tells seat.old.me.0 result seat.new.me.0 }
    {
        let place = row_place(&self.layout, row, i);
        self.table.shared.load::<Told<J>>(seat, place)
    }

    /// Stores a word of a row.
    fn store_word<J: Lesson>(&self, seat: &mut Seat<(), View>, row: u32, i: usize, word: u64)
        requires table { seat.old.table_id ≡ self.now.id }
        requires inside { (row < self.now.layout.clients * self.now.layout.ops) × (i < width self.now.layout) }
        requires rule { Allows (IsTable self.now.layout) self.now.id.slots seat.old.id seat.old.me (row_place self.now.layout row i) (λ _. word) (λ n after. J.tells seat.old.me.0 word after.0 × (after.1 ≡ seat.old.me.1)) }
        ensures table { seat.new.table_id ≡ seat.old.table_id }
        ensures slots { seat.new.me.1 ≡ seat.old.me.1 }
        ensures told { J.tells seat.old.me.0 word seat.new.me.0 }
    {
        let place = row_place(&self.layout, row, i);
        self.table.shared.store::<Told<J>>(seat, place, word);
    }

    /// The second session has then seen all that the first had seen.
    pub fn meet(&self, a: &mut Pass, b: &mut Pass)
        requires first { a.old.table ≡ self.now }
        requires second { b.old.table ≡ self.now }
        ensures first { a.new ≡ a.old }
        ensures second { MergesViews a.old b.old b.new }
    {
        let note = self.table.shared.split_seat::<Note>(&mut a.seat);
        self.table.shared.join_seat::<Note>(&mut b.seat, note);
        self.load_count::<Brand>(&mut b.seat);
    }

    /// Loads word 0.
    fn load_count<J: Lesson>(&self, seat: &mut Seat<(), View>)
        requires table { seat.old.table_id ≡ self.now.id }
        requires rule { Allows (IsTable self.now.layout) self.now.id.slots seat.old.id seat.old.me 0 (λ n. n) (λ n after. J.tells seat.old.me.0 n after.0 × (after.1 ≡ seat.old.me.1)) }
        ensures table { seat.new.table_id ≡ seat.old.table_id }
        ensures slots { seat.new.me.1 ≡ seat.old.me.1 }
        ensures told { (n : ℕ) × J.tells seat.old.me.0 n seat.new.me.0 }
    {
        self.table.shared.load::<Told<J>>(seat, 0);
    }

    /// Counts in word 0 that an operation begins.
    fn count_begin<J: Lesson>(
        &self,
        seat: &mut Seat<(), View>,
        _client: u32,
        _row: u32,
        _key: u32,
        _act: &ActKind,
    ) -> u64
        requires table { seat.old.table_id ≡ self.now.id }
        requires rule { Allows (IsTable self.now.layout) self.now.id.slots seat.old.id seat.old.me 0 (λ n. (n + 1) % 2 ^ 64) (λ n after. J.tells seat.old.me.0 n after.0 × (after.1 ≡ seat.old.me.1)) }
        ensures table { seat.new.table_id ≡ seat.old.table_id }
        ensures slots { seat.new.me.1 ≡ seat.old.me.1 }
        ensures told { J.tells seat.old.me.0 result seat.new.me.0 }
    {
        self.table.shared.fetch_add::<Told<J>>(seat, 0, 1)
    }

    /// Counts in word 0 that an operation returns.
    fn count_end<J: Lesson>(&self, seat: &mut Seat<(), View>, _row: u32, _reply: &Reply) -> u64
        requires table { seat.old.table_id ≡ self.now.id }
        requires rule { Allows (IsTable self.now.layout) self.now.id.slots seat.old.id seat.old.me 0 (λ n. (n + 1) % 2 ^ 64) (λ n after. J.tells seat.old.me.0 n after.0 × (after.1 ≡ seat.old.me.1)) }
        ensures table { seat.new.table_id ≡ seat.old.table_id }
        ensures slots { seat.new.me.1 ≡ seat.old.me.1 }
        ensures told { J.tells seat.old.me.0 result seat.new.me.0 }
    {
        self.table.shared.fetch_add::<Told<J>>(seat, 0, 1)
    }

    /// Loads the head of the key.
    fn load_head<J: Lesson>(&self, seat: &mut Seat<(), View>, key: u32, _row: u32) -> u64
        requires table { seat.old.table_id ≡ self.now.id }
        requires key { key < self.now.layout.keys }
        requires rule { Allows (IsTable self.now.layout) self.now.id.slots seat.old.id seat.old.me (head_place key) (λ n. n) (λ n after. J.tells seat.old.me.0 n after.0 × (after.1 ≡ seat.old.me.1)) }
        ensures table { seat.new.table_id ≡ seat.old.table_id }
        ensures slots { seat.new.me.1 ≡ seat.old.me.1 }
        ensures told { J.tells seat.old.me.0 result seat.new.me.0 }
    {
        let _layout = &self.layout;
        self.table.shared.load::<Told<J>>(seat, head_place(key))
    }

    /// Raises the head of the key to the word.
    fn raise_head<J: Lesson>(
        &self,
        seat: &mut Seat<(), View>,
        key: u32,
        _row: u32,
        _rec: &Record,
        word: u64,
    ) -> u64
        requires table { seat.old.table_id ≡ self.now.id }
        requires key { key < self.now.layout.keys }
        requires rule { Allows (IsTable self.now.layout) self.now.id.slots seat.old.id seat.old.me (head_place key) (λ n. max n word) (λ n after. J.tells seat.old.me.0 n after.0 × (after.1 ≡ seat.old.me.1)) }
        ensures table { seat.new.table_id ≡ seat.old.table_id }
        ensures slots { seat.new.me.1 ≡ seat.old.me.1 }
        ensures told { J.tells seat.old.me.0 result seat.new.me.0 }
    {
        let _layout = &self.layout;
        let place = head_place(key);
        self.table.shared.fetch_max::<Told<J>>(seat, place, word)
    }
}
