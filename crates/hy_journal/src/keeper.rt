//! A metadata service over a disk.

ghost use Rattle.std.specs.Prelude.{◌≡◌, ◌≢◌, ◌⊎◌, ◌↔◌, ◌≤◌, ◌<◌, ◌+◌, ◌++◌, ◌∷◌, [], List, ℕ, Err, IfOk, OnOk, IfErr, IsErrOf, Ok, length, true, false};
ghost use Rattle.hy_base.specs.Faults.{Rose};
ghost use Rattle.hy_disk.specs.Crash.{LeavesOnly};
ghost use Rattle.hy_record.specs.declared.message.MetaAsk.{MetaAsk as TheAsk};
ghost use Rattle.hy_meta.specs.Meta.{service_answers};
ghost use Rattle.hy_meta.specs.Sessions.{next_session};
ghost use Rattle.hy_journal.specs.declared.limits.TheConstants.{MAX_JOURNAL};
ghost use Rattle.hy_journal.specs.declared.entry.Entry.{Entry as TheEntry};
ghost use Rattle.hy_journal.specs.declared.entry.Entry.TheVariants as kinds;
ghost use Rattle.hy_journal.specs.declared.fault.KeepFault.TheVariants as faults;
ghost use Rattle.hy_journal.specs.declared.fault.OpenFault.TheVariants as open_faults;
ghost use Rattle.hy_journal.specs.Entry.{is_kept};
ghost use Rattle.hy_journal.specs.File.{HasOrLacks, Holds, IsNew};
ghost use Rattle.hy_journal.specs.Fold.{asks_of, sessions_of, entries_of};
ghost use Rattle.hy_journal.specs.Keeper.{Stands, OpenCause, OpenLeaves, OpenFinds, FindsSome, IsOutside, KeepCause, AddsAtMost, CanAppend, IsSettled, disk_of, is_broken, calls_after, calls_with};
ghost use Rattle.hy_base.specs.declared.limits.TheConstants.{MAX_SESSIONS};

use crate::append::append;
use crate::entry::{ask_bytes, is_kept, join_bytes};
use crate::fault::{KeepFault, OpenFault};
use crate::laws::files_stand_for_one_list;
use crate::limits::MAX_JOURNAL;
use crate::opening::prepare;
use crate::state::State;
use hy_base::{Failed, MAX_SESSIONS};
use hy_disk::Disk;
use hy_meta::Meta;
use hy_record::{MetaAsk, MetaSay};
use std::alloc::Global;

/// A metadata service that keeps each change in a journal before it answers.
#[derive(Debug, Drop)]
pub struct Keeper<D: Disk> {
    disk: D,
    state: State,
    broken: bool,
}

impl<D: Disk> Keeper<D> {
    /// The service for which the file of the disk stands. It may crash too, at any moment.
    pub fn open(alloc: Global, disk: D) -> Result<Keeper<D>, (D, OpenFault)>
        ensures finds { IfOk result (OpenFinds D.contents D.may_leave (D.contents disk)) }
        ensures cause { IfErr result (λ e. OpenCause (D.contents disk) e.1) }
        ensures any_moment { IfOk result (λ keeper. LeavesOnly D.moment D.left_since disk
            (disk_of keeper)
            (OpenLeaves (D.contents disk) (D.may_leave disk))) }
        ensures any_moment_err { IfErr result (λ e. LeavesOnly D.moment D.left_since disk e.0
            (OpenLeaves (D.contents disk) (D.may_leave disk))) }
        // Where a crash could only leave files of these entries, with those more or without them,
        // it is so at each moment of the call too, and the keeper stands for some of these entries.
        ensures survives { (entries more : List TheEntry) → Holds entries more (D.may_leave disk) →
            IfOk result (λ keeper. FindsSome D.contents D.may_leave entries more keeper
            × LeavesOnly D.moment D.left_since disk (disk_of keeper) (HasOrLacks entries more)) }
        ensures survives_err { (entries more : List TheEntry) →
            Holds entries more (D.may_leave disk) →
            IfErr result (λ e. IsOutside e.1 × Holds entries more (D.may_leave e.0)
            × LeavesOnly D.moment D.left_since disk e.0 (HasOrLacks entries more)) }
        ensures reach { IfOk result (λ keeper. D.reach disk (disk_of keeper) 3 1 1
            × (D.faults (disk_of keeper) ≡ D.faults disk)) }
        ensures reach_err { IfErr result (λ e. D.reach disk e.0 3 1 1) }
        ensures calls { IsNew (D.contents disk) → IfOk result (λ keeper.
            D.calls (disk_of keeper) ≡ calls_after 4 (D.calls disk)) }
        ensures few { IsNew (D.contents disk) →
            IfErr result (λ e. D.calls e.0 ≤ D.calls disk + 4) }
        ensures stays { IfErr result (λ e. D.faults disk ≤ D.faults e.0) }
        ensures rose { IfErr result (λ e. e.1 ≡ open_faults.DiskFault →
            Rose (D.faults disk) (D.faults e.0)) }
    {
        files_stand_for_one_list();
        let mut disk = disk;
        match prepare(alloc, &mut disk) {
            Ok(state) => Ok(Keeper {
                disk,
                state,
                broken: false,
            }),
            Err(fault) => Err((disk, fault)),
        }
    }

    /// The id of the next session. It is in the journal for good before it is answered.
    pub fn join(&mut self, alloc: Global) -> Result<u32, KeepFault>
        ensures id { IfOk result (λ id. (entries : List TheEntry) (served : List TheAsk) →
            Stands D.contents D.may_leave self.old entries served →
            next_session (sessions_of entries) ≡ Ok id) }
        ensures ok { OnOk result ((entries : List TheEntry) (served : List TheAsk) →
            Stands D.contents D.may_leave self.old entries served →
            Stands D.contents D.may_leave self.new (entries ++ kinds.Join ∷ []) served) }
        ensures any_moment { (entries : List TheEntry) (served : List TheAsk) →
            Stands D.contents D.may_leave self.old entries served →
            LeavesOnly D.moment D.left_since (disk_of self.old) (disk_of self.new)
            (HasOrLacks entries (kinds.Join ∷ [])) }
        ensures cause { IfErr result (KeepCause D.contents D.may_leave D.faults self.old self.new
            (kinds.Join ∷ [])) }
        ensures reach { (entries : List TheEntry) (served : List TheAsk) →
            Stands D.contents D.may_leave self.old entries served →
            AddsAtMost D.reach (disk_of self.old) (disk_of self.new) entries (kinds.Join ∷ []) }
        ensures calls { OnOk result
            (D.calls (disk_of self.new) ≡ calls_after 4 (D.calls (disk_of self.old))) }
        ensures few { D.calls (disk_of self.new) ≤ D.calls (disk_of self.old) + 4 }
        ensures kept { OnOk result (D.faults (disk_of self.new) ≡ D.faults (disk_of self.old)) }
        ensures none_left { (entries : List TheEntry) (served : List TheAsk) →
            Stands D.contents D.may_leave self.old entries served →
            MAX_SESSIONS ≤ sessions_of entries →
            result ≡ Err faults.SessionsFull }
        ensures full { IfErr result (λ fault. fault ≡ faults.SessionsFull →
            (entries : List TheEntry) (served : List TheAsk) →
            Stands D.contents D.may_leave self.old entries served →
            MAX_SESSIONS ≤ sessions_of entries) }
        ensures broken { is_broken self.old ≡ true → result ≡ Err faults.Broken }
    {
        if self.broken {
            return Err(KeepFault::Broken);
        }
        if self.state.given >= MAX_SESSIONS {
            return Err(KeepFault::SessionsFull);
        }
        let bytes = join_bytes(alloc)?;
        let end = self.state.end + bytes.len() as u64;
        if end > MAX_JOURNAL {
            return Err(KeepFault::Full(end));
        }
        self.write(&bytes)?;
        self.state.given += 1;
        Ok(self.state.given)
    }

    /// Serves a request, and answers it: the messages, in the order in which they are to be sent.
    ///
    /// A request that changes what the service keeps, a swap too that is refused, is in the journal
    /// for good before it is answered.
    pub fn serve(&mut self, alloc: Global, ask: &MetaAsk) -> Result<Vec<MetaSay>, KeepFault>
        ensures says { IfOk result (λ says. (entries : List TheEntry) (served : List TheAsk) →
            Stands D.contents D.may_leave self.old entries served →
            says.items ≡ service_answers served ask.now) }
        ensures ok { OnOk result ((entries : List TheEntry) (served : List TheAsk) →
            Stands D.contents D.may_leave self.old entries served →
            Stands D.contents D.may_leave self.new (entries ++ entries_of ask.now)
            (ask.now ∷ served)) }
        ensures any_moment { (entries : List TheEntry) (served : List TheAsk) →
            Stands D.contents D.may_leave self.old entries served →
            LeavesOnly D.moment D.left_since (disk_of self.old) (disk_of self.new)
            (HasOrLacks entries (entries_of ask.now)) }
        ensures cause { IfErr result (KeepCause D.contents D.may_leave D.faults self.old self.new
            (entries_of ask.now)) }
        ensures reach { (entries : List TheEntry) (served : List TheAsk) →
            Stands D.contents D.may_leave self.old entries served →
            AddsAtMost D.reach (disk_of self.old) (disk_of self.new) entries (entries_of ask.now) }
        ensures calls { OnOk result
            (D.calls (disk_of self.new) ≡ calls_with ask.now (D.calls (disk_of self.old))) }
        ensures few { D.calls (disk_of self.new) ≤ D.calls (disk_of self.old) + 4 }
        ensures kept { OnOk result (D.faults (disk_of self.new) ≡ D.faults (disk_of self.old)) }
        ensures not_full { result ≢ Err faults.SessionsFull }
        ensures broken { is_broken self.old ≡ true → result ≡ Err faults.Broken }
    {
        if self.broken {
            return Err(KeepFault::Broken);
        }
        if is_kept(ask) {
            self.keep(alloc, ask)
        } else {
            let says = self.state.service.serve(alloc, ask)?;
            Ok(says)
        }
    }

    /// Serves a request that changes what the service keeps.
    fn keep(&mut self, alloc: Global, ask: &MetaAsk) -> Result<Vec<MetaSay>, KeepFault>
        requires kept { is_kept ask.now ≡ true }
        requires sound { is_broken self.old ≡ false }
        ensures says { IfOk result (λ says. (entries : List TheEntry) (served : List TheAsk) →
            Stands D.contents D.may_leave self.old entries served →
            says.items ≡ service_answers served ask.now) }
        ensures ok { OnOk result ((entries : List TheEntry) (served : List TheAsk) →
            Stands D.contents D.may_leave self.old entries served →
            Stands D.contents D.may_leave self.new (entries ++ kinds.Ask ask.now ∷ [])
            (ask.now ∷ served)) }
        ensures any_moment { (entries : List TheEntry) (served : List TheAsk) →
            Stands D.contents D.may_leave self.old entries served →
            LeavesOnly D.moment D.left_since (disk_of self.old) (disk_of self.new)
            (HasOrLacks entries (kinds.Ask ask.now ∷ [])) }
        ensures cause { IfErr result (KeepCause D.contents D.may_leave D.faults self.old self.new
            (kinds.Ask ask.now ∷ [])) }
        ensures reach { (entries : List TheEntry) (served : List TheAsk) →
            Stands D.contents D.may_leave self.old entries served →
            AddsAtMost D.reach (disk_of self.old) (disk_of self.new) entries
            (kinds.Ask ask.now ∷ []) }
        ensures calls { OnOk result
            (D.calls (disk_of self.new) ≡ calls_after 4 (D.calls (disk_of self.old))) }
        ensures few { D.calls (disk_of self.new) ≤ D.calls (disk_of self.old) + 4 }
        ensures kept { OnOk result (D.faults (disk_of self.new) ≡ D.faults (disk_of self.old)) }
        ensures not_full { result ≢ Err faults.SessionsFull }
        ensures not_broken { result ≢ Err faults.Broken }
    {
        let bytes = ask_bytes(alloc, ask)?;
        let end = self.state.end + bytes.len() as u64;
        if end > MAX_JOURNAL {
            return Err(KeepFault::Full(end));
        }
        let says = self.state.service.serve(alloc, ask)?;
        self.write(&bytes)?;
        Ok(says)
    }

    /// Adds an entry to the journal: these are its bytes and the closed gate behind it.
    fn write(&mut self, bytes: &[u8]) -> Result<(), KeepFault>
        requires within { self.old.state.end + length bytes.now ≤ MAX_JOURNAL }
        requires sound { is_broken self.old ≡ false }
        ensures settled { OnOk result ((entries : List TheEntry) (entry : TheEntry) →
            CanAppend entries entry self.old.state.end bytes.now (D.contents self.old.disk)
            (D.may_leave self.old.disk) →
            IsSettled (entries ++ entry ∷ []) self.new.state.end (D.contents self.new.disk)
            (D.may_leave self.new.disk)) }
        ensures any_moment { (entries : List TheEntry) (entry : TheEntry) →
            CanAppend entries entry self.old.state.end bytes.now (D.contents self.old.disk)
            (D.may_leave self.old.disk) →
            LeavesOnly D.moment D.left_since self.old.disk self.new.disk
            (HasOrLacks entries (entry ∷ [])) }
        ensures cause { IfErr result (λ fault. (fault ≡ faults.DiskFault)
            × (is_broken self.new ≡ true)
            × Rose (D.faults self.old.disk) (D.faults self.new.disk)) }
        ensures reach { D.reach self.old.disk self.new.disk 4 (length bytes.now + 1)
            (self.old.state.end + length bytes.now) }
        ensures calls { OnOk result
            (D.calls self.new.disk ≡ calls_after 4 (D.calls self.old.disk)) }
        ensures few { D.calls self.new.disk ≤ D.calls self.old.disk + 4 }
        ensures kept { OnOk result (D.faults self.new.disk ≡ D.faults self.old.disk) }
        ensures sound { OnOk result (is_broken self.new ≡ false) }
        ensures service { self.new.state.service ≡ self.old.state.service }
        ensures given { self.new.state.given ≡ self.old.state.given }
    {
        match append(&mut self.disk, self.state.end, bytes) {
            Ok(()) => {
                self.state.end += bytes.len() as u64;
                Ok(())
            }
            Err(Failed) => {
                self.broken = true;
                Err(KeepFault::DiskFault)
            }
        }
    }

    /// The disk, as it is.
    pub fn into_disk(self) -> D
        ensures { result ≡ disk_of self }
    {
        self.disk
    }
}
