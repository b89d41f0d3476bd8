//! Laws of journals, above the definitions: each is a function that does nothing and ensures it.

ghost use Rattle.std.specs.Prelude.{◌≡◌, ◌≤◌, [], List, ℕ, All, length};
ghost use Rattle.hy_journal.specs.declared.limits.TheConstants.{MAX_JOURNAL};
ghost use Rattle.hy_journal.specs.declared.entry.Entry.{Entry};
ghost use Rattle.hy_record.specs.declared.message.MetaAsk.{MetaAsk};
ghost use Rattle.hy_record.specs.Stamp.{Timestamp};
ghost use Rattle.hy_meta.specs.Service.{record_after, is_old, old_list};
ghost use Rattle.hy_meta.specs.Meta.{last_swap};
ghost use Rattle.hy_meta.specs.Watches.{watches_of};
ghost use Rattle.hy_mwire.specs.declared.message.Message.{Message};
ghost use Rattle.hy_journal.specs.Entry.{IsEntry};
ghost use Rattle.hy_journal.specs.Requests.{AreRequests, IsBadFrameAt};
ghost use Rattle.hy_journal.specs.File.{Recovers, IsBadAt};
ghost use Rattle.hy_journal.specs.Fold.{asks_of, kept_asks};
ghost use Rattle.hy_journal.specs.History.{Event, IsHistory, ids_of, IsFalling};

use hy_mwire::{frames_are_apart, frames_are_read_back};

/// A file stands for the entries of one list, or is too long, or has a bad entry at one place.
pub fn files_stand_for_one_list()
    ensures one { (file : List ℕ) (a b : List Entry) → Recovers a file → Recovers b file → a ≡ b }
    ensures sound { (file : List ℕ) (a : List Entry) (place : ℕ) →
        Recovers a file → IsBadAt file place → ⊥ }
    ensures place { (file : List ℕ) (p q : ℕ) → IsBadAt file p → IsBadAt file q → p ≡ q }
    ensures short { (file : List ℕ) (a : List Entry) →
        Recovers a file → length file ≤ MAX_JOURNAL }
{
    frames_are_read_back();
    frames_are_apart();
}

/// Bytes are the frames of one list of requests, or have one first place where none stands.
pub fn requests_are_read_in_one_way()
    ensures one { (bytes : List ℕ) (a b : List Message) →
        AreRequests bytes a → AreRequests bytes b → a ≡ b }
    ensures sound { (bytes : List ℕ) (a : List Message) (place : ℕ) →
        AreRequests bytes a → IsBadFrameAt bytes place → ⊥ }
    ensures place { (bytes : List ℕ) (p q : ℕ) →
        IsBadFrameAt bytes p → IsBadFrameAt bytes q → p ≡ q }
{
    frames_are_apart();
}

/// Over all openings of a disk no id of a session is given twice.
pub fn ids_are_given_once()
    ensures { (history : List Event) → IsHistory history → IsFalling (ids_of history) }
{}

/// What a keeper answers of records, superseded timestamps and swaps follows from the entries, and
/// no watch outlives an opening.
pub fn entries_decide()
    ensures records { (served : List MetaAsk) (key : List ℕ) →
        record_after served key ≡ record_after (kept_asks served) key }
    ensures olds { (served : List MetaAsk) (key : List ℕ) (stamp : Timestamp) →
        is_old served key stamp ≡ is_old (kept_asks served) key stamp }
    ensures lists { (served : List MetaAsk) (key : List ℕ) →
        old_list served key ≡ old_list (kept_asks served) key }
    ensures swaps { (served : List MetaAsk) (client : ℕ) →
        last_swap served client ≡ last_swap (kept_asks served) client }
    ensures watches { (entries : List Entry) → All IsEntry entries →
        watches_of (asks_of entries) ≡ [] }
{}
