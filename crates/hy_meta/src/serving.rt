//! How requests are served, whichever way the keys are kept.

ghost use Rattle.std.specs.Prelude.{◌≡◌, ◌∷◌, [], ℕ, IfOk, OnOk, OnErr, IsTrue, None, Some, take};
ghost use Rattle.hy_record.specs.Stamps.{is_rising};
ghost use Rattle.hy_record.specs.declared.message.MetaAsk.TheVariants as asks;
ghost use Rattle.hy_record.specs.declared.message.MetaSay.TheVariants as says;
ghost use Rattle.hy_meta.specs.Meta.{Says, GoesOn};
ghost use Rattle.hy_meta.specs.Entry.{SameEntries, EntryPut, forgotten, watched, watch_answers};
ghost use Rattle.hy_meta.specs.Entry.{settled, told_if, tried, tried_say, tried_answers};
ghost use Rattle.hy_meta.specs.Verdicts.{last_in, NotesLast, SameLasts};
ghost use Rattle.hy_meta.specs.Stands.{Stands};

use crate::keeps::Keeps;
use crate::messages::one;
use crate::verdicts::{Verdict, Verdicts};
use crate::watcher::Watcher;
use hy_base::NoMemory;
use hy_record::{Key, MAX_STAMPS, MetaAsk, MetaSay, Record, Stamp, Stamps};
use std::alloc::Global;

/// Serves a request, and answers it.
pub(crate) fn serve<K: Keeps>(
    kept: &mut K,
    verdicts: &mut Verdicts,
    alloc: Global,
    ask: &MetaAsk,
) -> Result<Vec<MetaSay>, NoMemory>
    ensures says { Says (Stands (K.entries kept.old) (last_in verdicts.old)) ask.now result }
    ensures goes_on { GoesOn (Stands (K.entries kept.old) (last_in verdicts.old))
        (Stands (K.entries kept.new) (last_in verdicts.new)) ask.now result }
{
    match ask {
        MetaAsk::Read { client, op, key } => read(kept, alloc, *client, *op, key),
        MetaAsk::Update {
            client,
            op,
            key,
            rec,
        } => update(kept, alloc, *client, *op, key, rec),
        MetaAsk::Watch {
            client,
            op,
            key,
            stamp,
        } => watch(
            kept,
            alloc,
            Watcher {
                client: *client,
                op: *op,
                key: *key,
                stamp: *stamp,
            },
        ),
        MetaAsk::Olds { client, op, key } => olds(kept, alloc, *client, *op, key),
        MetaAsk::Forget {
            client,
            op,
            key,
            stamps,
        } => forget(kept, alloc, *client, *op, key, stamps),
        MetaAsk::Swap {
            client,
            op,
            key,
            expected,
            rec,
        } => swap(kept, verdicts, alloc, *client, *op, key, *expected, rec),
    }
}

/// What a read is answered.
fn read<K: Keeps>(
    kept: &K,
    alloc: Global,
    client: u32,
    op: u32,
    key: &Key,
) -> Result<Vec<MetaSay>, NoMemory>
    ensures { IfOk result (λ sent. sent.items ≡ says.Has client op key.now (K.entries kept.now key.now).rec ∷ []) }
{
    let rec = kept.copied(alloc, key)?;
    let key = *key;
    one(
        alloc,
        MetaSay::Has {
            client,
            op,
            key,
            rec,
        },
    )
}

/// What a request for the superseded timestamps is answered.
fn olds<K: Keeps>(
    kept: &K,
    alloc: Global,
    client: u32,
    op: u32,
    key: &Key,
) -> Result<Vec<MetaSay>, NoMemory>
    ensures says { IfOk result (λ sent. sent.items
        ≡ says.OldList client op key.now (take MAX_STAMPS (K.entries kept.now key.now).olds) ∷ []) }
    ensures rising { OnOk result (IsTrue (is_rising (K.entries kept.now key.now).olds)) }
{
    let stamps = kept.least_olds(alloc, key)?;
    let key = *key;
    one(
        alloc,
        MetaSay::OldList {
            client,
            op,
            key,
            stamps,
        },
    )
}

/// Serves a watch: it fires where the record is above its timestamp, and waits elsewhere.
fn watch<K: Keeps>(kept: &mut K, alloc: Global, watcher: Watcher) -> Result<Vec<MetaSay>, NoMemory>
    ensures says { IfOk result (λ sent. sent.items ≡ watch_answers (K.entries kept.old watcher.key) watcher) }
    ensures ok { OnOk result (EntryPut (K.entries kept.old) (K.entries kept.new) watcher.key
        (watched (K.entries kept.old watcher.key) watcher)) }
    ensures err { OnErr result (SameEntries (K.entries kept.old) (K.entries kept.new)) }
{
    let reached = kept.stamp(&watcher.key);
    if watcher.stamp.is_below(&reached) {
        return one(alloc, watcher.fired());
    }
    kept.wait(alloc, watcher)?;
    Ok(Vec::new(alloc))
}

/// Serves a request to forget superseded timestamps.
fn forget<K: Keeps>(
    kept: &mut K,
    alloc: Global,
    client: u32,
    op: u32,
    key: &Key,
    stamps: &Stamps,
) -> Result<Vec<MetaSay>, NoMemory>
    ensures says { IfOk result (λ sent. sent.items ≡ says.Forgot client op key.now ∷ []) }
    ensures ok { OnOk result (EntryPut (K.entries kept.old) (K.entries kept.new) key.now
        (forgotten (K.entries kept.old key.now) stamps.now)) }
    ensures err { OnErr result (SameEntries (K.entries kept.old) (K.entries kept.new)) }
{
    let forgot = MetaSay::Forgot {
        client,
        op,
        key: *key,
    };
    let says = one(alloc, forgot)?;
    kept.forget(key, stamps.items());
    Ok(says)
}

/// Serves an update.
fn update<K: Keeps>(
    kept: &mut K,
    alloc: Global,
    client: u32,
    op: u32,
    key: &Key,
    rec: &Record,
) -> Result<Vec<MetaSay>, NoMemory>
    ensures says { IfOk result (λ sent. sent.items ≡ tried_answers (K.entries kept.old key.now)
        (record { client = client; op = op; key = key.now; rec = rec.now; expected = None })) }
    ensures ok { OnOk result (EntryPut (K.entries kept.old) (K.entries kept.new) key.now
        (tried (K.entries kept.old key.now)
        (record { client = client; op = op; key = key.now; rec = rec.now; expected = None }))) }
    ensures err { OnErr result (SameEntries (K.entries kept.old) (K.entries kept.new)) }
{
    let held = kept.stamp(key);
    let stamp = rec.stamp();
    let key_named = *key;
    if held.is_below(&stamp) {
        let applied = MetaSay::Applied {
            client,
            op,
            key: key_named,
            stamp,
        };
        settle(kept, alloc, applied, true, key, rec)
    } else {
        let left = MetaSay::Kept {
            client,
            op,
            key: key_named,
            stamp: held,
        };
        settle(kept, alloc, left, false, key, rec)
    }
}

/// Serves a swap: one that is later than its client's last one is judged, and the last one is answered again.
fn swap<K: Keeps>(
    kept: &mut K,
    verdicts: &mut Verdicts,
    alloc: Global,
    client: u32,
    op: u32,
    key: &Key,
    expected: Stamp,
    rec: &Record,
) -> Result<Vec<MetaSay>, NoMemory>
    ensures says { Says (Stands (K.entries kept.old) (last_in verdicts.old))
        (asks.Swap client op key.now expected rec.now) result }
    ensures goes_on { GoesOn (Stands (K.entries kept.old) (last_in verdicts.old))
        (Stands (K.entries kept.new) (last_in verdicts.new)) (asks.Swap client op key.now expected rec.now) result }
{
    if verdicts.is_new(client, op) {
        judge(kept, verdicts, alloc, client, op, key, expected, rec)
    } else {
        verdicts.again(alloc, client, op)
    }
}

/// Serves a swap that is judged.
fn judge<K: Keeps>(
    kept: &mut K,
    verdicts: &mut Verdicts,
    alloc: Global,
    client: u32,
    op: u32,
    key: &Key,
    expected: Stamp,
    rec: &Record,
) -> Result<Vec<MetaSay>, NoMemory>
    ensures says { IfOk result (λ sent. sent.items ≡ tried_answers (K.entries kept.old key.now)
        (record { client = client; op = op; key = key.now; rec = rec.now; expected = Some expected })) }
    ensures ok { OnOk result (EntryPut (K.entries kept.old) (K.entries kept.new) key.now
        (tried (K.entries kept.old key.now)
        (record { client = client; op = op; key = key.now; rec = rec.now; expected = Some expected }))) }
    ensures noted { OnOk result (NotesLast (last_in verdicts.old) (last_in verdicts.new) client
        (record {
          op = op;
          say = tried_say (K.entries kept.old key.now)
              (record { client = client; op = op; key = key.now; rec = rec.now; expected = Some expected });
        })) }
    ensures err { OnErr result (SameEntries (K.entries kept.old) (K.entries kept.new)) }
    ensures unnoted { OnErr result (SameLasts (last_in verdicts.old) (last_in verdicts.new)) }
{
    verdicts.make_room(client)?;
    let held = kept.stamp(key);
    let stamp = rec.stamp();
    let verdict = Verdict::on(client, op, key, held, expected, stamp);
    let says = settle(kept, alloc, verdict.say(), verdict.swapped, key, rec)?;
    verdicts.note(verdict);
    Ok(says)
}

/// Makes the record that of the key where it applies, and elsewhere its timestamp old where that is below the record's.
///
/// The answer is the message, and where the record applies, what tells of each watch that it ends.
fn settle<K: Keeps>(
    kept: &mut K,
    alloc: Global,
    say: MetaSay,
    applies: bool,
    key: &Key,
    rec: &Record,
) -> Result<Vec<MetaSay>, NoMemory>
    ensures says { IfOk result (λ sent. sent.items
        ≡ say ∷ told_if applies rec.now.stamp (K.entries kept.old key.now).watches) }
    ensures ok { OnOk result (EntryPut (K.entries kept.old) (K.entries kept.new) key.now
        (settled (K.entries kept.old key.now) applies rec.now)) }
    ensures err { OnErr result (SameEntries (K.entries kept.old) (K.entries kept.new)) }
{
    let stamp = rec.stamp();
    if applies {
        let says = kept.told(alloc, say, key, stamp)?;
        let newer = rec.copy(alloc)?;
        kept.replace(alloc, key, newer)?;
        return Ok(says);
    }
    let says = one(alloc, say)?;
    let held = kept.stamp(key);
    if stamp.is_below(&held) {
        kept.outdate(key, stamp)?;
        return Ok(says);
    }
    Ok(says)
}
