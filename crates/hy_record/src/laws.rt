//! Laws of records and their spellings: each is a function without a body that ensures it.

ghost use Rattle.std.specs.Prelude.{◌≡◌, ◌<◌, ◌≤◌, ◌++◌, ℕ, List, Ok, All, length};
ghost use Rattle.hy_base.specs.Shape.{cloud_count, quorum_size};
ghost use Rattle.hy_base.specs.declared.limits.TheConstants.{MAX_RECORD};
ghost use Rattle.hy_record.specs.Clouds.{clouds_of};
ghost use Rattle.hy_record.specs.Reading.{record_of};
ghost use Rattle.hy_record.specs.Record.{RecordValue, IsRecord};
ghost use Rattle.hy_record.specs.Spelling.{SpellsRecord, record_bytes, spelling_size};

/// A record's clouds are a quorum of those of its store.
pub fn record_lists_a_quorum()
    ensures count { (r : RecordValue) → IsRecord r → length (clouds_of r.clouds) ≡ quorum_size r.f r.k }
    ensures clouds { (r : RecordValue) → IsRecord r → All (λ cloud. cloud < cloud_count r.f r.k) (clouds_of r.clouds) }
{}

/// A record's spelling has as many bytes as its kind and its store say, and never more than a record may have.
pub fn record_spellings_are_short()
    ensures size { (r : RecordValue) → IsRecord r → length (record_bytes r) ≡ spelling_size r.kind r.f r.k }
    ensures short { (r : RecordValue) → IsRecord r → length (record_bytes r) ≤ MAX_RECORD }
{}

/// No record's spelling begins another's.
pub fn record_spellings_are_apart()
    ensures { (a b x y : List ℕ) (r s : RecordValue) → SpellsRecord a r → SpellsRecord b s → a ++ x ≡ b ++ y → (r ≡ s) × (a ≡ b) }
{}

/// What is written is read again.
pub fn records_are_read_back()
    ensures { (r : RecordValue) → IsRecord r → record_of (record_bytes r) ≡ Ok r }
{}
