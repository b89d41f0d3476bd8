//! What holds of the words of every record.

ghost use Rattle.std.specs.Prelude.{◌≡◌, All};
ghost use Rattle.hy_record.specs.Record.{RecordValue, IsRecord};
ghost use Rattle.hy_shared.specs.declared.layout.Layout.{Layout};
ghost use Rattle.hy_shared.specs.Rows.{record_words, FitsLayout, IsByteList};

/// A record is told by its timestamp and its words: no two records that fit one table have the same.
pub fn words_tell_the_record()
    ensures { (z : Layout) (a b : RecordValue) → IsRecord a → IsRecord b → FitsLayout z a → FitsLayout z b
        → All IsByteList a.hashes → All IsByteList b.hashes → a.stamp ≡ b.stamp
        → record_words a ≡ record_words b → a ≡ b }
{}
