//! Laws of every get, above the definitions: each is a function without a body that ensures it.

ghost use Rattle.std.specs.Prelude.{◌≡◌, ◌+◌, ◌∷◌, ◌<◌, ◌≤◌, ℕ, List, Option, Some, None, length};
ghost use Rattle.hy_record.specs.declared.action.Reply.TheVariants as told;
ghost use Rattle.hy_record.specs.declared.turn.Cue.{Cue};
ghost use Rattle.hy_record.specs.Record.{RecordValue, IsRecord};
ghost use Rattle.hy_base.specs.Shape.{quorum_size};
ghost use Rattle.hy_record.specs.Stamp.{Timestamp};
ghost use Rattle.hy_protocol.specs.declared.plan.GetPlan.{GetPlan};
ghost use Rattle.hy_protocol.specs.Read.{version_of, read_reply, valid_picks, refresh_count};
ghost use Rattle.hy_protocol.specs.Turns.{get_turn};
ghost use Rattle.hy_get.specs.Laws.{follows, value_reply, HasEnough, IsRebuilt, refreshes_since, version_count, requests_upon_answers};

/// A get that follows a record and has no reply holds valid answers of fewer clouds than the record has parts.
pub fn gets_await_fragments()
    ensures { (inputs since : List Cue) (r : RecordValue) → version_of inputs ≡ follows r since → read_reply inputs ≡ None → length (valid_picks r since) < r.k }
{}

/// A get that holds valid answers of as many clouds as the record that it follows has parts replies with the value that they rebuild, at the step at which it first does.
pub fn gets_reply_at_enough_fragments()
    ensures { (plan : GetPlan) (inputs since : List Cue) (cue : Cue) (r : RecordValue) → HasEnough plan inputs cue r since → (get_turn plan (cue ∷ inputs)).reply ≡ Some (value_reply r since) }
{}

/// The value that a get replies was rebuilt from fragments that the hashes of its record verify.
pub fn replied_values_are_verified()
    ensures { (inputs : List Cue) (value : List ℕ) (stamp : Timestamp) → read_reply inputs ≡ Some (told.Value value stamp) → IsRebuilt inputs value stamp }
{}

/// A get asks for the record again at most once for each version that it followed.
pub fn gets_refresh_once()
    ensures version { (rec : Option RecordValue) (since : List Cue) → refreshes_since rec since ≤ 1 }
    ensures all { (inputs : List Cue) → refresh_count inputs ≤ version_count inputs }
{}

/// The requests to clouds that a get sends upon answers of clouds, unreadable ones among them, since it follows a record are at most the record's faults and its quorum.
pub fn requests_upon_answers_are_few()
    ensures { (plan : GetPlan) (inputs since : List Cue) (r : RecordValue) → IsRecord r → version_of inputs ≡ follows r since → requests_upon_answers plan inputs ≤ r.f + quorum_size r.f r.k }
{}
