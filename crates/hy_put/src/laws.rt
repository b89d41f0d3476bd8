//! Laws of every put, above the definitions: each is a function without a body that ensures it.

ghost use Rattle.std.specs.Prelude.{◌≡◌, ◌∷◌, ◌++◌, ℕ, List, Some, true, Contains, is_some};
ghost use Rattle.hy_base.specs.Shape.{IsShape};
ghost use Rattle.hy_record.specs.Record.{RecordValue};
ghost use Rattle.hy_record.specs.declared.message.MetaAsk.TheVariants as asks;
ghost use Rattle.hy_record.specs.declared.turn.Cue.{Cue};
ghost use Rattle.hy_record.specs.declared.turn.Out.TheVariants as outs;
ghost use Rattle.hy_protocol.specs.declared.plan.PutPlan.{PutPlan};
ghost use Rattle.hy_protocol.specs.Inputs.{inputs_for};
ghost use Rattle.hy_protocol.specs.Turns.{put_turn, quiet_turn};
ghost use Rattle.hy_put.specs.Updates.{IsRecordOfPut};

/// An update that a put sends lists exactly a quorum of clouds, each of which acknowledged this write's timestamp, and its hashes are those of the fragments of the put's value.
pub fn updates_list_those_that_acknowledged()
    ensures { (plan : PutPlan) (inputs : List Cue) (value : List ℕ) (r : RecordValue) →
        IsShape plan.f plan.k → plan.value ≡ Some value →
        Contains (put_turn plan inputs).sends (outs.Meta (asks.Update plan.client plan.op plan.key r)) →
        IsRecordOfPut plan value (inputs_for plan.client plan.op plan.key inputs) r }
{}

/// After its reply a put sends and replies nothing, whatever it is handed.
pub fn nothing_follows_the_reply()
    ensures { (plan : PutPlan) (cue : Cue) (later before : List Cue) →
        is_some (put_turn plan before).reply ≡ true →
        put_turn plan (cue ∷ later ++ before) ≡ quiet_turn }
{}
