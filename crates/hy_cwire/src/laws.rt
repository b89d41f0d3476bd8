//! Laws of requests and answers in pieces: each is a function without a body that ensures it.

ghost use Rattle.std.specs.Prelude.{◌≡◌, ◌<◌, ◌^◌, ◌++◌, ℕ, List, Ok, Some};
ghost use Rattle.hy_record.specs.declared.cloud.Wish.{Wish};
ghost use Rattle.hy_record.specs.declared.cloud.CloudSay.{CloudSay};
ghost use Rattle.hy_cwire.specs.declared.kind.WishKind.{WishKind};
ghost use Rattle.hy_cwire.specs.declared.ask_head.AskHead.{AskHead};
ghost use Rattle.hy_cwire.specs.declared.say_head.SayHead.{SayHead};
ghost use Rattle.hy_cwire.specs.declared.progress.Progress.{Progress};
ghost use Rattle.hy_cwire.specs.Stages.{IsOpen, next_answer};
ghost use Rattle.hy_cwire.specs.Asks.{wish_in};
ghost use Rattle.hy_cwire.specs.Says.{say_in};
ghost use Rattle.hy_cwire.specs.Readers.{IsAskAt, IsSayAt};
ghost use Rattle.hy_cwire.specs.Writing.{IsSendable, IsSendableSay, IsAnswerTo, ask_bytes, say_bytes};

use crate::block::MAX_HEAD;

/// What the bytes of a request come to depends on them alone, however they were cut.
pub fn cuts_of_requests_do_not_matter()
    ensures { (bytes : List ℕ) (a b : Progress AskHead) → IsOpen a → IsOpen b
        → IsAskAt bytes a → IsAskAt bytes b → a ≡ b }
{}

/// What the bytes of an answer come to depends on them alone, however they were cut.
pub fn cuts_of_answers_do_not_matter()
    ensures { (bytes : List ℕ) (a b : Progress SayHead) → IsOpen a → IsOpen b
        → IsSayAt bytes a → IsSayAt bytes b → a ≡ b }
{}

/// A request that was written is read as itself, whatever follows it and however it was cut.
pub fn written_requests_are_read_back()
    ensures { (wish : Wish) (port : ℕ) (behind : List ℕ) (at : Progress AskHead)
        → IsSendable wish → port < 2 ^ 16 → IsOpen at
        → IsAskAt (ask_bytes wish port ++ behind) at
        → next_answer wish_in at ≡ Ok (Some wish) }
{}

/// An answer that was written is read as itself by those who asked what it answers, whatever follows
/// it and however it was cut.
pub fn written_answers_are_read_back()
    ensures { (asked : WishKind) (say : CloudSay) (behind : List ℕ) (at : Progress SayHead)
        → IsSendableSay say → IsAnswerTo asked say → IsOpen at
        → IsSayAt (say_bytes say ++ behind) at
        → next_answer (say_in asked) at ≡ Ok (Some say) }
{}

/// The limit has this number: a clause that cites it by its name speaks of no other.
pub fn limits_have_these_numbers()
    ensures head { MAX_HEAD ≡ 8192 }
{}
