//! Laws of frames and of streams of them, above the definitions: each is a function without a body that ensures it.

ghost use Rattle.std.specs.Prelude.{◌≡◌, ◌≤◌, ◌↔◌, ◌++◌, ℕ, List, Ok, Some, length, take, drop};
ghost use Rattle.hy_mwire.specs.declared.message.Message.{Message};
ghost use Rattle.hy_mwire.specs.declared.fault.FrameFault.{FrameFault};
ghost use Rattle.hy_mwire.specs.Message.{IsFramed, IsMessage};
ghost use Rattle.hy_mwire.specs.Frames.{frame_of};
ghost use Rattle.hy_mwire.specs.Front.{partial, message, fault, front_at, AreBytes, IsPartial, IsFault};
ghost use Rattle.hy_mwire.specs.Stream.{Unread, next_answer, StandsFor};

/// A frame is read as its message whatever follows it, and nothing but its frame is read as a message.
pub fn frames_are_read_back()
    ensures again { (place : ℕ) (said : Message) (rest : List ℕ) → IsMessage said → front_at place (frame_of said ++ rest) ≡ message said (length (frame_of said)) }
    ensures only { (place : ℕ) (bytes : List ℕ) (said : Message) (size : ℕ) → AreBytes bytes → front_at place bytes ≡ message said size
        → IsMessage said × (size ≡ length (frame_of said)) × (bytes ≡ frame_of said ++ drop size bytes) }
{}

/// No frame begins another.
pub fn frames_are_apart()
    ensures { (a b : Message) (x y : List ℕ) → IsMessage a → IsMessage b → frame_of a ++ x ≡ frame_of b ++ y → (a ≡ b) × (x ≡ y) }
{}

/// Nothing stands in front exactly where the bytes are too few for a length, or for a length that a frame may have and what it says.
pub fn short_frames_wait()
    ensures { (place : ℕ) (bytes : List ℕ) → (front_at place bytes ≡ partial) ↔ IsPartial bytes }
{}

/// A fault stands in front exactly where the frame there has it.
pub fn faults_are_of_their_frame()
    ensures { (place : ℕ) (bytes : List ℕ) (wrong : FrameFault) → AreBytes bytes → (front_at place bytes ≡ fault wrong) ↔ IsFault place bytes wrong }
{}

/// What stands in front stays there, whatever follows.
pub fn fronts_stay()
    ensures message { (place : ℕ) (bytes more : List ℕ) (said : Message) (size : ℕ) → front_at place bytes ≡ message said size → front_at place (bytes ++ more) ≡ message said size }
    ensures fault { (place : ℕ) (bytes more : List ℕ) (wrong : FrameFault) → front_at place bytes ≡ fault wrong → front_at place (bytes ++ more) ≡ fault wrong }
{}

/// One stream is read in one way, however it was cut.
pub fn cuts_do_not_matter()
    // The reader that gave fewer messages gave the first of those that the other gave.
    ensures messages { (taken : List ℕ) (a b : List Message) (x y : Unread) → StandsFor taken a x → StandsFor taken b y → length a ≤ length b → a ≡ take (length a) b }
    // After the same messages they answer the same.
    ensures answers { (taken : List ℕ) (said : List Message) (x y : Unread) → StandsFor taken said x → StandsFor taken said y → next_answer x ≡ next_answer y }
{}

/// No swap is read, and no answer to one.
pub fn no_swap_is_read()
    ensures { (unread : Unread) (said : Message) → next_answer unread ≡ Ok (Some said)
        → IsFramed said }
{}
