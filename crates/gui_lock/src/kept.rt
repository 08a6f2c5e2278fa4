ghost use Rattle.std.specs.Prelude.{◌≡◌, ℕ, ◌^◌, ◌<◌, ◌≤◌, ◌++◌, List, length, Bool};
ghost use Rattle.gui_lock.specs.declared.entry.Entry.{Entry};
ghost use Rattle.gui_lock.specs.Entries.{Outcome, Applied, AreMarks};

/// A value that a lock keeps. It stands for a history: the list of the calls that were applied to
/// it and of marks, which it adds by itself.
///
/// A call's reply is a function of the history so far, so what the passes are answered can be told
/// from the history alone.
pub trait Kept {
    type Call;

    type Reply;

    /// What a call reads and writes beside the value, as a buffer of its caller's.
    type Room;

    /// A question that can be put to the value.
    type Ask: Copy;

    /// What stays the same over all calls, as a configuration. No call gives it: it is for
    /// contracts alone.
    type Kind;

    /// The history that the value stands for, oldest entry first.
    ghost entries: { Self → List (Entry Self.Call) };

    /// The value's kind.
    ghost kind: { Self → Self.Kind };

    /// Whether a value of this kind may be handed this call, by the actor of this number and with
    /// this room.
    ghost may_apply: { Self.Kind → ℕ → Self.Call → Self.Room → Type 0 };

    /// Whether a reply says that memory was wanting.
    ghost is_memory: { Self.Reply → Bool };

    /// Whether a call may need memory. To no other call is the reply that memory was wanting.
    ghost may_want: { Self.Call → Bool };

    /// What a call of an actor is answered after a history, for a value of this kind and with this
    /// room: whether it becomes an entry, its reply, and what the room holds then. It holds
    /// wherever the reply isn't that memory was wanting.
    ghost gives: { Self.Kind → ℕ → Self.Call → Self.Room → List (Entry Self.Call) →
        Outcome Self.Reply Self.Room };

    /// How much a room can hold. No call makes it less.
    ghost reach: { Self.Room → ℕ };

    /// Whether a question is answered yes after a history, by a value of this kind.
    ghost answers: { Self.Kind → Self.Ask → List (Entry Self.Call) → Bool };

    /// How many entries the history has.
    fn len(&self) -> usize
        ensures { result ≡ length (entries self.now) };

    /// Adds marks, and then the call as an entry of that actor, or no entry.
    fn apply(&mut self, actor: u16, call: &Self::Call, room: &mut Self::Room) -> Self::Reply
        requires { may_apply (kind self.old) actor call.now room.old }
        ensures kind { kind self.new ≡ kind self.old }
        ensures reach { reach room.old ≤ reach room.new }
        ensures outcome { Applied (gives (kind self.old) actor call.now room.old)
            (is_memory result) (may_want call.now) actor call.now
            (entries self.old) (entries self.new) result room.old room.new };

    /// Adds marks, and answers the question after them.
    fn ask(&mut self, ask: Self::Ask) -> bool
        ensures kind { kind self.new ≡ kind self.old }
        ensures marks { (marks : List (Entry Self.Call)) × AreMarks marks
            × (entries self.new ≡ entries self.old ++ marks)
            × (result ≡ answers (kind self.old) ask (entries self.new)) };

    /// Every value's history is short.
    ghost short: { (s : Self) → length (entries s) < 2 ^ 62 };
}
