use crate::call::Call;

/// What the core's history is a list of. Takes at most 96 bytes.
#[derive(Clone, Copy, Debug, PartialEq, Eq)]
pub enum Entry {
    /// A call, and the number of the actor that made it.
    Call { actor: u16, call: Call },
    /// The display showed what the switch of this number asked for.
    Shown { switch: u32 },
}
