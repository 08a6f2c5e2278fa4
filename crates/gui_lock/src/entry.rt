/// An entry of a history: a call with the actor that made it, or a mark, which is a pair of
/// numbers.
///
/// Histories are for contracts alone. No call of this crate makes one.
#[derive(Debug, Drop)]
pub enum Entry<C> {
    Made(u16, C),
    Mark(u32, u32),
}
