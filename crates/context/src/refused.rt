use thiserror::Error;

/// The task has 8 contexts saved.
#[derive(Clone, Copy, Debug, PartialEq, Eq, Error)]
#[error("8 contexts are saved")]
pub struct ContextDepth;

/// The task has no context saved.
#[derive(Clone, Copy, Debug, PartialEq, Eq, Error)]
#[error("no context is saved")]
pub struct NoContext;
