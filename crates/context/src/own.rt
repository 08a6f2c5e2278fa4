ghost use Rattle.std.specs.Prelude.{◌≡◌, ◌↔◌, [], length, IsErr, OnOk, OnErr};
ghost use Rattle.std.specs.Borrow.{sem};

use crate::context::Context;
use crate::refused::{ContextDepth, NoContext};
use arrayvec::ArrayVec;
use std::marker::Model;

/// How many contexts a task can have saved.
const MOST_SAVED: usize = 8;

/// The context of one task, and those that it saved.
#[derive(Drop)]
pub(crate) struct Own {
    context: Context,
    saved: ArrayVec<Context, MOST_SAVED>,
}

impl Model for Own {
    ghost use Rattle.std.specs.Prelude.{reverse};
    ghost use Rattle.context.specs.Contexts.{Owned};

    ghost Value = { Owned };

    ghost view = { λ o. record { context = o.context; saved = reverse o.saved.items } };
}

impl Default for Own {
    ghost use Rattle.context.specs.Contexts.{first_owned};

    ghost is_default = { λ own. own ≡ first_owned };

    fn default() -> Own {
        Own {
            context: Context::default(),
            saved: ArrayVec::new(),
        }
    }
}

impl Own {
    ghost use Rattle.context.specs.Contexts.{after_save, after_restore};
    ghost use Rattle.context.specs.Lending.{LendsContext};

    pub(crate) fn context(&self) -> &Context
        ensures { result.now ≡ self.now.context }
    {
        &self.context
    }

    pub(crate) fn context_mut(&mut self) -> &mut Context
        ensures* written { sem 𝓛 (LendsContext self.entry result) }
        ensures value { result.now ≡ self.old.context }
    {
        &mut self.context
    }

    // Refused where the task has the most contexts saved.
    pub(crate) fn save(&mut self) -> Result<(), ContextDepth>
        ensures refused { IsErr result ↔ (length self.old.saved ≡ 8) }
        ensures unchanged { OnErr result (self.new ≡ self.old) }
        ensures saved { OnOk result (self.new ≡ after_save self.old) }
    {
        if self.saved.is_full() {
            return Err(ContextDepth);
        }
        self.saved.push(self.context);
        Ok(())
    }

    // Refused where the task has none saved.
    pub(crate) fn restore(&mut self) -> Result<(), NoContext>
        ensures refused { IsErr result ↔ (self.old.saved ≡ []) }
        ensures unchanged { OnErr result (self.new ≡ self.old) }
        ensures restored { OnOk result (self.new ≡ after_restore self.old) }
    {
        let Some(last) = self.saved.pop() else {
            return Err(NoContext);
        };
        self.context = last;
        Ok(())
    }
}
