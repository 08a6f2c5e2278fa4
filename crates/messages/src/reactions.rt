//! What the reactions of a class do at a message.

ghost use Rattle.std.specs.Prelude.{◌≡◌};
ghost use Rattle.std.specs.List.{AllByRecursion};
ghost use Rattle.paint_ops.specs.declared.class.Reaction.{Reaction as Reacting};
ghost use Rattle.paint_ops.specs.Soundness.{IsReact};
ghost use Rattle.messages.specs.Reactions.{number_for, reacted, reactions_to};
ghost use Rattle.messages.specs.Reactions.{values_after, first_up};

use paint_ops::{Operand, React, Reaction};

/// The number that an operand stands for, where the message has this argument.
fn number_for(operand: Operand, argument: i16) -> i16
    ensures { result ≡ number_for argument operand }
{
    match operand {
        Operand::Const(number) => number,
        Operand::Argument => argument,
    }
}

/// Lets one reaction change the values. A sum stops at the ends of 16 bits.
fn react(values: &mut [i16; 16], reaction: React, argument: i16)
    requires { IsReact reaction }
    ensures { values.new ≡ reacted argument values.old reaction }
{
    match reaction {
        React::Set(i, operand) => values[usize::from(i)] = number_for(operand, argument),
        React::Add(i, operand) => {
            let sum = values[usize::from(i)].saturating_add(number_for(operand, argument));
            values[usize::from(i)] = sum;
        }
        React::Up(_) => {}
    }
}

/// What the values become by the reactions to a message.
pub(crate) fn values_after(
    reactions: &[Reaction],
    message: u8,
    argument: i16,
    values: &[i16; 16],
) -> [i16; 16]
    requires { AllByRecursion (λ (r : Reacting). IsReact r.react) reactions.now }
    ensures { result ≡ values_after argument (reactions_to message reactions.now) values.now }
{
    let mut after = *values;
    for reaction in reactions {
        if reaction.on == message {
            react(&mut after, reaction.react, argument);
        }
    }
    after
}

/// The message that the reactions to a message hand on: that of the first one that hands on any.
pub(crate) fn first_up(reactions: &[Reaction], message: u8) -> Option<u8>
    ensures { result ≡ first_up (reactions_to message reactions.now) }
{
    let mut first = None;
    for reaction in reactions {
        if reaction.on == message
            && let React::Up(up) = reaction.react
        {
            first = first.or(Some(up));
        }
    }
    first
}
