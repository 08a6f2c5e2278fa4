//! How drawing ends, and what the standard error is told of it.

ghost use Rattle.std.specs.Prelude.{◌≡◌, ◌⊎◌, ◌≤◌, length};
ghost use Rattle.std.specs.Process.{exit_status};
ghost use Rattle.outside.specs.Logs.{Whole, Broken};
ghost use Rattle.svg.specs.Endings.{status_of, reason_text, fault_line, plain_line, error_line};

use crate::fault::{Fault, Reason};
use crate::writing::ShortRoom;
use outside::Sink;
use std::process::ExitCode;

/// How drawing ended.
#[derive(Clone, Copy, Debug, PartialEq, Eq)]
pub enum Ending {
    /// The picture was drawn.
    Done,
    /// The words ask for nothing.
    Usage,
    /// The input doesn't tell the picture.
    NoPicture(Fault),
    /// The input could not be read.
    Input,
    /// The output could not be written.
    Output,
    /// Memory ran out.
    Memory,
}

fn status_of(ending: Ending) -> u8
    ensures { result ≡ status_of ending }
{
    match ending {
        Ending::Done => 0,
        Ending::Usage => 2,
        Ending::NoPicture(_) => 3,
        Ending::Input => 4,
        Ending::Output => 5,
        Ending::Memory => 9,
    }
}

fn reason_text(why: Reason) -> &'static [u8]
    ensures value { result.now ≡ reason_text why }
    ensures short { length result.now ≤ 60 }
{
    match why {
        Reason::Sides => b"no 'frame W H' of sides up to 1024 and 768",
        Reason::First => b"no row above",
        Reason::Row => b"no runs of as many points as the picture is wide",
        Reason::Cut => b"the input ends within a picture",
        Reason::Missing => b"no such picture",
    }
}

/// The line that tells a fault.
#[tactic(auto, unfolding(crate::specs::Endings::fault_line))]
fn fault_line(fault: Fault) -> ShortRoom
    ensures { result ≡ fault_line fault }
{
    let mut room = ShortRoom::new();
    room.push_bytes(b"frame-svg: fault ");
    room.push_number(fault.line);
    room.push_bytes(b" ");
    room.push_bytes(reason_text(fault.why));
    room.push_bytes(b"\n");
    room
}

/// What the standard error is told of an ending without a fault.
fn plain_line(ending: Ending) -> &'static [u8]
    ensures { result.now ≡ plain_line ending }
{
    match ending {
        Ending::Done | Ending::NoPicture(_) => b"",
        Ending::Usage => b"usage: frame-svg [NUMBER]\n",
        Ending::Input => b"frame-svg: input fault\n",
        Ending::Output => b"frame-svg: output fault\n",
        Ending::Memory => b"frame-svg: out of memory\n",
    }
}

/// The end of a process: it tells an ending other than `Done` in one line on the standard error,
/// and answers its exit status. Where that line can't be written, the count of faults rises.
pub fn end<K: Sink>(ending: Ending, err: &mut K) -> ExitCode
    ensures status { exit_status result ≡ status_of ending }
    ensures line { Whole (K.log err.old) (K.log err.new) (error_line ending)
        ⊎ Broken (K.log err.old) (K.log err.new) (error_line ending) }
{
    // Where this fails, the exit status still tells.
    let _ = match ending {
        Ending::NoPicture(fault) => err.write(fault_line(fault).line()),
        _ => err.write(plain_line(ending)),
    };
    ExitCode::from(status_of(ending))
}
