// A whole picture from one frame to another.
ghost use Rattle.std.specs.Prelude.{◌≡◌, ◌<◌};
ghost use Rattle.multibuf.specs.Owners.{copied};

use frame::Frame;
use frame::laws::{changes_only_there, pictures_equal_by_points};

/// Copies all points. Both frames have the same sides.
pub(crate) fn copy_all(to: &mut Frame, from: &Frame)
    requires width { from.now.picture.width ≡ to.old.picture.width }
    requires height { from.now.picture.height ≡ to.old.picture.height }
    ensures { to.new ≡ copied from.now.picture to.old }
{
    changes_only_there();
    pictures_equal_by_points();
    let _writes = to.writes();
    let width = from.width();
    let last = to.width() - 1;
    for y in 0..from.height() {
        to.copy_span(from, y, 0, last);
    }
    prove!(width > last);
}
