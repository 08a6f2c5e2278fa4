ghost use Rattle.std.specs.Prelude.{◌≡◌};
ghost use Rattle.gfx_base.specs.declared.point.Point.{Point};

use gfx_base::Point;

/// What takes points, one after the other.
pub trait Plot {
    /// What it stands for. No value of it is made.
    type State;

    ghost stands_for: { Self → Self.State };

    /// Which points may be put into it.
    ghost may_put: { Self.State → Point → Type 0 };

    /// What it stands for after a point was put.
    ghost after: { Self.State → Point → Self.State };

    /// Takes the point.
    fn put(&mut self, p: Point)
        requires { may_put (stands_for self.old) p }
        ensures { stands_for self.new ≡ after (stands_for self.old) p };

    /// No put changes which points may be put.
    ghost stays: { (s : Self.State) (p q : Point) → may_put s p → may_put (after s q) p };
}
