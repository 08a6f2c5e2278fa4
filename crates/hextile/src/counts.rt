//! How often values stand in a tile.

ghost use Rattle.std.specs.Prelude.{◌≡◌, ℕ, List, ◌==◌, ◌<◌, ◌≤◌, not, length, count_by, find, slice_index};
ghost use Rattle.hextile.specs.Encoding.{most_common};
ghost use Rattle.hextile.specs.Buckets.{bucket_of};
ghost use Rattle.hextile.specs.Rows.{HasPoint};

/// How many buckets there are.
const BUCKETS: usize = 1024;

/// The part of a product by it that tells a bucket depends on all bits of a value.
const SPREAD: u32 = 2_654_435_769;

/// The first value that is another one.
pub fn other_than(points: &[u32], a: u32) -> Option<u32>
    ensures { result ≡ find (λ x. not (x == a)) points.now }
{
    points.iter().copied().find(|x| *x != a)
}

/// How many points have a value.
pub fn count(points: &[u32], value: u32) -> usize
    requires { length points.now ≤ 256 }
    ensures value { result ≡ count_by (λ x. x == value) points.now }
    ensures within { result ≤ length points.now }
{
    let mut count: u32 = 0;
    for x in points {
        count += u32::from(*x == value);
    }
    count as usize
}

/// The value that most points have; of those with as many points the one whose first point comes
/// first. No other value has more points than one that half of them have, and the two values that
/// were counted last aren't counted again.
#[tactic(auto, using(crate::proofs::CountLemmas::steps))]
pub fn most_common(points: &[u32]) -> u32
    requires some { 0 < length points.now }
    requires few { length points.now ≤ 256 }
    ensures { result ≡ most_common points.now }
{
    let mut best = points[0];
    let mut most = count(points, best);
    let mut last = best;
    let mut before = best;
    for x in points {
        if *x != last && *x != before {
            if points.len() <= 2 * most {
                return best;
            }
            before = last;
            last = *x;
            let here = count(points, last);
            if most < here {
                best = last;
                most = here;
            }
        }
    }
    best
}

/// The bucket of a value.
#[tactic(auto, unfolding(crate::specs::Buckets::bucket_of))]
fn bucket(value: u32) -> usize
    ensures value { result ≡ bucket_of value }
    ensures within { result < 1024 }
{
    (value.wrapping_mul(SPREAD) >> 22) as usize
}

/// How many buckets the values of points lie in: at most as many as there are different values.
pub fn count_buckets(points: &[u32]) -> usize
    ensures few { (values : List ℕ)
        → ((k : ℕ) → k < length points.now → HasPoint values (slice_index points.now k))
        → result ≤ length values }
    ensures within { result ≤ length points.now }
{
    let mut taken = [false; BUCKETS];
    let mut count = 0;
    for x in points {
        let place = bucket(*x);
        if !taken[place] {
            taken[place] = true;
            count += 1;
        }
    }
    count
}
