// The scan for a rail.
ghost use Rattle.std.specs.Prelude.{◌≡◌};
ghost use Rattle.finding.specs.Finding.{rail_of, some_loud};

use samples::range::{at_rail, least_of, most_of, some_beyond};

// The first place at a rail, or none.
fn first_rail(y: &[i32]) -> Option<usize>
    ensures { result ≡ rail_of y.now }
{
    for (j, &x) in y.iter().enumerate() {
        if at_rail(x) {
            return Some(j);
        }
    }
    None
}

// Whether some sample is at a rail or beyond one.
pub fn some_loud(y: &[i32]) -> bool
    ensures { result ≡ some_loud y.now }
{
    some_beyond(least_of(1), most_of(1), y)
}

// The first place at a rail, or none, asked of all samples at once first, so that a recording at no rail is not gone through one by one.
pub fn find_rail(y: &[i32]) -> Option<usize>
    ensures { result ≡ rail_of y.now }
{
    if some_loud(y) {
        return first_rail(y);
    }
    None
}
