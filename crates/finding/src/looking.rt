// The finding of a recording.
ghost use Rattle.std.specs.Prelude.{◌≡◌, None};
ghost use Rattle.finding.specs.Finding.{rail_of, finding};

use crate::Finding;
use crate::rails::find_rail;
use crate::spread::is_still;

// Of a recording at no rail: dead, otherwise kept.
pub fn look_clear(y: &[i32]) -> Finding
    requires { rail_of y.now ≡ None }
    ensures { result ≡ finding y.now }
{
    if is_still(y) {
        return Finding::Dead;
    }
    Finding::Kept
}

// Overloaded, otherwise dead, otherwise kept.
pub fn look(y: &[i32]) -> Finding
    ensures { result ≡ finding y.now }
{
    match find_rail(y) {
        Some(p) => Finding::Overloaded(p),
        None => look_clear(y),
    }
}
