// Verdicts before anything is filed: that of a finding, and whether two are the same.
ghost use Rattle.std.specs.Prelude.{◌≡◌};
ghost use Rattle.judging.specs.Judging.{judged_of, same as same_verdict};

use crate::Judged;
use finding::Finding;

// The verdict of a finding.
pub fn judged_of(found: Finding) -> Judged
    ensures { result ≡ judged_of found }
{
    match found {
        Finding::Overloaded(p) => Judged::Overloaded(p),
        Finding::Dead => Judged::Dead,
        Finding::Kept => Judged::Kept,
    }
}

// Whether two are the same, in their case and in what they carry.
pub fn same(one: Judged, other: Judged) -> bool
    ensures { result ≡ same_verdict one other }
{
    one == other
}
