// The answers of file and of enter, which files with the verdict that judging gives.
ghost use Rattle.std.specs.Prelude.{◌≡◌, not};
ghost use Rattle.sums.specs.Refusals.{first};
ghost use Rattle.judging.specs.Judging.{found_in, judged_of, same as same_verdict};
ghost use Rattle.campaign.specs.Calls.{given_checks, shown_as, shown_to, file_outcome, enter_outcome};

use crate::Entered;
use crate::days::check_day;
use crate::settling::{refused, settle};
use finding::Finding;
use judging::Judged;
use judging::listening::hear;
use judging::verdicts::{judged_of, same};
use nights::Night;
use records::Campaign;
use refusals::Refusal;

// Whether a verdict was handed in and is not that of the finding.
fn contradicts(shown: Option<Judged>, found: Finding) -> bool
    ensures { result ≡ not (same_verdict (shown_as (judged_of found) shown) (judged_of found)) }
{
    match shown {
        None => false,
        Some(verdict) => !same(verdict, judged_of(found)),
    }
}

// A day's night that was heard and found to be this, filed by what was shown of it, refusing 11, 23, and 12 after the verdict.
fn file_found(
    c: Campaign,
    store: &mut [i32],
    sums: &mut [i64],
    d: u32,
    night: Night,
    y: &[i32],
    shown: Option<Judged>,
    found: Finding,
) -> Entered
    requires { (first (given_checks c store.old sums.old d night y.now) ≡ 0) × (found ≡ found_in c.order night y.now) }
    ensures { (result, store.new, sums.new) ≡ file_outcome c store.old sums.old d night y.now (shown_to c night y.now shown) }
{
    if c.day_stands(d) {
        return refused(c, d, Refusal::Standing);
    }
    if contradicts(shown, found) {
        return refused(c, d, Refusal::Verdict);
    }
    settle(c, store, sums, d, night, y, found)
}

// A day's night filed by the verdict that was shown of it, or by judging's own where none was, refusing 15, 10, 18, 5, 7, 11, 23, and 12 after the verdict.
pub fn file_shown(
    c: Campaign,
    store: &mut [i32],
    sums: &mut [i64],
    d: u32,
    night: Night,
    y: &[i32],
    shown: Option<Judged>,
) -> Entered
    ensures { (result, store.new, sums.new) ≡ file_outcome c store.old sums.old d night y.now (shown_to c night y.now shown) }
{
    if let Err(refusal) = check_day(&c, store, sums, d) {
        return refused(c, d, refusal);
    }
    match hear(c.order, night, y) {
        Err(refusal) => refused(c, d, refusal),
        Ok(found) => file_found(c, store, sums, d, night, y, shown, found),
    }
}

// A day's night filed with the verdict that was shown of it, refusing 15, 10, 18, 5, 7, 11, 23, and 12 after the verdict.
pub fn file(
    c: Campaign,
    store: &mut [i32],
    sums: &mut [i64],
    d: u32,
    night: Night,
    y: &[i32],
    verdict: Judged,
) -> Entered
    ensures { (result, store.new, sums.new) ≡ file_outcome c store.old sums.old d night y.now verdict }
{
    file_shown(c, store, sums, d, night, y, Some(verdict))
}

// A day's night judged and filed in one call, refusing 15, 10, 18, 5, 7, 11, and 12 after the verdict.
pub fn enter(
    c: Campaign,
    store: &mut [i32],
    sums: &mut [i64],
    d: u32,
    night: Night,
    y: &[i32],
) -> Entered
    ensures { (result, store.new, sums.new) ≡ enter_outcome c store.old sums.old d night y.now }
{
    file_shown(c, store, sums, d, night, y, None)
}
