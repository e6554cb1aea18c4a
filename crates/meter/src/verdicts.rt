// The cases of a campaign's answers as numbers, and a verdict that comes back as such.
ghost use Rattle.std.specs.Prelude.{◌≡◌};
ghost use Rattle.sums.specs.Refusals.{meant};
ghost use Rattle.campaign.specs.Calls.{verdict_means};
ghost use Rattle.refusals.specs.Causes.{means, numbered};
ghost use Rattle.trend.specs.Calls.{summary_means};
ghost use Rattle.meter.specs.Doors.{judged_means, pair_says};

use campaign::Verdict;
use judging::Judged;
use records::{DEAD, OVERLOADED, STANDING};
use refusals::Refusal;
use trend::{Summary, Tally};

// The answer; the state that the verdict gives the day, and the verdict's value, where it is lent.
pub fn write_verdict(verdict: Verdict, state: &mut u32, value: &mut usize) -> u32
    ensures { (result, (state.new, value.new)) ≡ meant (state.old, value.old) (verdict_means verdict) }
{
    match verdict {
        Verdict::Kept(s) => {
            *state = STANDING as u32;
            *value = s;
            0
        }
        Verdict::Overloaded(p) => {
            *state = OVERLOADED as u32;
            *value = p;
            0
        }
        Verdict::Dead => {
            *state = DEAD as u32;
            *value = 0;
            0
        }
        Verdict::Refused(n) => n,
    }
}

// The same of a verdict before anything is filed, which has no slot.
pub fn write_judged(verdict: Judged, state: &mut u32, value: &mut usize) -> u32
    ensures { (result, (state.new, value.new)) ≡ meant (state.old, value.old) (judged_means verdict) }
{
    match verdict {
        Judged::Kept => {
            *state = STANDING as u32;
            *value = 0;
            0
        }
        Judged::Overloaded(p) => {
            *state = OVERLOADED as u32;
            *value = p;
            0
        }
        Judged::Dead => {
            *state = DEAD as u32;
            *value = 0;
            0
        }
        Judged::Refused(n) => n,
    }
}

// The verdict that such a state and value say. A pair that says none becomes one that judging gives to no night that may be filed.
pub fn verdict_said(state: u32, value: usize) -> Judged
    ensures { result ≡ pair_says state value }
{
    if state == OVERLOADED as u32 {
        return Judged::Overloaded(value);
    }
    if value != 0 {
        return Judged::Refused(Refusal::Verdict.number());
    }
    if state == STANDING as u32 {
        return Judged::Kept;
    }
    if state == DEAD as u32 {
        return Judged::Dead;
    }
    Judged::Refused(Refusal::Verdict.number())
}

// The answer; the days in each state where they are lent.
pub fn write_counts(
    counts: Result<Tally, Refusal>,
    unseen: &mut u32,
    standing: &mut u32,
    overloaded: &mut u32,
    dead: &mut u32,
    withdrawn: &mut u32,
) -> u32
    ensures { (result, record { unseen = unseen.new; standing = standing.new; overloaded = overloaded.new; dead = dead.new; withdrawn = withdrawn.new })
        ≡ meant (record { unseen = unseen.old; standing = standing.old; overloaded = overloaded.old; dead = dead.old; withdrawn = withdrawn.old })
        (means (numbered counts)) }
{
    match counts {
        Ok(t) => {
            *unseen = t.unseen;
            *standing = t.standing;
            *overloaded = t.overloaded;
            *dead = t.dead;
            *withdrawn = t.withdrawn;
            0
        }
        Err(refusal) => refusal.number(),
    }
}

// The answer; whether some day stands, and the levels, where they are lent.
pub fn write_summary(
    summary: Summary,
    stands: &mut u32,
    highest: &mut f64,
    lowest: &mut f64,
    peak: &mut f64,
) -> u32
    ensures { (result, (stands.new, record { highest = highest.new; lowest = lowest.new; peak = peak.new }))
        ≡ meant (stands.old, record { highest = highest.old; lowest = lowest.old; peak = peak.old }) (summary_means summary) }
{
    match summary {
        Summary::Nothing => {
            *stands = 0;
            0
        }
        Summary::Measured(l) => {
            *stands = 1;
            *highest = l.highest;
            *lowest = l.lowest;
            *peak = l.peak;
            0
        }
        Summary::Refused(n) => n,
    }
}
