// A campaign of 732 visits.
ghost use Rattle.std.specs.Prelude.{◌≤◌, ◌<◌};
ghost use Rattle.year.specs.Lent.{visits};

use crate::calls::{ask, enter_line, start_line, withdraw_line};
use crate::memory::filled;
use crate::plan::Plan;
use crate::recordings::{day_of, length_of, night_of, record};
use crate::refusing::{REFUSED_VISIT, be_refused};
use crate::{Held, PLACES, STORE};
use records::filing::blank;
use rounding::AWAY_FROM_ZERO;

const VISITS: usize = 732;

// The recording of visit i entered, now and then twice.
fn enter_night(rt: &impl Print, held: &mut Held, plan: Plan, i: usize)
    requires { i < visits }
{
    let d = day_of(i);
    let night = night_of(i, plan.most);
    let length = length_of(plan, i);
    record(held, plan, i);
    enter_line(rt, held, d, night, length);
    if i % 13 == 5 {
        enter_line(rt, held, d, night, length);
    }
}

// A visit: its night, the day of the visit that lies so far back withdrawn, and at some visits the answers or every refusal.
fn visit(rt: &impl Print, held: &mut Held, plan: Plan, i: usize)
    requires { i < visits }
{
    enter_night(rt, held, plan, i);
    if plan.lag <= i {
        withdraw_line(rt, held, day_of(i - plan.lag));
    }
    if i % 61 == 60 {
        ask(rt, held);
    }
    if i == REFUSED_VISIT {
        be_refused(rt, held, plan);
    }
}

fn all_visits(rt: &impl Print, held: &mut Held, plan: Plan) {
    for i in 0..VISITS {
        visit(rt, held, plan, i);
    }
}

// The days of the last visits, withdrawn.
fn last_withdrawals(rt: &impl Print, held: &mut Held, lag: usize)
    requires { lag ≤ visits }
{
    for i in VISITS - lag..VISITS {
        withdraw_line(rt, held, day_of(i));
    }
}

// The planned campaign on filled memory, its record begun.
fn started(rt: &impl Print, plan: Plan) -> Held {
    let opening = plan.opening;
    let mut held = filled(blank(
        opening.order,
        opening.taps,
        opening.capacity,
        AWAY_FROM_ZERO,
    ));
    start_line(rt, &mut held, opening, STORE, PLACES);
    held
}

// The planned campaign, from its start to its last answer.
pub fn campaign_lines(rt: &impl Print, plan: Plan) {
    let mut held = started(rt, plan);
    ask(rt, &mut held);
    all_visits(rt, &mut held, plan);
    last_withdrawals(rt, &mut held, plan.lag);
    ask(rt, &mut held);
}
