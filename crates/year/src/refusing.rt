// Every refusal that the visits do not bring, and what is just enough room.

use crate::calls::{
    answers, enter_line, memory_line, response_line, start_line, summary_line, withdraw_line,
};
use crate::plan::{Opening, Plan};
use crate::recordings::record;
use crate::signals::refused_signals;
use crate::{Held, PLACES, STORE, TAGS};
use nights::{MOST_PERIODS, Night};
use records::{LAST_DAY, MOST_SLOTS};
use register::{LEAST_ORDER, MOST_ORDER};
use samples::{HIGHEST_SAMPLE, LOWEST_SAMPLE};

// The visit at which all this happens, and whose recording is at hand.
pub const REFUSED_VISIT: usize = 365;

fn wrong_days(rt: &impl Print, held: &mut Held, plan: Plan) {
    enter_line(rt, held, 0, Night::Period, plan.period);
    enter_line(rt, held, LAST_DAY + 1, Night::Period, plan.period);
}

fn wrong_lengths(rt: &impl Print, held: &mut Held, plan: Plan) {
    enter_line(rt, held, 1, Night::Period, plan.period - 1);
    enter_line(rt, held, 1, Night::Period, plan.period + 1);
}

// Above the upper rail, and below the lower.
fn wrong_samples(rt: &impl Print, held: &mut Held, plan: Plan) {
    held.y[0] = HIGHEST_SAMPLE + 1;
    enter_line(rt, held, 1, Night::Period, plan.period);
    held.y[0] = LOWEST_SAMPLE - 1;
    enter_line(rt, held, 1, Night::Period, plan.period);
}

// No periods, and more than the most.
fn wrong_counts(rt: &impl Print, held: &mut Held, plan: Plan) {
    let beyond = Night::Capture(MOST_PERIODS + 1);
    enter_line(rt, held, 0, beyond, plan.period);
    enter_line(rt, held, 1, Night::Capture(0), plan.period);
    enter_line(rt, held, 1, beyond, plan.period);
}

// A sample less and a sample more, and as many as there must be, of which the first lies below the lower rail.
fn wrong_captures(rt: &impl Print, held: &mut Held, plan: Plan) {
    let one = Night::Capture(1);
    enter_line(rt, held, 1, one, 2 * plan.period - 1);
    enter_line(rt, held, 1, one, 2 * plan.period + 1);
    enter_line(rt, held, 1, one, 2 * plan.period);
}

fn wrong_entries(rt: &impl Print, held: &mut Held, plan: Plan) {
    wrong_days(rt, held, plan);
    wrong_lengths(rt, held, plan);
    wrong_samples(rt, held, plan);
    wrong_counts(rt, held, plan);
    wrong_captures(rt, held, plan);
}

fn wrong_withdrawals(rt: &impl Print, held: &mut Held) {
    withdraw_line(rt, held, 0);
    withdraw_line(rt, held, LAST_DAY + 1);
}

// Each room one short.
fn short_responses(rt: &impl Print, held: &mut Held, plan: Plan) {
    let short = plan.period - 1;
    response_line(rt, held, short, PLACES, PLACES, TAGS);
    response_line(rt, held, PLACES, short, PLACES, TAGS);
    response_line(rt, held, PLACES, PLACES, plan.period, TAGS);
    response_line(rt, held, PLACES, PLACES, PLACES, short);
}

fn short_summaries(rt: &impl Print, held: &mut Held, plan: Plan) {
    summary_line(rt, held, plan.period, TAGS);
    summary_line(rt, held, PLACES, plan.period - 1);
}

// Just as much as they need, which is accepted.
fn least_rooms(rt: &impl Print, held: &mut Held, plan: Plan) {
    response_line(
        rt,
        held,
        plan.period,
        plan.period,
        plan.period + 1,
        plan.period,
    );
    summary_line(rt, held, plan.period + 1, plan.period);
}

fn short_rooms(rt: &impl Print, held: &mut Held, plan: Plan) {
    short_responses(rt, held, plan);
    short_summaries(rt, held, plan);
    least_rooms(rt, held, plan);
}

// Calls with one more in sum 0, and then one less in it.
fn wrong_sums(rt: &impl Print, held: &mut Held, plan: Plan) {
    record(held, plan, REFUSED_VISIT);
    held.sums[0] = held.sums[0].wrapping_add(1);
    enter_line(rt, held, 1, Night::Period, plan.period);
    withdraw_line(rt, held, 1);
    answers(rt, held);
    held.sums[0] = held.sums[0].wrapping_sub(1);
}

fn wrong_orders(rt: &impl Print, held: &mut Held, plan: Plan) {
    for order in [LEAST_ORDER - 1, MOST_ORDER + 1] {
        start_line(
            rt,
            held,
            Opening {
                order,
                ..plan.opening
            },
            STORE,
            PLACES,
        );
    }
}

// Not below 2^N, with tap 0 clear, and of a register that is not maximal.
fn wrong_taps(rt: &impl Print, held: &mut Held, plan: Plan) {
    for taps in [plan.period as u32 + 1, 2, 1] {
        start_line(
            rt,
            held,
            Opening {
                taps,
                ..plan.opening
            },
            STORE,
            PLACES,
        );
    }
}

fn wrong_slots(rt: &impl Print, held: &mut Held, plan: Plan) {
    for capacity in [0, MOST_SLOTS + 1] {
        start_line(
            rt,
            held,
            Opening {
                capacity,
                ..plan.opening
            },
            STORE,
            PLACES,
        );
    }
}

// The store one short, and the sums.
fn short_starts(rt: &impl Print, held: &mut Held, plan: Plan) {
    let samples = plan.opening.capacity as usize * plan.period;
    start_line(rt, held, plan.opening, samples - 1, PLACES);
    start_line(rt, held, plan.opening, STORE, plan.period - 1);
}

fn wrong_starts(rt: &impl Print, held: &mut Held, plan: Plan) {
    wrong_orders(rt, held, plan);
    wrong_taps(rt, held, plan);
    wrong_slots(rt, held, plan);
    short_starts(rt, held, plan);
}

// All of them, in this order.
pub fn be_refused(rt: &impl Print, held: &mut Held, plan: Plan) {
    wrong_entries(rt, held, plan);
    wrong_withdrawals(rt, held);
    short_rooms(rt, held, plan);
    wrong_sums(rt, held, plan);
    wrong_starts(rt, held, plan);
    refused_signals(rt, held, plan);
    memory_line(rt, held);
}
