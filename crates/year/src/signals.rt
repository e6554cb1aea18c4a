// A prediction that is too loud, and players that cannot step.

use crate::plan::Plan;
use crate::{Held, RECORDING};
use lines::answers::number_told;
use player::Player;
use player::clock::step_player;
use samples::HIGHEST_SAMPLE;

fn predict_line(rt: &impl Print, plan: Plan, out: &mut [i32]) {
    let mut h: [i32; RECORDING] = [0; RECORDING];
    h[0] = HIGHEST_SAMPLE;
    h[1] = HIGHEST_SAMPLE;
    let answer = prediction::predict(
        plan.opening.order,
        plan.opening.taps,
        &h[..plan.period],
        out,
    );
    let _ = println!(rt; "predict {}", number_told(answer));
}

fn step_line(rt: &impl Print, plan: Plan, window: u32) {
    let stepped = step_player(Player {
        order: plan.opening.order,
        taps: plan.opening.taps,
        window,
        count: 0,
    });
    let _ = println!(rt; "step {}", number_told(stepped.tick));
}

// A prediction and two players of the plan's order and taps, all refused.
pub fn refused_signals(rt: &impl Print, held: &mut Held, plan: Plan) {
    predict_line(rt, plan, &mut held.y);
    step_line(rt, plan, 0);
    step_line(rt, plan, plan.period as u32 + 1);
}
