// An accepted register: its order and its taps, and the knowledge that the taps check accepts them.
ghost use Rattle.std.specs.Prelude.{◌≡◌, ◌^◌, ◌<◌};
ghost use Rattle.register.specs.Register.{P, step as step_of, window as window_of, tag as tag_of, tag-step as tag_step_of, Accepted};

use crate::doubling::{tag_at, window_at};
use crate::shift::{full_period, step, tag_step};

#[derive(Clone, Copy)]
pub struct Register {
    pub order: u32,
    pub taps: u32,
    pub ghost accepted: { Accepted order taps },
}

impl Register {
    // The register of an order and taps that are accepted.
    pub fn new(order: u32, taps: u32) -> Self
        requires { Accepted order taps }
        ensures order { result.order ≡ order }
        ensures taps { result.taps ≡ taps }
    {
        Register { order, taps }
    }

    // The full period, 2^order - 1.
    pub fn period(self) -> u32
        ensures { result ≡ P self.order }
    {
        full_period(self.order)
    }

    // The window one step on.
    pub fn step(self, window: u32) -> u32
        requires { window < 2 ^ self.order }
        ensures { result ≡ step_of self.order self.taps window }
    {
        step(self.order, self.taps, window)
    }

    // The tag of a delay one step longer.
    pub fn tag_step(self, tag: u32) -> u32
        requires { tag < 2 ^ self.order }
        ensures { result ≡ tag_step_of self.order self.taps tag }
    {
        tag_step(self.order, self.taps, tag)
    }

    // The window of a place.
    pub fn window_at(self, m: u32) -> u32
        requires { m < 2 ^ self.order }
        ensures { result ≡ window_of self.order self.taps m }
    {
        window_at(self.order, self.taps, m)
    }

    // The tag of a delay.
    pub fn tag_at(self, m: u32) -> u32
        requires { m < 2 ^ self.order }
        ensures { result ≡ tag_of self.order self.taps m }
    {
        tag_at(self.order, self.taps, m)
    }
}
