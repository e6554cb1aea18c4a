// The days' states and the slots' days, as the record has them.
ghost use Rattle.std.specs.Prelude.{◌≡◌, cond, not, ◌&&◌, ◌||◌, ◌-◌, ◌≤◌, eqb, ltb, leb, length, get_or};
ghost use Rattle.sums.specs.Lists.{every, many, seek};
ghost use Rattle.records.specs.Record.{stands, days_in, slot, free, periods_standing, slots_hold, states_hold, past_free, slots_stand, one_slot, periods_hold};

use crate::{Campaign, FREE, LAST_DAY, MOST_SLOTS, NO_PERIODS, STANDING, WITHDRAWN};
use nights::MOST_PERIODS;

// Whether a number is not 1 to the most.
pub fn outside(n: u32, most: u32) -> bool
    ensures { result ≡ ltb n 1 || ltb most n }
{
    !(1..=most).contains(&n)
}

// The first slot that holds this day, 0 for a free one, and the number of slots where there is none.
pub fn find(slots: &[u16], capacity: usize, day: u16) -> usize
    requires slots_len { length slots.now ≡ 64 }
    requires capacity_bound { capacity ≤ 64 }
    ensures { result ≡ seek (λ s. eqb (get_or slots.now s 0) day) capacity 0 }
{
    if let Some(s) = slots[..capacity].iter().position(|&held| held == day) {
        return s;
    }
    capacity
}

// Whether a slot with this day is free and has no periods, or has 1 to 16.
fn counted(day: u16, m: u8) -> bool
    ensures { result ≡ cond (eqb day 0) (eqb m 0) (leb 1 m && leb m 16) }
{
    if day == FREE {
        return m == NO_PERIODS;
    }
    1 <= m && m as u32 <= MOST_PERIODS
}

impl Campaign {
    // Whether a day from 1 to 366 stands.
    pub fn day_stands(&self, d: u32) -> bool
        requires { (1 ≤ d) × (d ≤ 366) }
        ensures { result ≡ stands self.now d }
    {
        self.days[d as usize - 1] == STANDING
    }

    // How many days are in this state. Each adds 1 or 0, so that the compiler takes many at a time.
    pub fn days_in(&self, q: u8) -> u32
        ensures { result ≡ days_in self.now q }
    {
        self.days.iter().map(|&state| u32::from(state == q)).sum()
    }

    // How many slots hold this day.
    fn slots_of(&self, day: u16) -> u32
        requires { self.now.capacity ≤ 64 }
        ensures { result ≡ many self.now.capacity (λ s. eqb (slot self.now s) day) }
    {
        self.slots[..self.capacity as usize]
            .iter()
            .map(|&held| u32::from(held == day))
            .sum()
    }

    // How many periods the slots have.
    pub fn periods_standing(&self) -> u32
        requires { self.now.capacity ≤ 64 }
        ensures { result ≡ periods_standing self.now }
    {
        self.periods[..self.capacity as usize]
            .iter()
            .map(|&m| u32::from(m))
            .sum()
    }

    // Whether every day's state is one of the five.
    fn states_hold(&self) -> bool
        ensures { result ≡ states_hold self.now }
    {
        self.days.iter().all(|&state| state <= WITHDRAWN)
    }

    // Whether every slot past those given out is free.
    fn past_free(&self) -> bool
        ensures { result ≡ past_free self.now }
    {
        self.slots
            .iter()
            .skip(self.capacity as usize)
            .all(|&day| day == FREE)
    }

    // Whether a slot with this day is free, or the day stands.
    fn free_or_stands(&self, day: u16) -> bool
        ensures { result ≡ eqb day 0 || (leb day 366 && stands self.now day) }
    {
        day == FREE || (day as u32 <= LAST_DAY && self.day_stands(day as u32))
    }

    // Whether every used slot names a standing day.
    fn slots_stand(&self) -> bool
        requires { self.now.capacity ≤ 64 }
        ensures { result ≡ slots_stand self.now }
    {
        self.slots[..self.capacity as usize]
            .iter()
            .all(|&day| self.free_or_stands(day))
    }

    // Whether a day does not stand, or has exactly one slot.
    fn idle_or_once(&self, d: u32) -> bool
        requires { (1 ≤ d) × (d ≤ 366) × (self.now.capacity ≤ 64) }
        ensures { result ≡ not (stands self.now d) || eqb (many self.now.capacity (λ s. eqb (slot self.now s) d)) 1 }
    {
        !self.day_stands(d) || self.slots_of(d as u16) == 1
    }

    // Whether every standing day has exactly one slot.
    fn one_slot(&self) -> bool
        requires { self.now.capacity ≤ 64 }
        ensures { result ≡ one_slot self.now }
    {
        for d in 1..=LAST_DAY {
            if !self.idle_or_once(d) {
                return false;
            }
        }
        true
    }

    // Whether every used slot has 1 to 16 periods, and every other none.
    fn periods_hold(&self) -> bool
        ensures { result ≡ periods_hold self.now }
    {
        self.slots
            .iter()
            .zip(&self.periods)
            .all(|(&day, &m)| counted(day, m))
    }

    // Whether the slots, their periods and the days' states hold together.
    pub fn filed_holds(&self) -> bool
        ensures { result ≡ slots_hold self.now && states_hold self.now && past_free self.now && slots_stand self.now && one_slot self.now && periods_hold self.now }
    {
        !outside(self.capacity, MOST_SLOTS)
            && self.states_hold()
            && self.past_free()
            && self.slots_stand()
            && self.one_slot()
            && self.periods_hold()
    }
}
