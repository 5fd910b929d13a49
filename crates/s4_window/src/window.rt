//! The detection window in force, and the horizon.

ghost use Rattle.std.specs.Prelude.{◌≡◌, ◌≤◌, ℕ};
ghost use Rattle.s4_types.specs.Horizon.{horizon_of, windowed};

use s4_types::Moment;
use std::marker::Model;

/// The detection window in ticks, and the floor below which the horizon doesn't go any more
/// (docs/MODEL.md, "The horizon"). Takes no memory.
#[derive(Clone, Copy)]
pub struct Window {
    ticks: u64,
    floor: Moment,
}

impl Model for Window {
    ghost use Rattle.s4_types.specs.Horizon.{Guarded};

    ghost Value = { Guarded };

    ghost view = { λ w. record { window = w.ticks; floor = w.floor } };

    ghost inverse = { λ g. record { ticks = g.window; floor = g.floor } };
}

impl Window {
    /// A window of so many ticks, from moment 0 on.
    pub fn new(ticks: u64) -> Window
        ensures { result ≡ record { window = ticks; floor = 0 } }
    {
        Window {
            ticks,
            floor: Moment::new(0),
        }
    }

    /// How many ticks the window has.
    pub fn ticks(&self) -> u64
        ensures { result ≡ self.now.window }
    {
        let window = *self;
        window.ticks
    }

    /// The moment below which the horizon doesn't go any more.
    pub fn floor(&self) -> Moment
        ensures { result ≡ self.now.floor }
    {
        let window = *self;
        window.floor
    }

    /// The horizon at the moment: nothing is told of the moments below it. It is as many ticks
    /// before the moment as the window has, and never below the floor.
    pub fn horizon(&self, moment: Moment) -> Moment
        ensures value { result ≡ horizon_of self.now moment }
        ensures later { (u : ℕ) → moment ≤ u → result ≤ horizon_of self.now u }
    {
        let guaranteed = Moment::new(moment.tick().saturating_sub(self.ticks));
        self.floor.max(guaranteed)
    }

    /// A window of so many ticks from the moment on. The horizon never goes back: what the earlier
    /// window had given up by then stays given up.
    pub fn set(&mut self, moment: Moment, ticks: u64)
        ensures value { self.new ≡ windowed moment ticks self.old }
        ensures never_back { (s u : ℕ) → s ≤ moment → moment ≤ u → horizon_of self.old s ≤ horizon_of self.new u }
    {
        self.floor = self.horizon(moment);
        self.ticks = ticks;
    }
}
