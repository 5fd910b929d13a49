//! Each public call of windows.

use s4_types::Moment;
use s4_window::Window;

enum Step {
    /// A window of so many ticks is set at a moment.
    Set(u64, u64),
    /// At a moment this is the horizon.
    Horizon(u64, u64),
}

/// What is done with a window of 50 ticks.
const STEPS: [Step; 11] = [
    Step::Horizon(49, 0),
    Step::Horizon(50, 0),
    Step::Horizon(100, 50),
    Step::Set(100, 1000),
    Step::Horizon(101, 50),
    Step::Horizon(1050, 50),
    Step::Horizon(1051, 51),
    Step::Set(1060, 10),
    Step::Horizon(1060, 1050),
    Step::Horizon(1070, 1060),
    Step::Horizon(u64::MAX, u64::MAX - 10),
];

#[test]
fn the_horizon_never_goes_back(rt: HostRuntime) {
    let mut window = Window::new(50);
    for (index, step) in STEPS.iter().enumerate() {
        match *step {
            Step::Set(moment, ticks) => window.set(Moment::new(moment), ticks),
            Step::Horizon(moment, wanted) => {
                let horizon = window.horizon(Moment::new(moment)).tick();
                assert_eq!(rt; horizon, wanted, "step {index}");
            }
        }
    }
}
