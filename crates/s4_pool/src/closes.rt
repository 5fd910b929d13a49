//! The closing of a front.

ghost use Rattle.std.specs.Prelude.{◌≡◌, length, IfOk, IfErr};
ghost use Rattle.s4_closing.specs.Closing.{IsClosing, NoneUncounted};
ghost use Rattle.s4_closing.specs.Merged.{AreWhole};
ghost use Rattle.s4_pool.specs.Closings.{FaultFits};
ghost use Rattle.s4_pool.specs.Numbers.{HasAll};

use crate::closing::{CloseFault, Closed, Left, Why, has_all};
use crate::front::Front;
use crate::gate::Gate;
use s4_calls::Names;
use s4_closing::Verdict;
use s4_passes::Pass;
use std::alloc::Global;
use std::sync::RwLock;

impl<G: Gate, N: Names> Front<G, N> {
    /// Closes the front: its cells, the passes, and one history of what is left of all cells. There
    /// is one log of all calls that were ever made with these passes, those that a pass keeps no
    /// longer among them, and of each cell it has all records that the cell ever had, those that
    /// were cut among them. What went and then the history are the plain log of their own requests:
    /// so each principal other than the administrator was replied what it would have been without
    /// its strangers (docs/MODEL.md, "Isolation"), whatever was cut. What can't be closed is handed
    /// back, with the reason.
    pub fn close(
        self,
        alloc: Global,
        mut passes: Vec<Pass<N>>,
    ) -> Result<Closed<N>, CloseFault<G, N>>
        ensures there { IfOk result (λ closed. HasAll self.passes passes.items) }
        ensures passes { IfOk result (λ closed. closed.passes.items ≡ passes.items) }
        ensures count { IfOk result (λ closed. length closed.cells.items ≡ self.cells) }
        ensures counted { IfOk result (λ closed.
            NoneUncounted closed.cells.items closed.passes.items) }
        ensures whole { IfOk result (λ closed. AreWhole self.window closed.cells.items) }
        ensures history { IfOk result (λ closed.
            IsClosing self.window closed.cells.items closed.passes.items closed.history.items) }
        ensures back { IfErr result (λ fault. fault.passes.items ≡ passes.items) }
        ensures why { IfErr result (λ fault. FaultFits self passes.items fault.why fault.left) }
    {
        if !has_all(self.shell.passes, passes.as_slice()) {
            return Err(CloseFault {
                why: Why::Missing,
                left: Left::Front(self),
                passes,
            });
        }
        let Front { shell, cells } = self;
        let mut unlocked = cells.into_inner().unlock();
        match unlocked.reconcile(alloc, shell.window, passes.as_mut_slice()) {
            Verdict::Whole(history) => Ok(Closed {
                cells: unlocked.into_cells(),
                passes,
                history,
            }),
            Verdict::Torn => Err(CloseFault {
                why: Why::Torn,
                left: Left::Cells(unlocked.into_cells()),
                passes,
            }),
            Verdict::NoMemory => Err(CloseFault {
                why: Why::NoMemory,
                left: Left::Front(Front {
                    shell,
                    cells: RwLock::new(unlocked.lock()),
                }),
                passes,
            }),
        }
    }
}
