//! Lists of arrivals, which come in the order of their moments.

ghost use Rattle.std.specs.Prelude.{◌≡◌, ◌++◌, ◌∷◌, [], true, false, IfOk, IfErr, OnOk, OnErr, Err};
ghost use Rattle.s4_types.specs.Base.{opened};
ghost use Rattle.s4_session.specs.Sent.{IsSent, lists_of};
ghost use Rattle.s4_run.specs.Arrivals.{step_of, goes_back};
ghost use Rattle.s4_run.specs.declared.fault.RunFault.TheVariants as fault;

use crate::fault::RunFault;
use s4_script::{ArrivalLine, NumberedLines, parse_arrival, parse_window};
use s4_session::{Hall, HallStep};
use s4_stream::Logins;
use s4_types::{Moment, NoMemory};
use std::alloc::Global;
use std::marker::Model;

/// The window that a hall is opened with, and its steps, whose moments never go down.
#[derive(Drop)]
pub struct Arrivals {
    window: u64,
    steps: Vec<HallStep>,
    newest: Moment,
}

impl Model for Arrivals {
    ghost use Rattle.std.specs.Prelude.{◌≡◌};
    ghost use Rattle.s4_session.specs.Arrivals.{NeverDown};
    ghost use Rattle.s4_run.specs.Arrivals as list;

    ghost Value = { list.Arrivals };

    ghost view = { λ a. record { window = a.window; steps = a.steps.items } };

    ghost invariant = { λ a. NeverDown 0 a.steps.items
        × (a.newest ≡ list.newest_of a.steps.items) };
}

impl Arrivals {
    /// The arrivals of a text, or none of an empty one.
    pub fn read(alloc: Global, text: &[u8]) -> Result<Option<Arrivals>, RunFault> {
        let mut arrivals = None;
        for (number, line) in NumberedLines::of(text) {
            let refuse = |why| RunFault::parsing(why, number);
            match &mut arrivals {
                None => {
                    let window = parse_window(alloc, line).map_err(refuse)?;
                    arrivals = Some(Arrivals::open(alloc, window));
                }
                Some(arrivals) => {
                    let line = parse_arrival(alloc, line).map_err(refuse)?;
                    arrivals.add(line, number)?;
                }
            }
        }
        Ok(arrivals)
    }

    /// No arrivals yet at a hall with that window. Takes no memory.
    fn open(alloc: Global, window: u64) -> Arrivals
        ensures { result ≡ record { window = window; steps = [] } }
    {
        Arrivals {
            window,
            steps: Vec::new(alloc),
            newest: Moment::new(0),
        }
    }

    /// Adds what the line of that number tells, unless its moment goes back.
    fn add(&mut self, line: ArrivalLine, number: usize) -> Result<(), RunFault>
        ensures added { OnOk result
            (self.new ≡ record self.old { steps = self.old.steps ++ step_of line ∷ [] }) }
        ensures back { goes_back line self.old.steps ≡ true
            → result ≡ Err (fault.MomentGoesBack number) }
        ensures unchanged { OnErr result (self.new ≡ self.old) }
        ensures refused { goes_back line self.old.steps ≡ false
            → IfErr result (λ why. why ≡ fault.NoMemory) }
    {
        match line {
            ArrivalLine::Arrive {
                moment,
                conn,
                piece,
            } => {
                if moment < self.newest {
                    return Err(RunFault::MomentGoesBack(number));
                }
                self.steps.push(HallStep::Arrive {
                    conn,
                    moment,
                    piece,
                })?;
                self.newest = moment;
            }
            ArrivalLine::Sweep { n } => {
                self.steps.push(HallStep::Sweep { n })?;
            }
        }
        Ok(())
    }

    /// What a fresh hall of these logins sends on each connection where it takes the steps.
    pub fn run(&self, alloc: Global, logins: Logins) -> Result<Vec<(u32, Vec<u8>)>, NoMemory>
        ensures { IfOk result
            (λ sent. IsSent (opened self.now.window) logins self.now.steps (lists_of sent.items)) }
    {
        Hall::open(alloc, self.window, logins).run(&self.steps)
    }
}
