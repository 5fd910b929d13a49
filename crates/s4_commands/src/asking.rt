//! Calls of a served drive whose requests stand in lines (docs/SCRIPTS.md, "Lines of calls").

ghost use Rattle.std.specs.Prelude.{◌<◌, None};
ghost use Rattle.s4_asking.specs.Rehearsal.{Exchange};
ghost use Rattle.s4_command.specs.declared.asking.Askers.TheVariants as askers;

use crate::calling::reach;
use crate::fault::Fault;
use s4_asking::{AskFault, LineFault, Peers, Secrets, ask_over, exchange, greet, rehearse};
use s4_causes::system_word;
use s4_client::CallFault;
use s4_command::{Asker, Askers, Asking, Company};
use s4_stream::Hello;
use s4_types::{Caller, Reply, Request};
use std::alloc::Global;
use std::io::{Read, Write};
use std::net::{Net, TcpStream};
use std::rt::Files;
use std::sync::Wait;
use std::time::Clock;

/// Asks at the address for what the lines of the input spell, and writes the replies. `Refused` where all
/// was asked, and a request was refused.
pub fn ask_at<N: Net<Stream = TcpStream> + Wait + Clock, F: Files + AllocGlobal, R: Read, W: Write>(
    net: &N,
    files: &F,
    asking: &Asking,
    input: &mut R,
    output: &mut W,
) -> Result<(), Fault> {
    let refused = match &asking.askers {
        Askers::One(asker) => ask_one(net, files.alloc(), asking, asker, input, output)?,
        Askers::Each(company) => ask_each(net, files, asking, company, input, output)?,
    };
    if refused {
        return Err(Fault::Ask(AskFault::Refused));
    }
    Ok(())
}

/// Asks for all as one caller, over one connection.
fn ask_one<N: Net<Stream = TcpStream> + Wait + Clock, R: Read, W: Write>(
    net: &N,
    alloc: Global,
    asking: &Asking,
    asker: &Asker,
    input: &mut R,
    output: &mut W,
) -> Result<bool, Fault> {
    let Asker { hello, depth } = asker;
    let stream = match reach(net, asking.address.as_str(), asking.wait) {
        Ok(stream) => stream,
        Err(error) => return Err(Fault::CannotConnect(system_word(alloc, &error)?)),
    };
    greet(alloc, hello, &mut &stream, &mut &stream)?;
    let refused = ask_over(
        hello.caller.version,
        (*depth).max(1),
        alloc,
        input,
        &mut &stream,
        &mut &stream,
        output,
    )?;
    Ok(refused)
}

/// Has each line carried out as its principal.
fn ask_each<N: Net<Stream = TcpStream> + Wait + Clock, F: Files + AllocGlobal, R: Read, W: Write>(
    net: &N,
    files: &F,
    asking: &Asking,
    company: &Company,
    input: &mut R,
    output: &mut W,
) -> Result<bool, Fault> {
    let alloc = files.alloc();
    let secrets = Secrets::open(files, company.logins.as_str())?;
    let mut peers = Connected {
        net,
        alloc,
        asking,
        secrets: &secrets,
        open: Vec::new(alloc),
    };
    let Company {
        client,
        version,
        ..
    } = company;
    let refused = rehearse(*version, *client, alloc, &mut peers, input, output)?;
    Ok(refused)
}

/// A connection of a caller.
#[derive(Drop)]
struct Line {
    caller: Caller,
    stream: TcpStream,
}

impl Line {
    /// Sends a request of its caller, and hears the reply.
    fn ask(&self, alloc: Global, request: &Request) -> Result<Reply, LineFault> {
        let stream = &self.stream;
        let (mut reader, mut writer) = (stream, stream);
        exchange(
            self.caller.version,
            alloc,
            request,
            &mut reader,
            &mut writer,
        )
    }
}

/// The connections of callers, each of which is opened once it is needed.
struct Connected<'a, N> {
    net: &'a N,
    alloc: Global,
    asking: &'a Asking,
    secrets: &'a Secrets,
    open: Vec<Line>,
}

// Written out, so that connections over any net are closed.
impl<N> Drop for Connected<'_, N> {
    fn drop(self) {
        let Connected {
            net: _,
            alloc: _,
            asking: _,
            secrets: _,
            open: _,
        } = self;
    }
}

impl<N: Net<Stream = TcpStream> + Wait + Clock> Connected<'_, N> {
    /// A new connection of the caller, which was welcomed.
    fn connect(&self, caller: Caller) -> Result<TcpStream, LineFault> {
        let Some(secret) = self.secrets.of(caller.who) else {
            return Err(LineFault::NoLogin(caller.who.number()));
        };
        let stream = match reach(self.net, self.asking.address.as_str(), self.asking.wait) {
            Ok(stream) => stream,
            Err(error) => return Err(LineFault::CannotConnect(system_word(self.alloc, &error)?)),
        };
        let hello = Hello { caller, secret };
        greet(self.alloc, &hello, &mut &stream, &mut &stream)?;
        Ok(stream)
    }

    /// The place of the caller's connection, which is opened where there is none.
    fn place_of(&mut self, caller: Caller) -> Result<usize, LineFault> {
        for place in 0..self.open.len() {
            if self.open[place].caller == caller {
                return Ok(place);
            }
        }
        let stream = self.connect(caller)?;
        self.open.push(Line { caller, stream })?;
        Ok(self.open.len() - 1)
    }
}

impl<N: Net<Stream = TcpStream> + Wait + Clock> Peers for Connected<'_, N> {
    ghost use Rattle.std.specs.Prelude.{None};

    // What goes over sockets isn't known.
    ghost exchanges = { λ _. None };

    fn ask(&mut self, caller: Caller, request: &Request) -> Result<Reply, LineFault> {
        let alloc = self.alloc;
        let place = self.place_of(caller)?;
        match self.open.get(place) {
            Some(line) => line.ask(alloc, request),
            None => Err(LineFault::Call(CallFault::ConnectionLost)),
        }
    }
}
