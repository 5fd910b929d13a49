//! What a call of a served drive is.

ghost use Rattle.std.specs.Prelude.{◌≡◌, IfOk, string_bytes};
ghost use Rattle.s4_client.specs.Calls.{message_of};

use s4_client::{CallFault, message};
use s4_stream::Hello;
use s4_types::Request;
use std::alloc::Global;

/// A call: where, as whom, and what is asked.
#[derive(Drop)]
pub struct Call {
    pub address: String,
    pub hello: Hello,
    pub request: Request,
    /// For how many milliseconds it is tried to connect again where that fails.
    pub wait: u64,
    /// What is sent.
    message: Vec<u8>,
    ghost spelled: { message.items ≡ message_of hello request },
}

impl Call {
    /// A call that tries to connect once. `BadRequest` where the request has no spelling in a frame.
    pub fn new(
        alloc: Global,
        address: &str,
        hello: Hello,
        request: Request,
    ) -> Result<Call, CallFault>
        ensures address { IfOk result (λ call. string_bytes call.address ≡ address.now) }
        ensures hello { IfOk result (λ call. call.hello ≡ hello) }
        ensures request { IfOk result (λ call. call.request ≡ request) }
        ensures once { IfOk result (λ call. call.wait ≡ 0) }
    {
        let message = message(alloc, &hello, &request)?;
        Ok(Call {
            address: String::from_str(alloc, address)?,
            hello,
            request,
            wait: 0,
            message,
        })
    }

    /// What is sent: the frame of the Hello, and then that of the request.
    pub fn message(&self) -> &[u8]
        ensures { result.now ≡ message_of self.now.hello self.now.request }
    {
        self.message.as_slice()
    }

    /// The same call, where it is tried to connect for so many milliseconds.
    pub fn waiting(self, milliseconds: u64) -> Call
        ensures { result ≡ record self { wait = milliseconds } }
    {
        let Call {
            address,
            hello,
            request,
            message,
            ..
        } = self;
        Call {
            address,
            hello,
            request,
            wait: milliseconds,
            message,
        }
    }
}
