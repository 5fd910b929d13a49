//! The texts of what connections are sent.

ghost use Rattle.std.specs.Prelude.{Some};
ghost use Rattle.s4_script.specs.Texts.{sent_text};

use crate::replies::BytesText;
use std::fmt;

/// A connection and all bytes that were sent on it, as its line.
#[derive(Clone, Copy)]
pub struct SentText<'a>(pub u32, pub &'a [u8]);

impl fmt::Display for SentText<'_> {
    ghost output = { λ t. Some (sent_text t.0 t.1.now) };

    fn fmt<W: fmt::Write>(&self, f: &mut fmt::Formatter<W>) -> fmt::Result {
        write!(f, "{} {}", self.0, BytesText(self.1))
    }
}
