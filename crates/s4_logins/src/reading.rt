//! Logins that come from a file, or from a reader.

ghost use Rattle.std.specs.Prelude.{◌≡◌, Err};
ghost use Rattle.std.specs.Str.{IsUtf8};
ghost use Rattle.s4_stream.specs.LoginText.{table_in};
ghost use Rattle.s4_logins.specs.Logins.{IsLogins};
ghost use Rattle.s4_logins.specs.declared.fault.LoginsFault.TheVariants as fault;

use crate::fault::LoginsFault;
use s4_script::{read_file, read_up_to};
use s4_stream::Logins;
use std::alloc::Global;
use std::fs;
use std::io::Read;
use std::os::unix::fs::MetadataExt;
use std::rt::Files;

/// The most bytes of a text of logins, and the most reads that it may take.
const TEXT_LIMIT: u32 = 268435456;

/// What a file's mode has where others than its owner may write it.
const OTHERS_WRITE: u32 = 0o022;

/// The logins of the file with that path. `Unguarded` where others than its owner may write it: whoever
/// writes it logs in as anybody.
pub fn open_guarded<R: Files + AllocGlobal>(rt: &R, path: &str) -> Result<Logins, LoginsFault> {
    let is_unguarded = fs::metadata(rt, path).is_ok_and(|metadata| metadata.is_file()
        && metadata.mode() & OTHERS_WRITE != 0);
    if is_unguarded {
        return Err(LoginsFault::Unguarded);
    }
    open_logins(rt, path)
}

/// The logins of the file with that path.
pub fn open_logins<R: Files + AllocGlobal>(rt: &R, path: &str) -> Result<Logins, LoginsFault> {
    let text = read_file(rt, path, TEXT_LIMIT)?;
    logins_in(rt.alloc(), &text)
}

/// The logins of a text that the reader gives.
pub fn read_logins<R: Read>(alloc: Global, reader: &mut R) -> Result<Logins, LoginsFault> {
    let text = read_up_to(alloc, reader, TEXT_LIMIT)?;
    logins_in(alloc, &text)
}

/// The table that a text of logins says, or the fault of its first bad line; `CannotRead` where the
/// text isn't UTF-8.
fn logins_in(alloc: Global, text: &[u8]) -> Result<Logins, LoginsFault>
    ensures no_text { ¬ (IsUtf8 text.now) → result ≡ Err fault.CannotRead }
    ensures table { IsUtf8 text.now → IsLogins result (table_in text.now) }
{
    if std::str::from_utf8(text).is_err() {
        return Err(LoginsFault::CannotRead);
    }
    Logins::read(alloc, text).map_err(LoginsFault::of)
}
