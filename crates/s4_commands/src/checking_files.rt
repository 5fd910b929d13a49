//! Files whose lines are looked at (docs/SCRIPTS.md, "Causes").

ghost use Rattle.std.specs.Prelude.{◌≡◌, ◌<◌, ◌≤◌, ℕ, IsErrOf, length};
ghost use Rattle.s4_commands.specs.declared.fault.Fault.TheVariants as fault;

use crate::fault::Fault;
use s4_causes::{Kind, cause_of_unread, check_text};
use s4_command::{FileCheck, TextKind};
use s4_run::RunFault;
use s4_script::{TextFault, read_file};
use std::io::Write;

/// The most bytes of a file.
const FILE_LIMIT: u32 = 268435456;

/// Tells of each file which of its lines aren't taken, and why. `BadFiles` where there are such, or a file
/// gives no text.
pub fn check_files<W: Write>(
    files: &HostRuntime,
    check: &FileCheck,
    output: &mut W,
) -> Result<(), Fault>
    ensures { (bad all : ℕ) → IsErrOf result (fault.BadFiles bad all)
        → (0 < bad) × (bad ≤ all) × (all ≡ length check.now.paths.items) }
{
    let kind = check.kind.map(kind_of);
    let mut bad = 0;
    for path in &check.paths {
        if !check_file(files, path.as_str(), kind, output)? {
            bad += 1;
        }
    }
    output.flush().map_err(RunFault::writing)?;
    if bad > 0 {
        return Err(Fault::BadFiles(bad, check.paths.len()));
    }
    Ok(())
}

/// Whether all lines of a file are taken; tells which aren't.
fn check_file<W: Write>(
    files: &HostRuntime,
    path: &str,
    kind: Option<Kind>,
    output: &mut W,
) -> Result<bool, RunFault> {
    match read_file(files, path, FILE_LIMIT) {
        Ok(text) => {
            let told = check_text(files.alloc(), path, kind, &text, output);
            told.map_err(RunFault::writing)
        }
        Err(TextFault::CannotRead) => {
            let cause = cause_of_unread(files, path, FILE_LIMIT)?;
            writeln!(output, "{path}: cannot read: {cause}").map_err(RunFault::writing)?;
            Ok(false)
        }
        Err(fault) => Err(RunFault::from(fault)),
    }
}

fn kind_of(kind: TextKind) -> Kind {
    match kind {
        TextKind::Script => Kind::Script,
        TextKind::Arrivals => Kind::Arrivals,
        TextKind::Logins => Kind::Logins,
        TextKind::Setup => Kind::Setup,
    }
}
