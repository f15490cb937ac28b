// Lists the litmus program in the file `card` and the moves in the file `sheet`.
#![tactic(auto)]

ghost use Rattle.std.specs.Prelude.{◌≤◌, IfOk, vec_len};

mod report;

use anyhow::anyhow;
use files::read_at_most;
use report::report;
use std::process::ExitCode;

// How much of each file is read.
const LIMIT: usize = 1024;

fn main(rt: HostRuntime) -> ExitCode {
    match run(&rt) {
        Ok(()) => ExitCode::SUCCESS,
        Err(e) => {
            let _ = eprintln!(rt; "listing: {e}");
            ExitCode::FAILURE
        }
    }
}

fn run(rt: &HostRuntime) -> anyhow::Result<()> {
    let card = load(rt, "card")?;
    let sheet = load(rt, "sheet")?;
    let text = report(rt.alloc(), card.as_slice(), sheet.as_slice())?;
    print!(rt; "{text}")?;
    Ok(())
}

// A file's bytes, or an error that names the file. Making its text may fail, so it stands in no
// closure.
fn load(rt: &HostRuntime, path: &str) -> anyhow::Result<Vec<u8>>
    ensures { IfOk result (λ bytes. vec_len bytes ≤ 1024) }
{
    match read_at_most(rt, path, LIMIT) {
        Ok(bytes) => Ok(bytes),
        Err(e) => Err(anyhow!(format!(in rt.alloc(); "{path}: {e}")?)),
    }
}
