// Holds the two formats to the vectors of an independent implementation: each line of the file
// `vectors` has a card and a sheet in hexadecimal, `-` for no bytes, and then the answer, which is
// `accepted` or a refusal.
#![tactic(auto)]

ghost use Rattle.std.specs.Prelude.{◌≡◌, ◌≤◌, IfOk, vec_len};
ghost use Rattle.std.specs.Result.{result_err};
ghost use Rattle.formats.specs.Cards.{card_fault};
ghost use Rattle.formats.specs.Checks.{first};
ghost use Rattle.formats.specs.Sheets.{sheet_fault};

mod hex;

use formats::{Card, Sheet};
use hex::bytes_of;
use model::Fault;
use std::alloc::AllocError;
use std::fs;

fn main(rt: HostRuntime) -> anyhow::Result<()> {
    run(&rt)
}

fn run(rt: &HostRuntime) -> anyhow::Result<()> {
    let text = fs::read_to_string(rt, "vectors")?;
    let mut agree = 0u32;
    let mut differ = 0u32;
    for line in text.as_str().lines() {
        if agrees(rt, line)? {
            agree = agree.saturating_add(1);
        } else {
            differ = differ.saturating_add(1);
            println!(rt; "differs: {line}")?;
        }
    }
    println!(rt; "{agree} agree, {differ} differ")?;
    Ok(())
}

// Whether a line's answer is the one that the formats give.
fn agrees(rt: &HostRuntime, line: &str) -> anyhow::Result<bool> {
    let Some((card, rest)) = line.split_once(' ') else {
        return Ok(false);
    };
    let Some((sheet, expected)) = rest.split_once(' ') else {
        return Ok(false);
    };
    let card = file_of(rt, card)?;
    let sheet = file_of(rt, sheet)?;
    let answer = match accepted(card.as_slice(), sheet.as_slice()) {
        Ok(()) => String::from_str(rt.alloc(), "accepted")?,
        Err(fault) => fault.to_string(rt.alloc())?,
    };
    Ok(answer.as_str() == expected)
}

// The bytes as the programs read them from a file: 1024 at most.
fn file_of(rt: &HostRuntime, text: &str) -> Result<Vec<u8>, AllocError>
    ensures { IfOk result (λ bytes. vec_len bytes ≤ 1024) }
{
    let mut bytes = bytes_of(rt.alloc(), text.as_bytes())?;
    bytes.truncate(1024);
    Ok(bytes)
}

// Whether both are accepted, or the card's fault, or else the sheet's.
fn accepted(card: &[u8], sheet: &[u8]) -> Result<(), Fault>
    ensures { result_err result ≡ first (card_fault card.now) (sheet_fault sheet.now) }
{
    Card::try_from(card)?;
    Sheet::try_from(sheet)?;
    Ok(())
}
