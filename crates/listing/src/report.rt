// What the program prints.
ghost use Rattle.std.specs.Prelude.{◌≡◌, IfOk, string_bytes};
ghost use Rattle.std.specs.Result.{result_err};
ghost use Rattle.formats.specs.Cards.{card_fault};
ghost use Rattle.formats.specs.Checks.{first};
ghost use Rattle.formats.specs.Programs.{program, program_of};
ghost use Rattle.formats.specs.Schedules.{schedule, schedule_of};
ghost use Rattle.formats.specs.Sheets.{sheet_fault};
ghost use Rattle.listing.specs.Report.{listed_text, report_text};

use formats::{Card, Sheet};
use model::Fault;
use std::alloc::{AllocError, Global};

// The program of a card and the moves of a sheet, or the fault of the card, or of the sheet.
pub fn report(heap: Global, card: &[u8], sheet: &[u8]) -> Result<String, AllocError>
    ensures { IfOk result (λ text. string_bytes text ≡ report_text card.now sheet.now) }
{
    match accepted(card, sheet) {
        Ok((card, sheet)) => listed(heap, card, sheet),
        Err(fault) => format!(in heap; "{fault}\n"),
    }
}

// The card and the sheet, or the fault of the card, or of the sheet.
fn accepted<'a>(card: &'a [u8], sheet: &'a [u8]) -> Result<(Card<'a>, Sheet<'a>), Fault>
    ensures fault { result_err result ≡ first (card_fault card.now) (sheet_fault sheet.now) }
    ensures card { IfOk result (λ both. program_of both.0 ≡ program card.now) }
    ensures sheet { IfOk result (λ both. schedule_of both.1 ≡ schedule sheet.now) }
{
    Ok((Card::try_from(card)?, Sheet::try_from(sheet)?))
}

// The program and the moves.
fn listed(heap: Global, card: Card<'_>, sheet: Sheet<'_>) -> Result<String, AllocError>
    ensures { IfOk result (λ text. string_bytes text ≡ listed_text card.entry sheet.entry) }
{
    format!(in heap; "{card}{sheet}")
}

#[cfg(test)]
mod tests {
    use super::report;
    use std::test::Fail;

    // One processor, one address, and a thread that is empty.
    const CARD: [u8; 4] = [1, 1, 0, 4];

    #[test]
    fn refusals(rt: HostRuntime) -> Result<(), Fail> {
        let heap = rt.alloc();
        assert_eq!(rt; report(heap, &[], &[])?.as_str(), "refused 1 card 0\n");
        assert_eq!(rt; report(heap, &CARD, &[])?.as_str(), "refused 1 sheet 0\n");
        assert_eq!(rt;
            report(heap, &CARD, &[4, 0])?.as_str(),
            "refused 2 sheet 0\n"
        );
        Ok(())
    }

    #[test]
    fn an_empty_program(rt: HostRuntime) -> Result<(), Fail> {
        let text = report(rt.alloc(), &CARD, &[0, 0])?;
        assert_eq!(rt;
            text.as_str(),
            "processors 1 addresses 1\nthread 0\nkind SC moves 0\n"
        );
        Ok(())
    }
}
