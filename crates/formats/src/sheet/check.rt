// From bytes to a sheet: every rule, in a fixed order.
ghost use Rattle.std.specs.Prelude.{◌≡◌, IsNone};
ghost use Rattle.formats.specs.Checks.{IsCheckedView};
ghost use Rattle.formats.specs.SheetRules.{SheetRules};
ghost use Rattle.formats.specs.Sheets.{sheet_fault};

use crate::sheet::Sheet;
use crate::sheet::moves::Moves;
use model::Fault;

// The sheet over bytes, or the first rule that they break.
impl<'a> TryFrom<&'a [u8]> for Sheet<'a> {
    type Error = Fault;

    ghost try_from_gives = { λ bytes answer. IsCheckedView (λ sheet. sheet.bytes.now) sheet_fault SheetRules bytes.now answer };

    fn try_from(bytes: &'a [u8]) -> Result<Sheet<'a>, Fault> {
        Moves::new(bytes)?.check()?;
        Ok(Sheet::new(bytes))
    }
}

impl<'a> Sheet<'a> {
    // The sheet over bytes that are known to have no fault, as where they were checked before: nothing
    // is checked again.
    pub fn new(bytes: &'a [u8]) -> Sheet<'a>
        requires { IsNone (sheet_fault bytes.now) }
        ensures { result.bytes.now ≡ bytes.now }
    {
        Sheet { bytes }
    }
}
