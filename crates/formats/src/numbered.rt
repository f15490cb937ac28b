// Items in print, with their indices.
ghost use Rattle.std.specs.Prelude.{ℕ, ◌<◌, List, Some};
ghost use Rattle.std.specs.Fmt.{DisplaysOnOk};
ghost use Rattle.formats.specs.Listings.{AnswersItems, ShowsEach, numbered};

use std::fmt;

// A line for each of so many items, with its index in front. It takes a length and a closure and no
// iterator, as cards and sheets answer by index.
pub fn write_numbered<T: fmt::Display + Drop, G: Fn(u8) -> Option<T>, W: fmt::Write>(
    f: &mut fmt::Formatter<W>,
    len: u8,
    get: G,
) -> fmt::Result
    requires { (index : ℕ) → index < len → G.pre get index }
    ensures { (show : T → List ℕ) (items : List T) → ShowsEach T.Display.output show → AnswersItems (G.post get) len items
        → DisplaysOnOk W.Write.write_str_gives f.old result (Some (numbered show 0 items)) f.new }
{
    for index in 0..len {
        // never none here: the clause speaks of items of that length
        if let Some(item) = get(index) {
            writeln!(f, "{index} {item}")?;
        }
    }
    Ok(())
}
