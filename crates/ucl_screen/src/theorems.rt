//! A theorem on all screens, which are the tables of groups as text. The function does nothing: it is there for its contract.

ghost use Rattle.ucl_screen.specs.Theorems.{LinesHave53Columns};

/// The second line of the screen, the names of the columns, and the line of each place of the table have 53 bytes and a line feed.
#[tactic(auto, using(crate::proofs::Columns::lines_wide))]
pub fn lines_have_53_columns()
    ensures { LinesHave53Columns }
{}
