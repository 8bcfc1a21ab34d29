// The making of totals.
ghost use Rattle.std.specs.Prelude.{◌≡◌, ◌≤◌, [], vec_capacity};
ghost use Rattle.sheet.specs.Limits.{max_rules};
ghost use Rattle.register.specs.Contents.{content};
ghost use Rattle.register.specs.State.{held, nothing_held};

use crate::figures::Figures;
use crate::totals::Totals;
use sheet::sheet::Sheet;

impl Totals {
    // No trace added yet; the figures of each rule are 0, in the room that is handed over.
    pub(crate) fn new(mut figures: Vec<Figures>, sheet: Sheet) -> Totals
        requires empty { figures.items ≡ [] }
        requires room { max_rules ≤ vec_capacity figures }
        ensures { held result ≡ nothing_held (content sheet) }
    {
        for _k in 0..sheet.rules().len() {
            figures.push_reserved(Figures::default());
        }
        Totals {
            sheet,
            traces: 0,
            instants: 0,
            figures,
        }
    }
}
