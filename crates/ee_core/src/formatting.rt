//! A store with nothing in it: what is written is erased, and the first set becomes the live one.
ghost use Rattle.std.specs.Prelude.{map};
ghost use Rattle.ee_flash.specs.Power.{Ends};
ghost use Rattle.ee_flash.specs.Step.{Erase};
ghost use Rattle.ee_core.specs.Openings.{not_blank_pages};
ghost use Rattle.ee_core.specs.Starts.{ErasesAll, WritesFormat};
ghost use Rattle.ee_core.specs.StepLists.{steps_of_format};
ghost use Rattle.ee_flash.specs.Taking.{Takes};

use ee_flash::{Cut, Flash};
use ee_pages::{Layout, Mark, Side, is_blank as page_is_blank, mark};

/// Erases what is not blank, makes the first set the live one with generation 1, and gives the
/// layout.
pub fn write_format<F: Flash>(flash: &mut F) -> Result<Layout, Cut>
    // At an error power was cut: in the erases, or in the marks behind them.
    ensures writes { WritesFormat result (F.device flash.old) (F.device flash.new) }
    ensures steps { Takes result (steps_of_format (F.device flash.old))
        (F.device flash.old) (F.device flash.new) }
    ensures power { Ends result (F.device flash.old) (F.device flash.new) }
{
    erase_all(flash)?;
    mark(flash, 0, Mark::Receive(1))?;
    mark(flash, 0, Mark::Active)?;
    Ok(Layout {
        side: Side::First,
        generation: 1,
        fill: 0,
        current: 0,
    })
}

/// Erases each page that is not blank, by rising page.
fn erase_all<F: Flash>(flash: &mut F) -> Result<(), Cut>
    // At an error power was cut: some pages are erased, and one in part.
    ensures erases { ErasesAll result (F.device flash.old) (F.device flash.new) }
    ensures steps { Takes result (map Erase (not_blank_pages (F.device flash.old)))
        (F.device flash.old) (F.device flash.new) }
{
    'pages: for page in 0..2 * flash.shape().pages() {
        if !page_is_blank(flash, page) {
            flash.erase(page)?;
        }
    }
    Ok(())
}
