//! Pages of which a part was not written.
ghost use Rattle.std.specs.Prelude.{◌≡◌, ◌≢◌, ◌<◌, ℕ};
ghost use Rattle.cut_laws.specs.Cut.{unit};

use labelled_disk::Page;

/// What stands after `new` was written over `old`, and one unit of it did not get there. A unit is
/// 16 bytes; they are counted from 0.
pub fn lagging_page(old: &Page, new: &Page, lagging: usize) -> Page
    requires within { lagging < 32 }
    ensures lags { unit lagging result ≡ unit lagging old.now }
    ensures others { (u : ℕ) → u ≢ lagging → unit u result ≡ unit u new.now }
{
    let from = 16 * lagging;
    let mut page = *new;
    page[from..from + 16].copy_from_slice(&old[from..from + 16]);
    page
}
