//! What the words of a growth and of a creation say, as the contracts of functions that do nothing.
ghost use Rattle.std.specs.Prelude.{◌≡◌, ℕ, ◌≤◌, List, ◌∷◌};
ghost use Rattle.labelled_disk.specs.Runs.{AreUnused};
ghost use Rattle.labelled_disk.specs.Sectors.{Sector};
ghost use Rattle.label_laws.specs.PermittedOrders.{AreApart};
ghost use Rattle.swapper_kernel.specs.Stands.{labels_of};
ghost use Rattle.session_words.specs.CreateLaws.{Creates};
ghost use Rattle.session_words.specs.GrowLaws.{AreFree, IsFree};

/// The sectors of a growth, each free in its turn, are different ones, and no file's.
pub fn grown_were_unused()
    ensures { (id kind page : ℕ) (is : List ℕ) (d : List Sector) → 16 ≤ id → AreFree id kind page is (labels_of d)
        → AreUnused d is }
{}

/// The sectors of a creation, of one that stopped too, are different ones, and no file's.
pub fn created_were_unused()
    ensures made { (serial counter room id kind leader : ℕ) (is : List ℕ) (x y d : List Sector) → 16 ≤ id
        → labels_of d ≡ labels_of x → Creates serial counter room id kind leader is x y → AreUnused d (leader ∷ is) }
    ensures stopped { (is : List ℕ) (d : List Sector) → AreApart (IsFree (labels_of d)) is → AreUnused d is }
{}
