//! Why a call of the map was not done.
ghost use Rattle.std.specs.Prelude.{◌≡◌};
ghost use Rattle.file_map.specs.Cause.{of_tree};

use page_tree::TreeError;

/// The map is full, a page breaks its form, or its memory failed.
#[derive(Debug, Drop)]
pub enum MapError<X> {
    /// There is a record for each data sector.
    Full,
    /// The page of the map, as it was read, breaks its form.
    Malformed { page: u32 },
    /// The memory's own error.
    Mem(X),
}

impl<X> From<TreeError<X>> for MapError<X> {
    ghost from_gives = { λ error given. given ≡ of_tree error };

    fn from(error: TreeError<X>) -> Self {
        match error {
            TreeError::Full => MapError::Full,
            TreeError::Malformed { page } => MapError::Malformed { page },
            TreeError::Mem(error) => MapError::Mem(error),
        }
    }
}
