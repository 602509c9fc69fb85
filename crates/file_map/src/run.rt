//! Runs of pages in sectors in a row, and their records of 24 bytes.
ghost use Rattle.std.specs.Prelude.{◌≡◌, ◌+◌, ◌<◌, ◌≤◌, true, false, None, IfSome, [], ◌∷◌, length, drop};
ghost use Rattle.file_map.specs.Run.{IsRun, IsRecord, holds, key_bytes, run_bytes, run_in};
ghost use Rattle.labelled_disk.specs.Layout.{first_data};

use labelled_disk::{FileId, TABLES};

/// Pages of a file that stand in sectors in a row: page `first + k` in sector `sector + k`, for `k` below `pages`.
#[derive(Clone, Copy, Debug, Default, PartialEq, Eq)]
pub struct Run {
    pub id: FileId,
    /// The first page; the leader of a file is page 4,294,967,295.
    pub first: u32,
    pub pages: u32,
    /// The sector of the first page.
    pub sector: u32,
}

/// The bytes of a record.
pub type Record = [u8; 24];

/// The bytes by which records are sorted.
pub type Key = [u8; 12];

/// The key of a page, which is the key of a record with this first page.
#[tactic(auto, unfolding(crate::specs::Run::key_bytes))]
pub fn key_of(id: FileId, page: u32) -> Key
    ensures { result ≡ key_bytes id page }
{
    let [i0, i1, i2, i3, i4, i5, i6, i7] = id.to_be_bytes();
    let [p0, p1, p2, p3] = page.to_be_bytes();
    [i0, i1, i2, i3, i4, i5, i6, i7, p0, p1, p2, p3]
}

impl Run {
    /// After the last page.
    pub fn end(&self) -> u64
        ensures { result ≡ self.now.first + self.now.pages }
    {
        u64::from(self.first) + u64::from(self.pages)
    }

    /// Whether the run has this page of this file.
    pub fn holds(&self, id: FileId, page: u32) -> bool
        ensures { result ≡ holds self.now id page }
    {
        self.id == id && self.first <= page && u64::from(page) < self.end()
    }

    /// The record of the run.
    #[tactic(auto, unfolding(crate::specs::Run::run_bytes))]
    pub fn to_bytes(&self) -> Record
        ensures { result ≡ run_bytes self.now }
    {
        let Run {
            id,
            first,
            pages,
            sector,
        } = *self;
        let [i0, i1, i2, i3, i4, i5, i6, i7] = id.to_be_bytes();
        let [f0, f1, f2, f3] = first.to_be_bytes();
        let [p0, p1, p2, p3] = pages.to_be_bytes();
        let [s0, s1, s2, s3] = sector.to_be_bytes();
        [
            i0, i1, i2, i3, i4, i5, i6, i7, f0, f1, f2, f3, p0, p1, p2, p3, s0, s1, s2, s3, 0, 0,
            0, 0,
        ]
    }
}

// The run that a record reveals, whatever its form is.
#[tactic(auto, unfolding(crate::specs::Run::run_in))]
fn run_of(bytes: &[u8]) -> Run
    requires { length bytes.now ≡ 24 }
    ensures value { result ≡ run_in bytes.now }
    ensures written_back { drop 20 bytes.now ≡ 0 ∷ 0 ∷ 0 ∷ 0 ∷ [] → run_bytes result ≡ bytes.now }
{
    let b = bytes;
    Run {
        id: u64::from_be_bytes([b[0], b[1], b[2], b[3], b[4], b[5], b[6], b[7]]),
        first: u32::from_be_bytes([b[8], b[9], b[10], b[11]]),
        pages: u32::from_be_bytes([b[12], b[13], b[14], b[15]]),
        sector: u32::from_be_bytes([b[16], b[17], b[18], b[19]]),
    }
}

// The first data sector of a volume of so many sectors.
#[tactic(auto, unfolding(labelled_disk::specs::Layout::first_data))]
fn first_data_of(sectors: u32) -> u32
    requires { sectors ≤ 1048576 }
    ensures { result ≡ first_data sectors }
{
    1 + sectors.div_ceil(4096) + (sectors / 8 + 2)
}

// Whether the record of the run is in form on a volume of so many sectors.
fn is_in_form(run: Run, sectors: u32) -> bool
    requires { sectors ≤ 1048576 }
    ensures yes { result ≡ true → IsRun sectors run }
    ensures no { result ≡ false → ¬ IsRun sectors run }
{
    (run.id == TABLES || run.id >= 16)
        && run.pages >= 1
        && run.end() <= 0x1_0000_0000
        && run.sector >= first_data_of(sectors)
        && u64::from(run.sector) + u64::from(run.pages) <= u64::from(sectors)
}

// Whether the last four bytes are zeros.
fn ends_in_zeros(bytes: &Record) -> bool
    ensures yes { result ≡ true → drop 20 bytes.now ≡ 0 ∷ 0 ∷ 0 ∷ 0 ∷ [] }
    ensures no { result ≡ false → ¬ (drop 20 bytes.now ≡ 0 ∷ 0 ∷ 0 ∷ 0 ∷ []) }
{
    u32::from_be_bytes([bytes[20], bytes[21], bytes[22], bytes[23]]) == 0
}

/// The run that a record reveals, or none where the record breaks its form on a volume of so many sectors.
pub fn read_record(bytes: &Record, sectors: u32) -> Option<Run>
    requires { sectors ≤ 1048576 }
    ensures form { IfSome result (λ run. IsRun sectors run) }
    ensures same { IfSome result (λ run. bytes.now ≡ run_bytes run) }
    ensures broken { result ≡ None → ¬ IsRecord sectors bytes.now }
{
    let run = run_of(bytes);
    if ends_in_zeros(bytes) && is_in_form(run, sectors) {
        return Some(run);
    }
    None
}
