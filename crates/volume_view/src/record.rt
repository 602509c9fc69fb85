//! A record of the file map, as it is read.
ghost use Rattle.std.specs.Prelude.{◌≡◌, ◌+◌, true, false, None, IfSome, [], ◌∷◌, length, drop};
ghost use Rattle.file_map.specs.Run.{IsRun, IsRecord, key_bytes, run_bytes, run_in};
ghost use Rattle.labelled_disk.specs.Layout.{first_data};
ghost use Rattle.volume_view.specs.Records.{Follows};

use file_map::Run;
use labelled_disk::TABLES;

/// The key of the record of a run.
#[tactic(auto, unfolding(file_map::specs::Run::key_bytes))]
pub(crate) fn key_of(run: Run) -> [u8; 12]
    ensures { result ≡ key_bytes run.id run.first }
{
    let [i0, i1, i2, i3, i4, i5, i6, i7] = run.id.to_be_bytes();
    let [p0, p1, p2, p3] = run.first.to_be_bytes();
    [i0, i1, i2, i3, i4, i5, i6, i7, p0, p1, p2, p3]
}

// The run that a record reveals, whatever its form is.
#[tactic(auto, unfolding(file_map::specs::Run::run_in))]
fn run_of(bytes: &[u8]) -> Run
    requires { length bytes.now ≡ 24 }
    ensures value { result ≡ run_in bytes.now }
    ensures written_back { drop 20 bytes.now ≡ 0 ∷ 0 ∷ 0 ∷ 0 ∷ [] → run_bytes result ≡ bytes.now }
{
    let b = bytes;
    Run {
        id: u64::from_be_bytes([b[0], b[1], b[2], b[3], b[4], b[5], b[6], b[7]]),
        first: u32::from_be_bytes([b[8], b[9], b[10], b[11]]),
        pages: u32::from_be_bytes([b[12], b[13], b[14], b[15]]),
        sector: u32::from_be_bytes([b[16], b[17], b[18], b[19]]),
    }
}

// Whether the record of the run is in form on a volume of so many sectors, of which `first` is the
// first data sector.
fn is_in_form(run: Run, first: u32, sectors: u32) -> bool
    requires { first ≡ first_data sectors }
    ensures yes { result ≡ true → IsRun sectors run }
    ensures no { result ≡ false → ¬ IsRun sectors run }
{
    (run.id == TABLES || run.id >= 16)
        && run.pages >= 1
        && u64::from(run.first) + u64::from(run.pages) <= 0x1_0000_0000
        && run.sector >= first
        && u64::from(run.sector) + u64::from(run.pages) <= u64::from(sectors)
}

// Whether the last four bytes are zeros.
fn ends_in_zeros(bytes: &[u8; 24]) -> bool
    ensures yes { result ≡ true → drop 20 bytes.now ≡ 0 ∷ 0 ∷ 0 ∷ 0 ∷ [] }
    ensures no { result ≡ false → ¬ (drop 20 bytes.now ≡ 0 ∷ 0 ∷ 0 ∷ 0 ∷ []) }
{
    u32::from_be_bytes([bytes[20], bytes[21], bytes[22], bytes[23]]) == 0
}

// The run that a record reveals, or none where the record breaks its form on a volume of so many
// sectors, of which `first` is the first data sector.
fn read_record(bytes: &[u8; 24], first: u32, sectors: u32) -> Option<Run>
    requires { first ≡ first_data sectors }
    ensures form { IfSome result (λ run. IsRun sectors run) }
    ensures same { IfSome result (λ run. bytes.now ≡ run_bytes run) }
    ensures broken { result ≡ None → ¬ IsRecord sectors bytes.now }
{
    let run = run_of(bytes);
    if ends_in_zeros(bytes) && is_in_form(run, first, sectors) {
        return Some(run);
    }
    None
}

// Whether a run begins after the end of the one before it, by identifier and page.
fn follows(last: Run, run: Run) -> bool
    ensures all { Follows last run → result ≡ true }
    ensures right { result ≡ true → Follows last run }
{
    let end = u64::from(last.first) + u64::from(last.pages);
    run.id > last.id || run.id == last.id && u64::from(run.first) >= end
}

/// The run that a record reveals, or none where the record breaks its form, or doesn't begin after
/// the end of the last run.
pub(crate) fn read_after(last: Run, bytes: &[u8; 24], first: u32, sectors: u32) -> Option<Run>
    requires { first ≡ first_data sectors }
    ensures form { IfSome result (λ run. IsRun sectors run) }
    ensures same { IfSome result (λ run. bytes.now ≡ run_bytes run) }
    ensures follows { IfSome result (λ run. Follows last run) }
    ensures broken { result ≡ None → Follows last (run_in bytes.now) → ¬ IsRecord sectors bytes.now }
{
    match read_record(bytes, first, sectors) {
        Some(run) => {
            if follows(last, run) {
                return Some(run);
            }
            None
        }
        None => None,
    }
}
