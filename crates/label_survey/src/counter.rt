//! The counter of a volume.
ghost use Rattle.std.specs.Prelude.{List};
ghost use Rattle.labelled_disk.specs.Sectors.{Sector};
ghost use Rattle.label_survey.specs.Counter.{IsRaised};
ghost use Rattle.label_survey.specs.Triples.{AreNeeded};

use crate::triples::Triple;

/// The counter from which the volume of this serial gives identifiers: the greater of the old one
/// and one more than the greatest low half of a file of the serial.
pub fn raise_counter(serial: u32, counter: u32, triples: &[Triple]) -> u32
    ensures { (d : List Sector) → AreNeeded d triples.now → IsRaised d serial counter result }
{
    let mut now = counter;
    for i in 0..triples.len() {
        let id = triples[i].id;
        let above = ((id % 0x1_0000_0000) as u32).saturating_add(1);
        if id / 0x1_0000_0000 == u64::from(serial) && above > now {
            now = above;
        }
    }
    now
}
