//! What is remembered of the sectors that were read or written last.
ghost use Rattle.std.specs.Prelude.{◌+◌, ◌≤◌, length};

use labelled_disk::Page;
use std::alloc::Global;

/// The two values that were kept last of the sectors that share a place.
#[derive(Clone, Copy)]
struct Place<T> {
    one: Option<(u32, T)>,
    other: Option<(u32, T)>,
    // Which of the two was kept last.
    is_other_last: bool,
}

impl<T: Copy> Place<T> {
    const fn empty() -> Place<T> {
        Place {
            one: None,
            other: None,
            is_other_last: false,
        }
    }

    fn get(&self, sector: u32) -> Option<&T> {
        if let Some((kept, value)) = &self.one
            && *kept == sector
        {
            return Some(value);
        }
        match &self.other {
            Some((kept, value)) if *kept == sector => Some(value),
            _ => None,
        }
    }

    // The sector whose value was kept last.
    fn last(&self) -> Option<u32> {
        let last = if self.is_other_last {
            &self.other
        } else {
            &self.one
        };
        match last {
            Some((kept, _)) => Some(*kept),
            None => None,
        }
    }

    fn keep(&mut self, sector: u32, value: &T) {
        if let Some(kept) = self.last()
            && kept != sector
        {
            self.is_other_last = !self.is_other_last;
        }
        if self.is_other_last {
            put(&mut self.other, sector, value);
        } else {
            put(&mut self.one, sector, value);
        }
    }
}

// Puts a value in the place of another, where there is one.
fn put<T: Copy>(place: &mut Option<(u32, T)>, sector: u32, value: &T) {
    match place {
        Some((kept, old)) => {
            *kept = sector;
            *old = *value;
        }
        None => *place = Some((sector, *value)),
    }
}

// Whether a place has the value of this sector.
fn is_of<T>(place: &Option<(u32, T)>, sector: u32) -> bool {
    match place {
        Some((kept, _)) => *kept == sector,
        None => false,
    }
}

// The value in a place, where there is one.
fn value_in<T>(place: &mut Option<(u32, T)>) -> Option<&mut T> {
    match place {
        Some((_, value)) => Some(value),
        None => None,
    }
}

impl Place<[u8; 528]> {
    // Puts bytes in the place of those from one on, where the sector is kept.
    fn overwrite(&mut self, sector: u32, at: usize, bytes: &[u8])
        requires { at + length bytes.now ≤ 528 }
    {
        if is_of(&self.one, sector) {
            self.is_other_last = false;
            overwrite_in(&mut self.one, at, bytes);
        } else if is_of(&self.other, sector) {
            self.is_other_last = true;
            overwrite_in(&mut self.other, at, bytes);
        }
    }
}

// Puts bytes in the place of those from one on.
fn overwrite_in(place: &mut Option<(u32, [u8; 528])>, at: usize, bytes: &[u8])
    requires { at + length bytes.now ≤ 528 }
{
    if let Some(old) = value_in(place) {
        old[at..at + bytes.len()].copy_from_slice(bytes);
    }
}

/// A value for each of some sectors, in the place that the sector's number gives. Without memory none is
/// kept.
#[derive(Drop)]
pub(crate) struct Remembered<T> {
    places: Option<Vec<Place<T>>>,
}

impl<T: Copy> Remembered<T> {
    pub(crate) fn none() -> Remembered<T> {
        Remembered { places: None }
    }

    /// So many places for two values each, where there is memory for them.
    pub(crate) fn with_places(alloc: Global, count: usize) -> Remembered<T> {
        Remembered {
            places: vec![in alloc; Place::empty(); count].ok(),
        }
    }

    /// The value of a sector, where it is kept.
    pub(crate) fn get(&self, sector: u32) -> Option<&T> {
        let places = self.places.as_ref()?;
        let place = (sector as usize).checked_rem(places.len())?;
        places.get(place)?.get(sector)
    }

    pub(crate) fn has(&self, sector: u32) -> bool {
        self.get(sector).is_some()
    }

    pub(crate) fn keep(&mut self, sector: u32, value: &T) {
        if let Some(places) = &mut self.places {
            keep(places, sector, value);
        }
    }

    pub(crate) fn clear(&mut self) {
        if let Some(places) = &mut self.places {
            for place in places.iter_mut() {
                *place = Place::empty();
            }
        }
    }
}

impl Remembered<[u8; 528]> {
    /// Puts a label in the place of that of a sector that is kept.
    pub(crate) fn put_label(&mut self, sector: u32, label: &[u8; 16]) {
        if let Some(places) = &mut self.places {
            overwrite(places, sector, 0, label);
        }
    }

    /// Puts a page in the place of that of a sector that is kept.
    pub(crate) fn put_page(&mut self, sector: u32, page: &Page) {
        if let Some(places) = &mut self.places {
            overwrite(places, sector, 16, page);
        }
    }
}

fn keep<T: Copy>(places: &mut [Place<T>], sector: u32, value: &T) {
    if let Some(place) = (sector as usize).checked_rem(places.len())
        && place < places.len()
    {
        places[place].keep(sector, value);
    }
}

fn overwrite(places: &mut [Place<[u8; 528]>], sector: u32, at: usize, bytes: &[u8])
    requires { at + length bytes.now ≤ 528 }
{
    if let Some(place) = (sector as usize).checked_rem(places.len())
        && place < places.len()
    {
        places[place].overwrite(sector, at, bytes);
    }
}
