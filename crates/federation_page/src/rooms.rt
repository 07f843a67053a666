//! How many readings the families of many pages have, by the names of the families.
use byte_table::ByteTable;
use label_sets::{Memory, Name};
use page_model::{Family, Shown};
use std::alloc::Global;

/// The room that the readings of each family may take. It is known before any is gathered, so that they are not moved
/// while they grow: a family of the page has those of all targets.
#[derive(Drop)]
pub(crate) struct Rooms {
    names: ByteTable,
    readings: Vec<usize>,
}

impl Rooms {
    /// The room for what targets show.
    pub(crate) fn of(alloc: Global, shown: &[Shown]) -> Result<Rooms, Memory> {
        let mut rooms = Rooms {
            names: ByteTable::new(alloc),
            readings: Vec::new(alloc),
        };
        for target in shown {
            rooms.add_page(target.page.families().as_slice())?;
        }
        Ok(rooms)
    }

    fn add_page(&mut self, families: &[Family]) -> Result<(), Memory> {
        for family in families {
            self.add(family)?;
        }
        Ok(())
    }

    fn add(&mut self, family: &Family) -> Result<(), Memory> {
        let more = family.readings.len();
        match self.names.insert(family.name.as_bytes())? {
            Some(place) => {
                if let Some(room) = self.readings.get_mut(place) {
                    *room = room.saturating_add(more);
                }
            }
            None => self.readings.push(more)?,
        }
        Ok(())
    }

    /// How many readings the families of this name have.
    pub(crate) fn room(&self, name: &Name) -> usize {
        match self.names.find(name.as_bytes()) {
            Some(place) => self.readings.get(place).copied().unwrap_or(0),
            None => 0,
        }
    }
}
