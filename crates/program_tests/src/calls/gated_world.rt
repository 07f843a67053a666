//! A world in memory whose scrapes wait for one another: of two targets each one's reply comes only once there is a
//! connection to the other. Contracts see no gate: such a world is the world in memory in it.
ghost use Rattle.std.specs.Prelude.{◌≡◌};
ghost use Rattle.bridge_ports.specs.MemoryWorlds.{MemoryWorldState};
ghost use Rattle.memory_world.specs.WorldParts.{outside_of};

use bridge_ports::{Address, Failed, MemoryDoor, MemoryWire, RunNotice, World};
use gated_wires::{Gate, GatedWire, Gates};
use label_sets::{Memory, Text};
use memory_world::MemoryWorld;
use std::alloc::Global;
use std::marker::Model;
use std::time::Clock;

/// A world in memory, of whose wires those for scrapes of the first two targets have gates.
#[derive(Drop)]
pub(crate) struct GatedWorld<'a, R> {
    rt: &'a R,
    gates: &'a Gates,
    world: MemoryWorld,
}

impl<'a, R> Model for GatedWorld<'a, R> {
    ghost Value = { MemoryWorldState };

    ghost view = { λ w. w.world };
}

impl<'a, R> GatedWorld<'a, R> {
    /// The same world, with these gates.
    pub(crate) fn new(rt: &'a R, gates: &'a Gates, world: MemoryWorld) -> GatedWorld<'a, R>
        ensures { result ≡ world }
    {
        GatedWorld { rt, gates, world }
    }
}

impl<'a, R: Clock + Sync> World for GatedWorld<'a, R> {
    type Wire = GatedWire<'a, R>;

    type Door = MemoryDoor;

    ghost seen = { outside_of };

    fn open_file(&mut self, path: Text) -> Result<(), Failed> {
        self.world.open_file(path)
    }

    fn read_file(&mut self, into: &mut [u8]) -> Result<u32, Failed> {
        self.world.read_file(into)
    }

    fn wires(
        &mut self,
        alloc: Global,
        number: u32,
        scrape: &Address,
        post: &Address,
        interval: u64,
    ) -> Result<(GatedWire<'a, R>, GatedWire<'a, R>), Memory> {
        match self.world.wires(alloc, number, scrape, post, interval) {
            Ok((scrape, post)) => Ok((
                GatedWire::new(scrape, self.gates.gate_of(self.rt, number)),
                GatedWire::new(post, Gate::Open),
            )),
            Err(memory) => Err(memory),
        }
    }

    fn back(&mut self, number: u32, scrape: GatedWire<'a, R>, post: GatedWire<'a, R>) {
        self.world
            .back(number, scrape.into_wire(), post.into_wire())
    }

    fn door(&mut self, at: Address) -> Result<MemoryDoor, Failed> {
        self.world.door(at)
    }

    fn door_back(&mut self, door: MemoryDoor) {
        self.world.door_back(door)
    }

    fn shelve(
        &mut self,
        alloc: Global,
        scrape: MemoryWire,
        post: MemoryWire,
    ) -> Result<(), Memory> {
        self.world.shelve(alloc, scrape, post)
    }

    fn notice(&mut self, notice: RunNotice) {
        self.world.notice(notice)
    }

    fn has_shelf(&self) -> bool {
        self.world.has_shelf()
    }
}
