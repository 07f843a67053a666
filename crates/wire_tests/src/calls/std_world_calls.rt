//! The world of the machine: the wires, the doors and the files that it hands out.
ghost use Rattle.std.specs.Prelude.{◌≡◌, ◌<◌, None, false, IsSome, OnOk};
ghost use Rattle.bridge_ports.specs.declared.talk.Stage.TheVariants as stages;
ghost use Rattle.bridge_ports.specs.Doors.{most_handed};
ghost use Rattle.std_edge.specs.World.{new_machine};

use crate::calls::std_edge_calls::{LOOPBACK, PLACE, address, ask, is_heard, listening};
use bridge_ports::{Address, Door, Failed, Wire, World};
use label_sets::{Memory, Text};
use std::alloc::Global;
use std::net::TcpListener;
use std_edge::{NetDoor, NetWire, StdWorld};

/// The address of this port, and one at which nobody listens.
fn two_addresses(alloc: Global, port: u16) -> Result<(Address, Address), Memory> {
    let here = address(alloc, LOOPBACK, port)?;
    Ok((here, address(alloc, LOOPBACK, 1)?))
}

/// When a talk over the second wire of a pair began, and whether one over the first is heard at the door.
fn pair_asked<V: Wire + Drop, D: Door>(
    alloc: Global,
    mut scrape: V,
    mut post: V,
    door: &mut D,
) -> Result<(Option<u64>, bool), Memory>
    requires scrape { (V.state scrape).stage ≡ stages.Idle }
    requires post { (V.state post).stage ≡ stages.Idle }
    requires home { (D.door door.old).out ≡ false }
    requires few { (D.door door.old).handed < most_handed }
{
    let asked = ask(alloc, &mut post, 0)?;
    let heard = is_heard(alloc, &mut scrape, door, 0)?;
    Ok((asked, heard))
}

/// The same of the pair that a world hands out to these addresses, at a door of this listener.
fn handed_out_asked(
    rt: HostRuntime,
    listener: TcpListener,
    here: &Address,
    nowhere: &Address,
) -> Result<(Option<u64>, bool), Memory> {
    let mut door = NetDoor::new(rt, listener);
    let mut world = StdWorld::new(rt, rt.alloc());
    let asked = match world.wires(rt.alloc(), 7, here, nowhere, 0) {
        Ok((scrape, post)) => pair_asked(rt.alloc(), scrape, post, &mut door),
        Err(memory) => Err(memory),
    };
    drop(world);
    drop(door);
    asked
}

/// The same of a listener of this machine.
fn handed_out_there(rt: HostRuntime) -> Option<Result<(Option<u64>, bool), Memory>> {
    let (listener, port) = listening(&rt, LOOPBACK)?;
    match two_addresses(rt.alloc(), port) {
        Ok((here, nowhere)) => {
            let asked = handed_out_asked(rt, listener, &here, &nowhere);
            drop(here);
            drop(nowhere);
            Some(asked)
        }
        Err(memory) => {
            drop(listener);
            Some(Err(memory))
        }
    }
}

#[test]
fn world_hands_out_wires(rt: HostRuntime) {
    assert!(rt; handed_out_there(rt) == Some(Ok((None, true))));
}

/// Hands the pair of the number 7 out to these addresses, and takes it back.
fn lend<W: World>(
    alloc: Global,
    world: &mut W,
    scrape: &Address,
    post: &Address,
) -> Result<(), Memory>
    requires home { IsSome ((W.seen world.old).home 7) }
    ensures home { OnOk result (IsSome ((W.seen world.new).home 7)) }
{
    let (scrape, post) = world.wires(alloc, 7, scrape, post, 0)?;
    world.back(7, scrape, post);
    Ok(())
}

/// Whether a talk over each wire of a pair could be sent.
fn both_asked<V: Wire + Drop>(
    alloc: Global,
    mut scrape: V,
    mut post: V,
) -> Result<[bool; 2], Memory>
    requires scrape { (V.state scrape).stage ≡ stages.Idle }
    requires post { (V.state post).stage ≡ stages.Idle }
{
    let first = ask(alloc, &mut scrape, 0)?;
    let second = ask(alloc, &mut post, 0)?;
    Ok([first.is_some(), second.is_some()])
}

/// The same of a pair that came back of the one order of two addresses and was handed out to the other.
fn turned_asked(
    alloc: Global,
    world: &mut StdWorld<HostRuntime>,
    here: &Address,
    nowhere: &Address,
) -> Result<[bool; 2], Memory>
    requires { world.old ≡ new_machine }
{
    lend(alloc, world, here, nowhere)?;
    let (scrape, post) = world.wires(alloc, 7, nowhere, here, 0)?;
    both_asked(alloc, scrape, post)
}

/// The same of the machine's world, of which the one address has this port, and nobody listens at the other.
fn turned_asked_at_port(rt: HostRuntime, port: u16) -> Result<[bool; 2], Memory> {
    let (here, nowhere) = two_addresses(rt.alloc(), port)?;
    let mut world = StdWorld::new(rt, rt.alloc());
    let asked = turned_asked(rt.alloc(), &mut world, &here, &nowhere);
    drop(world);
    drop(here);
    drop(nowhere);
    asked
}

/// The same of a listener of this machine.
fn turned_asked_there(rt: HostRuntime) -> Option<Result<[bool; 2], Memory>> {
    let (listener, port) = listening(&rt, LOOPBACK)?;
    let asked = turned_asked_at_port(rt, port);
    drop(listener);
    Some(asked)
}

#[test]
fn wires_come_back_and_turn_to_other_addresses(rt: HostRuntime) {
    assert!(rt; turned_asked_there(rt) == Some(Ok([false, true])));
}

/// Whether a talk crosses to a world's door, and what is asked once the door came back.
fn asked_at_door<W: World, V: Wire>(
    alloc: Global,
    world: &mut W,
    wire: &mut V,
    at: Address,
) -> Result<(bool, Option<u64>), Memory>
    requires door { (W.seen world.old).world.door_at ≡ None }
    requires idle { (V.state wire.old).stage ≡ stages.Idle }
{
    match world.door(at) {
        Ok(mut door) => {
            let heard = is_heard(alloc, wire, &mut door, 0)?;
            world.door_back(door);
            Ok((heard, ask(alloc, wire, 0)?))
        }
        Err(Failed) => Ok((false, None)),
    }
}

/// The same of a door of the machine's world at this port.
fn asked_at_port(rt: HostRuntime, port: u16) -> Result<(bool, Option<u64>), Memory> {
    let at = address(rt.alloc(), LOOPBACK, port)?;
    let mut wire = NetWire::new(rt, PLACE, address(rt.alloc(), LOOPBACK, port)?);
    let mut world = StdWorld::new(rt, rt.alloc());
    let asked = asked_at_door(rt.alloc(), &mut world, &mut wire, at);
    drop(world);
    drop(wire);
    asked
}

/// The same of a port at which nobody listens any more.
fn asked_at_free_port(rt: HostRuntime) -> Option<Result<(bool, Option<u64>), Memory>> {
    let (listener, port) = listening(&rt, LOOPBACK)?;
    drop(listener);
    Some(asked_at_port(rt, port))
}

#[test]
fn world_has_the_door_until_it_comes_back(rt: HostRuntime) {
    assert!(rt; asked_at_free_port(rt) == Some(Ok((true, None))));
}

/// Whether the machine's world has a door at this port.
fn has_door(rt: HostRuntime, port: u16) -> Result<bool, Memory> {
    let at = address(rt.alloc(), LOOPBACK, port)?;
    let mut world = StdWorld::new(rt, rt.alloc());
    let door = world.door(at);
    let has = door.is_ok();
    drop(door);
    drop(world);
    Ok(has)
}

/// The same of the port of a listener.
fn has_second_door(rt: HostRuntime) -> Option<Result<bool, Memory>> {
    let (listener, port) = listening(&rt, LOOPBACK)?;
    let has = has_door(rt, port);
    drop(listener);
    Some(has)
}

#[test]
fn world_has_no_door_where_one_is(rt: HostRuntime) {
    assert!(rt; has_second_door(rt) == Some(Ok(false)));
}

/// What a read of a file comes to, where it can be opened.
fn read_of(rt: HostRuntime, path: &str) -> Result<Option<Result<u32, Failed>>, Memory> {
    let mut into = [1u8; 3];
    let path = Text::from_str(rt.alloc(), path)?;
    let mut world = StdWorld::new(rt, rt.alloc());
    let read = match world.open_file(path) {
        Ok(()) => Some(world.read_file(&mut into)),
        Err(Failed) => None,
    };
    drop(world);
    Ok(read)
}

#[test]
fn world_has_the_files(rt: HostRuntime) {
    const FILES: &[(&str, Option<Result<u32, Failed>>)] = &[
        ("/dev/zero", Some(Ok(3))),
        ("/dev/null", Some(Ok(0))),
        ("/", Some(Err(Failed))),
        ("/dev/null/none", None),
    ];
    for (path, read) in FILES {
        assert!(rt; read_of(rt, path) == Ok(*read), "{path}");
    }
}
