//! What the reads of wires wait for.
use std::sync::atomic::{AtomicBool, Ordering};
use std::thread;
use std::time::{Clock, Duration};

/// How often is looked whether a flag is set, a millisecond between two looks.
const LOOKS: u32 = 10_000;

/// Waits until a flag is set, at most ten seconds. Whether it is.
pub fn is_set_in_time<R: Clock>(rt: &R, flag: &AtomicBool) -> bool {
    for _ in 0..LOOKS {
        if flag.load(Ordering::SeqCst) {
            return true;
        }
        thread::sleep(rt, Duration::from_millis(1));
    }
    false
}

/// What the reads of one wire wait for.
#[derive(Drop)]
pub enum Gate<'a, R> {
    /// Nothing.
    Open,
    /// So long, before each.
    Paused(&'a R, Duration),
    /// A flag that another wire's connection sets. A connection of this wire sets `opens`, and a read that waited in vain
    /// sets `is_late` and goes on.
    Crossed {
        rt: &'a R,
        opens: &'a AtomicBool,
        waits_for: &'a AtomicBool,
        is_late: &'a AtomicBool,
    },
}

impl<R: Clock> Gate<'_, R> {
    /// Notes that there is a connection.
    pub(crate) fn note_connection(&self) {
        match self {
            Gate::Open => {}
            Gate::Paused(_, _) => {}
            Gate::Crossed {
                rt: _,
                opens,
                waits_for: _,
                is_late: _,
            } => opens.store(true, Ordering::SeqCst),
        }
    }

    /// Waits as a read has to.
    pub(crate) fn pass(&self) {
        match self {
            Gate::Open => {}
            Gate::Paused(rt, pause) => thread::sleep(*rt, *pause),
            Gate::Crossed {
                rt,
                opens: _,
                waits_for,
                is_late,
            } => {
                if !is_set_in_time(*rt, *waits_for) {
                    is_late.store(true, Ordering::SeqCst);
                }
            }
        }
    }
}

/// Whether there was a connection to each of two targets, and whether a read went on while its gate was shut.
#[derive(Drop)]
pub struct Gates {
    first: AtomicBool,
    second: AtomicBool,
    is_late: AtomicBool,
}

impl Gates {
    /// Gates that are shut.
    pub fn new() -> Gates {
        Gates {
            first: AtomicBool::new(false),
            second: AtomicBool::new(false),
            is_late: AtomicBool::new(false),
        }
    }

    /// Whether both are open, and no read went on before.
    pub fn were_passed(&self) -> bool {
        let first = self.first.load(Ordering::SeqCst);
        let second = self.second.load(Ordering::SeqCst);
        first && second && !self.is_late.load(Ordering::SeqCst)
    }

    /// The gate of the scrapes of the target of a number: the connection to each of the first two opens what the other's
    /// reads wait for.
    pub fn gate_of<'a, R>(&'a self, rt: &'a R, number: u32) -> Gate<'a, R> {
        let (opens, waits_for) = match number {
            1 => (&self.first, &self.second),
            2 => (&self.second, &self.first),
            _ => return Gate::Open,
        };
        Gate::Crossed {
            rt,
            opens,
            waits_for,
            is_late: &self.is_late,
        }
    }
}

/// What the scrapes of a run's targets wait for.
#[derive(Clone, Copy)]
pub enum Waits<'a> {
    /// Nothing.
    Nothing,
    /// So long, before each read.
    Pause(Duration),
    /// Those of the first two targets, for one another.
    EachOther(&'a Gates),
}

impl<'a> Waits<'a> {
    /// The gate of the scrapes of the target of a number.
    pub fn gate_of<R>(self, rt: &'a R, number: u32) -> Gate<'a, R> {
        match self {
            Waits::Nothing => Gate::Open,
            Waits::Pause(pause) => Gate::Paused(rt, pause),
            Waits::EachOther(gates) => gates.gate_of(rt, number),
        }
    }
}
