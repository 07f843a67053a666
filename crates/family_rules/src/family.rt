//! What is known of a family from its lines so far.
ghost use Rattle.std.specs.Prelude.{◌≡◌, ◌||◌, None, Some, OnOk, is_some};
ghost use Rattle.family_rules.specs.Checking.{no_lines, has_samples, kind_in};
ghost use Rattle.family_rules.specs.Steps.{has, family_with, has_incomplete};
ghost use Rattle.family_rules.specs.Samples.{family_with_sample};

use crate::rare_text::RareText;
use label_sets::{Kind, Memory, Name, Text};
use sample_groups::Groups;
use std::alloc::{AllocError, Global};

/// What a line says that describes a family.
#[derive(Drop)]
pub enum Descriptor {
    Help(Text),
    Type(Kind),
    Unit(Text),
}

/// What is known of a family from its lines so far.
#[derive(Drop)]
pub struct FamilySoFar {
    pub help: Option<Text>,
    /// The groups of its samples, where its kind has groups.
    pub groups: Groups,
    pub unit: RareText,
    /// How many samples it has. Their values stand in one list over the page.
    pub samples: u32,
    pub kind: Option<Kind>,
}

/// The family of the nearest line above.
#[derive(Drop)]
pub struct Current {
    pub name: Name,
    pub family: FamilySoFar,
}

// Most families of a page have one sample, and a page may describe families alone.
const _: () = prove!(std::mem::size_of::<FamilySoFar>() <= 80);

impl FamilySoFar {
    /// A family without lines. It takes no memory.
    pub fn new(alloc: Global) -> FamilySoFar
        ensures { result ≡ no_lines }
    {
        FamilySoFar {
            help: None,
            groups: Groups::new(alloc),
            unit: RareText::none(),
            samples: 0,
            kind: None,
        }
    }

    /// The kind that its lines give it: without a TYPE line it is unknown.
    pub fn kind(&self) -> Kind
        ensures { result ≡ kind_in self.now }
    {
        self.kind.unwrap_or(Kind::Unknown)
    }

    /// Whether it is a histogram in which a group has no bucket `+Inf` or another count than that bucket's
    /// (OpenMetrics 1.0, "Histogram", "GaugeHistogram").
    pub fn is_incomplete(&self) -> bool
        ensures { result ≡ has_incomplete self.now }
    {
        matches!(self.kind(), Kind::Histogram | Kind::GaugeHistogram) && !self.groups.are_whole()
    }

    /// Counts a sample more. A page has few enough samples that memory is never the answer in fact.
    ///
    /// # Errors
    ///
    /// Want of memory.
    pub fn count_sample(&mut self) -> Result<(), Memory>
        ensures counted { OnOk result (self.new ≡ family_with_sample self.old) }
        ensures groups { self.new.groups ≡ self.old.groups }
    {
        match self.samples.checked_add(1) {
            Some(samples) => {
                self.samples = samples;
                Ok(())
            }
            None => Err(AllocError),
        }
    }

    /// Keeps what a line says of it.
    ///
    /// # Errors
    ///
    /// Want of memory.
    pub fn describe(&mut self, alloc: Global, descriptor: Descriptor) -> Result<(), Memory>
        ensures described { OnOk result (self.new ≡ family_with descriptor self.old) }
        ensures groups { self.new.groups ≡ self.old.groups }
    {
        match descriptor {
            Descriptor::Help(text) => self.help = Some(text),
            Descriptor::Type(kind) => self.kind = Some(kind),
            Descriptor::Unit(unit) => self.unit = RareText::some(alloc, unit)?,
        }
        Ok(())
    }

    /// Whether a descriptor comes too late: behind one of its sort, or behind a sample.
    pub fn is_late(&self, descriptor: &Descriptor) -> bool
        ensures { result ≡ (has descriptor.now self.now || has_samples self.now) }
    {
        let described = match descriptor {
            Descriptor::Help(_) => self.help.is_some(),
            Descriptor::Type(_) => self.kind.is_some(),
            Descriptor::Unit(_) => self.unit.is_some(),
        };
        described || self.samples > 0
    }
}
