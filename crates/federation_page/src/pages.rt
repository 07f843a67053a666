//! The families of the pages of many targets, gathered.
ghost use Rattle.std.specs.Prelude.{◌≡◌, All, IfOk, OnOk};
ghost use Rattle.std.specs.List.{flat_map};
ghost use Rattle.page_model.specs.declared.format.Format.{Format};
ghost use Rattle.page_model.specs.declared.format.Treatment.TheVariants.{Scraped};
ghost use Rattle.open_writing.specs.Forms.{IsFormedFamily};
ghost use Rattle.federation_page.specs.Candidates.{HasNames, IsFormedTarget, candidate_of, candidates_of};
ghost use Rattle.federation_page.specs.Conflicts.{with_candidates, with_option};
ghost use Rattle.federation_page.specs.Founding.{AreFounders};
ghost use Rattle.federation_page.specs.Gathering.{gathered_families};
ghost use Rattle.federation_page.specs.SetsMade.{AreMadeFor};

use crate::candidates::candidate_of;
use crate::conflicts::Founders;
use crate::rooms::Rooms;
use crate::target_sets::TargetSets;
use label_sets::{List, Memory};
use page_model::{Family, Shown};
use std::alloc::Global;

/// Takes a family of a target.
fn take_family(
    alloc: Global,
    founders: &mut Founders,
    sets: &mut TargetSets,
    rooms: &Rooms,
    target: &Shown,
    family: &Family,
) -> Result<(), Memory>
    requires kept { AreFounders founders.old }
    requires named { HasNames target.now }
    requires made { AreMadeFor target.now sets.old.made.items }
    requires formed { (format : Format) × IsFormedFamily format Scraped family.now }
    ensures kept { OnOk result (AreFounders founders.new) }
    ensures made { OnOk result (AreMadeFor target.now sets.new.made.items) }
    ensures taken { OnOk result (founders.new.families.items ≡ with_option founders.old.families.items (candidate_of target.now family.now)) }
{
    match candidate_of(alloc, target, sets, family)? {
        Some(candidate) => founders.take(candidate, rooms.room(&family.name)),
        None => Ok(()),
    }
}

/// Takes the families of a target in page order.
fn take_target(
    alloc: Global,
    founders: &mut Founders,
    sets: &mut TargetSets,
    rooms: &Rooms,
    target: &Shown,
) -> Result<(), Memory>
    requires kept { AreFounders founders.old }
    requires able { IsFormedTarget target.now }
    ensures kept { OnOk result (AreFounders founders.new) }
    ensures taken { OnOk result (founders.new.families.items ≡ with_candidates founders.old.families.items (candidates_of target.now)) }
{
    sets.clear();
    let families = target.page.families().as_slice();
    for family in families {
        take_family(alloc, founders, sets, rooms, target, family)?;
    }
    Ok(())
}

/// Takes the families of targets in their order.
fn take_targets(alloc: Global, founders: &mut Founders, shown: &[Shown]) -> Result<(), Memory>
    requires kept { AreFounders founders.old }
    requires able { All IsFormedTarget shown.now }
    ensures kept { OnOk result (AreFounders founders.new) }
    ensures taken { OnOk result (founders.new.families.items ≡ with_candidates founders.old.families.items (flat_map candidates_of shown.now)) }
{
    let mut sets = TargetSets::new(alloc)?;
    let rooms = Rooms::of(alloc, shown)?;
    for target in shown {
        take_target(alloc, founders, &mut sets, &rooms, target)?;
    }
    Ok(())
}

/// The families of the page of what targets show, in their order.
pub(crate) fn gathered_families(alloc: Global, shown: &[Shown]) -> Result<List<Family>, Memory>
    requires able { All IsFormedTarget shown.now }
    ensures { IfOk result (λ families. families ≡ gathered_families (flat_map candidates_of shown.now)) }
{
    let mut founders = Founders::new(alloc);
    take_targets(alloc, &mut founders, shown)?;
    founders.into_families()
}
