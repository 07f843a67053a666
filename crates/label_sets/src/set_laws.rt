//! What the definitions of this crate keep, for callers that reason with them.
ghost use Rattle.std.specs.Prelude.{◌≡◌, true, ℕ, length, List as Seq, IsTrue, ◌↔◌};
ghost use Rattle.std.specs.Cmp.{IsTotalOrder};
ghost use Rattle.std.specs.declared.cmp.Ordering.TheVariants.{Equal};
ghost use Rattle.label_sets.specs.declared.label.Label.{Label as OneLabel};
ghost use Rattle.label_sets.specs.declared.series_key.SeriesKey.{SeriesKey as Key};
ghost use Rattle.label_sets.specs.Sets.{IsLabelSet};
ghost use Rattle.label_sets.specs.Labels.{IsExportedName, exported_name, has_distinct_names, has_name, label_set, label_sets_eq, renamed, without_label};
ghost use Rattle.label_sets.specs.Keys.{key_cmp, key_eq};

use crate::label_set::LabelSet;
use crate::series_key::SeriesKey;

/// Pairs with distinct names make a set: sorted, distinct and without empty values.
pub fn built_sets()
    ensures { (pairs : Seq OneLabel) → has_distinct_names pairs ≡ true → IsLabelSet (label_set pairs) }
{}

/// The new name of a label that a set has is one that no label of the set has, with `exported_`
/// before the old one no oftener than needed.
pub fn exported_names()
    ensures { (labels : Seq OneLabel) (name : Seq ℕ) → has_name labels name ≡ true → IsExportedName labels name (exported_name (length labels) labels name) }
{}

/// Renaming leaves a set.
pub fn renamed_sets()
    ensures { (labels : Seq OneLabel) → IsLabelSet labels → IsLabelSet (renamed labels) }
{}

/// A set without one of its labels is a set.
pub fn reduced_sets()
    ensures { (labels : Seq OneLabel) (name : Seq ℕ) → IsLabelSet labels → IsLabelSet (without_label name labels) }
{}

/// Sets are equal where their labels are.
pub fn equal_sets()
    ensures equal { (a b : Seq OneLabel) → ⟦<LabelSet as PartialEq>⟧.eq a b ≡ label_sets_eq a b }
    ensures same { (a b : Seq OneLabel) → IsTrue (⟦<LabelSet as PartialEq>⟧.eq a b) ↔ (a ≡ b) }
{}

/// Keys are ordered by `key_cmp`, a total order that ties just equal keys.
pub fn order_of_keys()
    ensures order { (a b : Key) → ⟦<SeriesKey as Ord>⟧.cmp a b ≡ key_cmp a b }
    ensures equal { (a b : Key) → ⟦<SeriesKey as PartialEq>⟧.eq a b ≡ key_eq a b }
    ensures same { (a b : Key) → IsTrue (⟦<SeriesKey as PartialEq>⟧.eq a b) ↔ (a ≡ b) }
    ensures total { IsTotalOrder key_cmp }
    ensures ties { (a b : Key) → (key_cmp a b ≡ Equal) ↔ (a ≡ b) }
{}
