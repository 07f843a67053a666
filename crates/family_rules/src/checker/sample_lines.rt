//! Lines of samples: of the family that goes on, and of one that they begin.
ghost use Rattle.std.specs.Prelude.{◌≡◌, ◌||◌, Some, None, true, false, IfOk};
ghost use Rattle.label_sets.specs.declared.kind.Kind.TheVariants as kinds;
ghost use Rattle.label_sets.specs.Lists.{when_true};
ghost use Rattle.page_model.specs.declared.item.Item.TheVariants as items;
ghost use Rattle.page_model.specs.declared.rule.Rule.TheVariants as rules;
ghost use Rattle.family_rules.specs.LeastRule.{least};
ghost use Rattle.family_rules.specs.Steps.{Takes, begun, left_stop};
ghost use Rattle.family_rules.specs.Samples.{TellsPart, is_current_sample, has_bad_exemplar, told_left, add_stop, with_added, labels_stop, name_stop};

use super::ItemChecker;
use crate::exemplars::is_bad_exemplar;
use crate::least_rule::{least, rule_if};
use crate::sample_values::part_or_rule;
use label_sets::{Kind, LabelSet, Memory, Name};
use page_model::{Rule, Sample, is_sample_name};
use sample_groups::Part;

/// The least rule that a sample breaks whose name its kind doesn't allow, where one of these may tell that it goes back to
/// its group.
fn name_or_back(entered: bool, grouped: bool, passed: bool) -> Option<Rule>
    ensures { result ≡ least (when_true (entered || grouped || passed) rules.Interleaved) (Some rules.Suffix) }
{
    let back = rule_if(entered || grouped || passed, Rule::Interleaved);
    least(back, Some(Rule::Suffix))
}

impl ItemChecker {
    /// Whether the family of the nearest line owns a sample of this name.
    fn is_current_sample(&self, name: &Name) -> bool
        ensures { result ≡ is_current_sample self.now.setting.format self.now.current name.now }
    {
        match &self.current {
            Some(current) => {
                is_sample_name(self.format, current.family.kind(), &current.name, name)
            }
            None => false,
        }
    }

    /// What a sample of the current family is to its group, where its kind has groups, or the rule that it
    /// breaks: 15 or 16.
    fn part_or_rule(&self, kind: Kind, sample: &Sample) -> Result<Option<Part>, Rule>
        ensures { TellsPart self.now kind sample.now result }
    {
        match &self.current {
            Some(current) => part_or_rule(self.format, kind, &current.name, sample),
            None => Err(Rule::Suffix),
        }
    }

    /// Nothing, or rule 18 where a sample of another family leaves the current one.
    fn no_part_or_rule(&self) -> Result<Option<Part>, Rule>
        ensures { result ≡ told_left (left_stop self.now.current) }
    {
        match self.left_rule() {
            Some(rule) => Err(rule),
            None => Ok(None),
        }
    }

    /// Rule 10: a sample of the current family has a bad exemplar.
    fn has_bad_exemplar(&self, sample: &Sample) -> bool
        ensures { result ≡ has_bad_exemplar self.now.current sample.now }
    {
        match &self.current {
            Some(current) => is_bad_exemplar(current.family.kind(), &current.name, sample),
            None => false,
        }
    }

    /// Takes a sample of the current family, and answers the least rule that it breaks.
    fn take_own(&mut self, sample: Sample) -> Result<Option<Rule>, Memory>
        requires { is_current_sample self.now.setting.format self.now.current sample.name ≡ true }
        ensures { IfOk result (Takes (items.Sample sample) self.old self.new) }
    {
        // The other rules that it may break have greater numbers.
        if self.has_bad_exemplar(&sample) {
            drop(sample);
            return Ok(Some(Rule::Exemplar));
        }
        let kind = self.current_kind();
        let told = self.part_or_rule(kind, &sample);
        self.add_sample(kind, sample, &told)
    }

    /// The least rule that a sample with these labels breaks, of the current family, whose name its kind doesn't allow.
    fn labels_rule(&mut self, labels: &LabelSet) -> Result<Option<Rule>, Memory>
        ensures { IfOk result (λ rule. rule ≡ labels_stop self.old labels.now) }
    {
        let kind = self.current_kind();
        let own = self.own_samples(kind);
        let entered = self.enter(kind, labels)?;
        let grouped = self.goes_back(kind, labels)?;
        let passed = self.take_passed(own, labels)?;
        Ok(name_or_back(entered, grouped, passed))
    }

    /// The least rule that a sample of the current family breaks whose name its kind doesn't allow.
    fn name_rule(&mut self, sample: Sample) -> Result<Option<Rule>, Memory>
        ensures { IfOk result (λ rule. rule ≡ name_stop self.old sample) }
    {
        let Sample {
            name,
            labels,
            exemplar,
            ..
        } = sample;
        drop(name);
        drop(exemplar);
        let labels = self.kept_labels(labels)?;
        let rule = self.labels_rule(&labels);
        drop(labels);
        rule
    }

    /// Begins the family of the sample's own name with it, of which this was told, and answers the rule that it breaks.
    fn begin_with(
        &mut self,
        sample: Sample,
        told: &Result<Option<Part>, Rule>,
    ) -> Result<Option<Rule>, Memory>
        ensures broken { IfOk result (λ answer. answer ≡ add_stop (begun self.old sample.name) kinds.Unknown sample told.now) }
        ensures added { IfOk result (λ answer. answer ≡ None → self.new ≡ with_added (begun self.old sample.name) kinds.Unknown sample told.now) }
    {
        let family = sample.name.copy()?;
        match self.begin(family) {
            Ok(()) => self.add_sample(Kind::Unknown, sample, told),
            Err(fault) => {
                drop(sample);
                Err(fault)
            }
        }
    }

    /// Takes a sample that is of the family of its own name, and answers the rule that it breaks.
    fn take_other(&mut self, sample: Sample) -> Result<Option<Rule>, Memory>
        requires { is_current_sample self.now.setting.format self.now.current sample.name ≡ false }
        ensures { IfOk result (Takes (items.Sample sample) self.old self.new) }
    {
        // No name without a suffix may have one.
        if sample.exemplar.is_some() {
            drop(sample);
            return Ok(Some(Rule::Exemplar));
        }
        if self.is_current(&sample.name) {
            return self.name_rule(sample);
        }
        if self.is_left(&sample.name) {
            drop(sample);
            return Ok(Some(Rule::Split));
        }
        let told = self.no_part_or_rule();
        self.begin_with(sample, &told)
    }

    /// Takes a sample line, and answers the rule that it breaks.
    pub(super) fn take_sample(&mut self, sample: Sample) -> Result<Option<Rule>, Memory>
        ensures { IfOk result (Takes (items.Sample sample) self.old self.new) }
    {
        if self.is_current_sample(&sample.name) {
            return self.take_own(sample);
        }
        self.take_other(sample)
    }
}
