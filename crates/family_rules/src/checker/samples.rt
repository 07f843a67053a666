//! Samples of the family that goes on.
ghost use Rattle.std.specs.Prelude.{◌≡◌, ◌&&◌, Ok, Err, Some, None, true, false, is_some, map, IfOk, IfSome, OnOk};
ghost use Rattle.packed_keys.specs.declared.sample_key.SampleKey.{SampleKey as AnyKey};
ghost use Rattle.sample_groups.specs.LastSeen.{EndsWith};
ghost use Rattle.sample_groups.specs.Members.{member_behind};
ghost use Rattle.label_sets.specs.declared.kind.Kind.TheVariants as kinds;
ghost use Rattle.label_sets.specs.Lists.{when_true};
ghost use Rattle.page_model.specs.declared.rule.Rule.TheVariants as rules;
ghost use Rattle.page_model.specs.Owners.{kept_labels};
ghost use Rattle.page_model.specs.Rules.{is_open_metrics};
ghost use Rattle.family_rules.specs.declared.timed_values.TimedValue.{TimedValue as AnyValue};
ghost use Rattle.family_rules.specs.KeyedValues.{is_key_of, is_passed, samples_at_end};
ghost use Rattle.family_rules.specs.GroupRuns.{has_runs};
ghost use Rattle.family_rules.specs.GroupKeys.{IsNewGroup, NameTells};
ghost use Rattle.family_rules.specs.Steps.{current_with, with_current};
ghost use Rattle.family_rules.specs.Samples.{current_samples, own_samples, with_seen, is_overtaken_in, is_back_in_groups, with_counted, with_part_in, with_part_at, with_told, given_by, fits_order, is_back, with_runs, entered_by, with_sample, known_stop, sample_stop, part_stop, key_stop, with_key, add_stop, with_added};

use super::ItemChecker;
use crate::family::Current;
use crate::group_keys::GroupKeys;
use crate::keyed_sample::{KeyedSample, given_part};
use crate::least_rule::{least, rule_if};
use crate::runs::{group_labels, has_own_runs, is_alone};
use crate::timed_values::TimedValue;
use label_sets::{Kind, LabelSet, Memory, Name};
use packed_keys::{SampleKey, SeenKeys};
use page_model::{Format, Rule, Sample, Treatment};
use sample_groups::{Added, MemberRef, Part, is_grouped, sample_time};
use std::alloc::Global;

/// Begins a group of the current family, a counter, with what a sample with these labels gives.
fn begin_in(
    alloc: Global,
    current: &mut Option<Current>,
    labels: &LabelSet,
    member: &MemberRef<'_>,
    seen: Option<&SeenKeys>,
) -> Result<(), Memory>
    requires new { IsNewGroup current.old labels.now }
    requires seen { IfSome seen (λ keys. EndsWith keys.now labels.now) }
    ensures { OnOk result (current.new ≡ current_with (with_part_in kinds.Counter labels.now (member_behind member.now)) current.old) }
{
    match current {
        Some(current) => current.family.groups.begin(alloc, labels, member, seen),
        None => Ok(()),
    }
}

impl ItemChecker {
    /// A label set as a page of this treatment keeps it.
    #[inline(always)]
    pub(super) fn kept_labels(&self, labels: LabelSet) -> Result<LabelSet, Memory>
        ensures { IfOk result (λ kept. kept ≡ kept_labels self.now.setting.treatment labels) }
    {
        match self.treatment {
            Treatment::Scraped => labels.renamed(self.alloc),
            Treatment::Written => Ok(labels),
        }
    }

    /// Counts a sample of the current family.
    fn count_sample(&mut self) -> Result<(), Memory>
        ensures { OnOk result (self.new ≡ with_counted self.old) }
    {
        match &mut self.current {
            Some(current) => current.family.count_sample(),
            None => Ok(()),
        }
    }

    /// How many samples the current family has.
    fn current_samples(&self) -> u32
        ensures { result ≡ current_samples self.now.current }
    {
        match &self.current {
            Some(current) => current.family.samples,
            None => 0,
        }
    }

    /// How many samples at the end tell which groups have begun, where each has a group of its own.
    pub(super) fn own_samples(&self, kind: Kind) -> u32
        ensures { result ≡ own_samples self.now kind }
    {
        match self.format {
            Format::OpenMetrics if is_alone(kind) => self.current_samples(),
            Format::OpenMetrics | Format::Text => 0,
        }
    }

    /// Whether one of so many samples at the end has these labels, and the last one has not. What was seen is
    /// forgotten.
    pub(super) fn take_passed(&mut self, own: u32, labels: &LabelSet) -> Result<bool, Memory>
        ensures passed { IfOk result (λ passed. passed ≡ is_passed labels.now (samples_at_end own self.old.seen)) }
        ensures rest { self.new ≡ with_seen self.old self.new.seen }
    {
        self.group_keys = GroupKeys::Unknown;
        self.seen.take_passed(self.alloc, own, labels)
    }

    /// The rule that a key with these labels breaks that was seen: 12, where it goes back to one of so many samples at
    /// the end, or 14. What was seen is forgotten.
    fn known_rule(&mut self, own: u32, labels: &LabelSet) -> Result<Option<Rule>, Memory>
        ensures rule { IfOk result (λ rule. rule ≡ known_stop own labels.now self.old.seen) }
        ensures rest { self.new ≡ with_seen self.old self.new.seen }
    {
        let passed = self.take_passed(own, labels)?;
        Ok(least(rule_if(passed, Rule::Interleaved), Some(Rule::Duplicate)))
    }

    /// Adds a sample of the current family which breaks this rule or none by its group, or answers the least rule that
    /// it breaks. The groups of so many samples at the end have begun.
    fn add_key(
        &mut self,
        own: u32,
        key: SampleKey,
        value: TimedValue,
        broken: Option<Rule>,
    ) -> Result<Option<Rule>, Memory>
        ensures broken { IfOk result (λ answer. answer ≡ sample_stop self.old own key broken) }
        ensures added { IfOk result (λ answer. answer ≡ None → self.new ≡ with_sample self.old key value) }
        ensures rest { IfOk result (λ answer. is_some answer ≡ true → self.new ≡ with_seen self.old self.new.seen) }
    {
        self.group_keys = GroupKeys::Unknown;
        let known = self.seen.insert(key, value)?;
        if let Some(known) = known {
            let rule = self.known_rule(own, &known.labels)?;
            drop(known);
            return Ok(least(rule, broken));
        }
        if broken.is_some() {
            return Ok(broken);
        }
        // No rule has a greater number.
        if self.samples >= self.limit {
            return Ok(Some(Rule::TooMany));
        }
        self.samples += 1;
        self.count_sample()?;
        Ok(None)
    }

    /// Adds a sample of the current family to its group, where that has no parts, and answers whether it goes back
    /// to it: rule 12.
    #[inline(always)]
    pub(super) fn enter(&mut self, kind: Kind, labels: &LabelSet) -> Result<bool, Memory>
        ensures back { IfOk result (λ back. back ≡ is_back self.old kind labels.now) }
        ensures entered { IfOk result (λ back. back ≡ false → self.new ≡ entered_by self.old kind labels.now) }
        ensures rest { OnOk result (self.new ≡ with_runs self.old self.new.runs) }
    {
        if !self.has_runs(kind) {
            return Ok(false);
        }
        match &self.current {
            Some(current) => {
                let shared = group_labels(self.alloc, kind, &current.name, labels)?;
                self.runs.enter(&current.name, shared)
            }
            None => Ok(false),
        }
    }

    /// Whether the groups of this kind that have begun are kept.
    fn has_runs(&self, kind: Kind) -> bool
        ensures { result ≡ has_runs self.now.setting.format kind }
    {
        if !has_own_runs(kind) {
            return false;
        }
        match self.format {
            Format::Text => false,
            Format::OpenMetrics => true,
        }
    }

    /// Whether the format has rule 12.
    fn has_order(&self) -> bool
        ensures { result ≡ is_open_metrics self.now.setting.format }
    {
        match self.format {
            Format::Text => false,
            Format::OpenMetrics => true,
        }
    }

    /// Adds what a sample gives its group in the current family, unless its part breaks the order there, and answers
    /// whether the group was overtaken.
    fn add_to_group(&mut self, line: &KeyedSample<'_>, part: &Part) -> Result<Added, Memory>
        ensures answer { IfOk result (λ added. added.fits ≡ fits_order line.now.kind line.now.key.labels part.now self.old.current) }
        ensures overtaken { IfOk result (λ added. added.overtaken ≡ is_overtaken_in line.now.kind line.now.key.labels self.old.current) }
        ensures added { IfOk result (λ added. added.fits ≡ true → self.new ≡ with_part_at self.old line.now.kind line.now.key.labels (record { part = part.now; time = line.now.value.time; exemplar = line.now.exemplar.now })) }
        ensures rest { OnOk result (self.new ≡ with_current self.old self.new.current) }
    {
        let member = MemberRef {
            part,
            time: line.value.time,
            exemplar: line.exemplar,
        };
        self.group_keys = GroupKeys::Unknown;
        match &mut self.current {
            Some(current) => {
                current
                    .family
                    .groups
                    .add(self.alloc, line.kind, &line.key.labels, &member)
            }
            None => Ok(Added {
                fits: true,
                overtaken: false,
            }),
        }
    }

    /// Rule 12: a sample of a kind with groups goes back to its group in the current family. Nothing is said of the
    /// groups any more.
    pub(super) fn goes_back(&mut self, kind: Kind, labels: &LabelSet) -> Result<bool, Memory>
        ensures back { IfOk result (λ back. back ≡ is_back_in_groups self.old.setting.format kind labels.now self.old.current) }
        ensures rest { OnOk result (self.new ≡ with_current self.old self.new.current) }
    {
        if !is_grouped(self.format, kind) {
            return Ok(false);
        }
        if !self.has_order() {
            return Ok(false);
        }
        self.group_keys = GroupKeys::Unknown;
        match &mut self.current {
            Some(current) => current.family.groups.is_overtaken(self.alloc, kind, labels),
            None => Ok(false),
        }
    }

    /// Rule 12, where the group of a sample was overtaken and the format has the rule.
    fn overtaken_rule(&self, overtaken: bool) -> Option<Rule>
        ensures { result ≡ when_true (is_open_metrics self.now.setting.format && overtaken) rules.Interleaved }
    {
        match self.format {
            Format::OpenMetrics if overtaken => Some(Rule::Interleaved),
            Format::OpenMetrics | Format::Text => None,
        }
    }

    /// Adds what a sample gives its group in the current family, or answers the least rule that it breaks there.
    fn add_part(&mut self, line: &KeyedSample<'_>, part: &Part) -> Result<Option<Rule>, Memory>
        ensures broken { IfOk result (λ answer. answer ≡ part_stop self.old.setting.format line.now.kind line.now.key.labels (Ok (Some part.now)) self.old.current) }
        ensures added { IfOk result (λ answer. answer ≡ None → self.new ≡ with_part_at self.old line.now.kind line.now.key.labels (record { part = part.now; time = line.now.value.time; exemplar = line.now.exemplar.now })) }
        ensures rest { OnOk result (self.new ≡ with_current self.old self.new.current) }
    {
        let added = self.add_to_group(line, part)?;
        let back = self.overtaken_rule(added.overtaken);
        let order = rule_if(!added.fits, Rule::Order);
        Ok(least(back, order))
    }

    /// The least rule that a sample breaks of which this one is told: 12, where it goes back to its group, or this one.
    fn told_rule(&mut self, line: &KeyedSample<'_>, rule: Rule) -> Result<Option<Rule>, Memory>
        ensures broken { IfOk result (λ answer. answer ≡ part_stop self.old.setting.format line.now.kind line.now.key.labels (Err rule) self.old.current) }
        ensures never { IfOk result (λ answer. answer ≡ None → self.new ≡ self.old) }
        ensures rest { OnOk result (self.new ≡ with_current self.old self.new.current) }
    {
        let back = self.goes_back(line.kind, &line.key.labels)?;
        Ok(least(rule_if(back, Rule::Interleaved), Some(rule)))
    }

    /// Adds what was told of a sample to the current family, or answers the least rule that it breaks by its group or by
    /// what was told.
    fn add_told(&mut self, line: &KeyedSample<'_>) -> Result<Option<Rule>, Memory>
        ensures broken { IfOk result (λ answer. answer ≡ part_stop self.old.setting.format line.now.kind line.now.key.labels line.now.told.now self.old.current) }
        ensures added { IfOk result (λ answer. answer ≡ None → self.new ≡ with_told self.old line.now.kind line.now.key.labels (given_by line.now)) }
        ensures rest { OnOk result (self.new ≡ with_current self.old self.new.current) }
    {
        match line.told {
            Ok(Some(part)) => self.add_part(line, part),
            Ok(None) => Ok(None),
            Err(rule) => self.told_rule(line, *rule),
        }
    }

    /// Adds a sample of the current family, or answers the least rule that it breaks.
    #[inline(always)]
    fn add_keyed(&mut self, line: KeyedSample<'_>) -> Result<Option<Rule>, Memory>
        ensures broken { IfOk result (λ answer. answer ≡ key_stop self.old line.entry.kind line.entry.key line.entry.told.now) }
        ensures added { IfOk result (λ answer. answer ≡ None → self.new ≡ with_key self.old line.entry.kind line.entry.key line.entry.value (given_by line.entry)) }
    {
        let own = self.own_samples(line.kind);
        let back = self.enter(line.kind, &line.key.labels)?;
        let told = self.add_told(&line)?;
        let broken = least(rule_if(back, Rule::Interleaved), told);
        self.add_key(own, line.key, line.value, broken)
    }

    /// Begins a group of the current family with what a sample with this key gives.
    fn begin_group(&mut self, key: SampleKey, member: &MemberRef<'_>) -> Result<(), Memory>
        requires new { IsNewGroup self.now.current key.labels }
        requires seen { is_key_of key self.now.seen ≡ true }
        requires last { EndsWith (map (λ (e : AnyKey × AnyValue). e.0) self.now.seen) key.labels }
        requires tells { NameTells key.name self.now.current self.now.seen }
        ensures { OnOk result (self.new ≡ with_part_at self.old kinds.Counter key.labels (member_behind member.now)) }
    {
        self.group_keys = GroupKeys::Unknown;
        begin_in(
            self.alloc,
            &mut self.current,
            &key.labels,
            member,
            self.seen.packed_keys(),
        )?;
        let SampleKey { name, labels } = key;
        drop(labels);
        self.group_keys = GroupKeys::Of(name);
        Ok(())
    }

    /// Adds a sample of the current family, a counter, whose key tells whether its group is new, or answers the least
    /// rule that it breaks.
    fn add_first(
        &mut self,
        key: SampleKey,
        value: TimedValue,
        member: &MemberRef<'_>,
    ) -> Result<Option<Rule>, Memory>
        requires { NameTells key.name self.now.current self.now.seen }
        ensures broken { IfOk result (λ answer. answer ≡ key_stop self.old kinds.Counter key (Ok (Some member.now.part.now))) }
        ensures added { IfOk result (λ answer. answer ≡ None → self.new ≡ with_key self.old kinds.Counter key value (Ok (Some (member_behind member.now)))) }
    {
        let first = SampleKey {
            name: key.name.copy()?,
            labels: key.labels.copy()?,
        };
        let broken = self.add_key(0, key, value, None)?;
        if broken.is_some() {
            let back = self.goes_back(Kind::Counter, &first.labels)?;
            drop(first);
            return Ok(least(rule_if(back, Rule::Interleaved), broken));
        }
        self.begin_group(first, member)?;
        Ok(None)
    }

    /// Whether the keys of this name tell which groups of the current family, a counter, are new.
    fn tells_groups(&self, kind: Kind, name: &Name) -> bool
        ensures { result ≡ true → (kind ≡ kinds.Counter) × NameTells name.now self.now.current self.now.seen }
    {
        matches!(kind, Kind::Counter) && self.group_keys.tell(name)
    }

    /// Adds a sample of the current family, or answers the least rule that it breaks. Where its key tells that its group
    /// is new, that is not looked for.
    #[inline(always)]
    fn add_line(&mut self, line: KeyedSample<'_>) -> Result<Option<Rule>, Memory>
        ensures broken { IfOk result (λ answer. answer ≡ key_stop self.old line.entry.kind line.entry.key line.entry.told.now) }
        ensures added { IfOk result (λ answer. answer ≡ None → self.new ≡ with_key self.old line.entry.kind line.entry.key line.entry.value (given_by line.entry)) }
    {
        if !self.tells_groups(line.kind, &line.key.name) {
            return self.add_keyed(line);
        }
        match given_part(line.told) {
            Some(part) => {
                let member = MemberRef {
                    part,
                    time: line.value.time,
                    exemplar: line.exemplar,
                };
                self.add_first(line.key, line.value, &member)
            }
            None => self.add_keyed(line),
        }
    }

    /// Adds a sample of the current family, of this kind, of which this was told, or answers the least rule that it
    /// breaks.
    #[inline(always)]
    pub(super) fn add_sample(
        &mut self,
        kind: Kind,
        sample: Sample,
        told: &Result<Option<Part>, Rule>,
    ) -> Result<Option<Rule>, Memory>
        ensures broken { IfOk result (λ answer. answer ≡ add_stop self.old kind sample told.now) }
        ensures added { IfOk result (λ answer. answer ≡ None → self.new ≡ with_added self.old kind sample told.now) }
    {
        let time = sample_time(self.format, &sample);
        let Sample {
            name,
            labels,
            value,
            exemplar,
            ..
        } = sample;
        let labels = self.kept_labels(labels)?;
        let answer = self.add_line(KeyedSample {
            kind,
            key: SampleKey { name, labels },
            value: TimedValue { value, time },
            told,
            exemplar: &exemplar,
        });
        drop(exemplar);
        answer
    }
}
