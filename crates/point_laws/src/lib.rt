//! What trees say of the pages that they come of: that they have as many points as these have readings, but for gauge
//! histograms, readings that are late and those that describe the target, each in one scope, and mark each series that is
//! gone once. These are laws, each carried by a call that changes nothing.
#![tactic(auto)]

ghost use Rattle.target_pages.specs.Stretches.{without_info};
ghost use Rattle.point_laws.specs.PageLaws.{EachPlaceHasAPoint, EachTakenHasAPoint, EachReadingHasAPoint};
ghost use Rattle.point_laws.specs.MarkerLaws.{EventsMarkTheGone};

use page_model::Page;

/// The metric of each family of a page has as many points as the family has readings that are taken, but that of a gauge
/// histogram, which has none: so no histogram is left out for its buckets, and no value for its kind. None of them is lost
/// or told twice where the readings name scopes. Where times of the page don't count, all readings are taken but those that
/// describe the target. The law counts points; of which reading each is stands in the definition of the tree. The families
/// are asked for since they tell that the page is right.
///
/// So of the page `x 1` there is one point.
pub fn points_of_pages(page: &Page)
    ensures places { EachPlaceHasAPoint page.now }
    ensures taken { EachTakenHasAPoint page.now }
    ensures taken_series { EachTakenHasAPoint (without_info page.now) }
    ensures all { EachReadingHasAPoint page.now }
{
    let _families = page.families();
}

/// The points without a recorded value of an event's tree are those of the series that the scrape before had, without
/// times of their own, and this one lacks, one for each, in the scope that it names and in the metric of its name, kind and
/// unit. Where the attributes of the target change, these are all series of the scrape before, in a second part under the
/// attributes that they had. No two metrics of a scope are one, and no two scopes of a part.
///
/// So where the scrape before had the page `x 1` and this one has none, there is one such point, that of `x`.
pub fn events_mark_the_gone()
    ensures { EventsMarkTheGone }
{}
