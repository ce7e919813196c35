// Questions 6 to 11 of a study in rows, with 19 and 23 after 8.
ghost use Rattle.std.specs.Prelude.{◌≤◌, true, ◌≡◌, length};
ghost use Rattle.study.specs.Questions.{first_no};
ghost use Rattle.theory.specs.Study.{AllFourth};
ghost use Rattle.calls.specs.Questions.{study_questions};
ghost use Rattle.questions.specs.Sized.{Sized, ClosedHeads, CommoditiesOf};

use crate::fields::{
    destinations_fit, ends_fit, marks_fit, no_trips_within, times_fit, total_fits,
};
use crate::reach::classes_reach;

// The number of the first of questions 6, 7, 8, 19, 23, 9, 10, 11 that refuses a study, or 0. `commodities` are the destinations and, in version 4,
// the same for lorries. `closed` and `barred` have the closed and the barred bytes, none where the version has none; `all_fourth` may be true where
// every power is 4.
pub fn study_refusal(
    nodes: usize,
    links: &[[u16; 6]],
    destinations: &[u16],
    closed: &[u8],
    barred: &[u8],
    commodities: &[u16],
    trips: &[u16],
    all_fourth: bool,
) -> u8
    requires sized { Sized nodes links.now commodities.now trips.now × ClosedHeads links.now closed.now }
    requires destinations_len_bound { (length destinations.now ≤ 32) × CommoditiesOf destinations.now commodities.now }
    requires all_fourth { all_fourth ≡ true → AllFourth links.now }
    ensures { result ≡ first_no (study_questions nodes links.now destinations.now closed.now barred.now commodities.now trips.now) }
{
    if !ends_fit(nodes, links) {
        return 6;
    }
    if !times_fit(links, all_fourth) {
        return 7;
    }
    if !destinations_fit(nodes, destinations) {
        return 8;
    }
    if !marks_fit(closed) {
        return 19;
    }
    if !marks_fit(barred) {
        return 23;
    }
    if !no_trips_within(nodes, commodities, trips) {
        return 9;
    }
    if !total_fits(trips) {
        return 10;
    }
    if !classes_reach(
        nodes,
        links,
        destinations.len(),
        commodities,
        trips,
        closed.len() == 0,
    ) {
        return 11;
    }
    0
}
