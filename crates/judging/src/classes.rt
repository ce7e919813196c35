// (A.7) The searches of cars and of lorries: each class by itself, along chains of its own.
ghost use Rattle.std.specs.Prelude.{◌≡◌, ◌≤◌, length};
ghost use Rattle.travel.specs.Ranges.{TimesFit};
ghost use Rattle.search.specs.Groups.{least_over};
ghost use Rattle.routes.specs.Table.{AllNexts};
ghost use Rattle.judging.specs.Study.{study_of, Ready};
ghost use Rattle.judging.specs.Classes.{ChainRoom, ClassChains, ClassNexts};

use theory::car_count;

// Puts the chains of the links for cars into the first two rows of an array, which is lent without links, and those for lorries behind them, where
// there are any.
pub fn put_class_chains(
    nodes: usize,
    links: &[[u16; 6]],
    commodities: &[u16],
    trips: &[u16],
    chains: &mut [[u16; 896]],
)
    requires { Ready (study_of nodes links.now commodities.now trips.now) × ChainRoom (study_of nodes links.now commodities.now trips.now) chains.old }
    ensures { ClassChains (study_of nodes links.now commodities.now trips.now) chains.new }
{
    search::put_chains(links, false, &mut chains[..2]);
    if car_count(commodities) < commodities.len() {
        search::put_chains(links, true, &mut chains[2..]);
    }
}

// The next links of every commodity at the times of the links.
pub fn put_next_links(
    nodes: usize,
    links: &[[u16; 6]],
    commodities: &[u16],
    trips: &[u16],
    times: &[u32; 512],
    chains: &[[u16; 896]],
    next: &mut [[u16; 128]],
)
    requires ready { Ready (study_of nodes links.now commodities.now trips.now) × TimesFit (length links.now) times.now }
    requires class_chains { ClassChains (study_of nodes links.now commodities.now trips.now) chains.now × (length commodities.now ≤ length next.old) }
    ensures class_nexts { ClassNexts (study_of nodes links.now commodities.now trips.now) times.now next.new }
    ensures next_len_unchanged { length next.new ≡ length next.old }
{
    let cars = car_count(commodities);
    let middle = cars * nodes;
    routes::next_table(
        nodes,
        links,
        &commodities[..cars],
        &trips[..middle],
        times,
        &chains[..2],
        next,
    );
    if cars < commodities.len() {
        routes::next_table(
            nodes,
            links,
            &commodities[cars..],
            &trips[middle..],
            times,
            &chains[2..],
            &mut next[cars..],
        );
    }
}

// The next links of the commodities that `put_next_links` leaves out, since nobody travels.
pub fn complete_next_links(
    nodes: usize,
    links: &[[u16; 6]],
    commodities: &[u16],
    trips: &[u16],
    times: &[u32; 512],
    chains: &[[u16; 896]],
    next: &mut [[u16; 128]],
)
    requires ready { Ready (study_of nodes links.now commodities.now trips.now) × TimesFit (length links.now) times.now }
    requires class_chains { ClassChains (study_of nodes links.now commodities.now trips.now) chains.now × ClassNexts (study_of nodes links.now commodities.now trips.now) times.now next.old }
    ensures { AllNexts nodes links.now commodities.now times.now next.new }
{
    let cars = car_count(commodities);
    let middle = cars * nodes;
    routes::complete_table(
        nodes,
        links,
        &commodities[..cars],
        &trips[..middle],
        times,
        &chains[..2],
        &mut next[..cars],
    );
    if cars < commodities.len() {
        routes::complete_table(
            nodes,
            links,
            &commodities[cars..],
            &trips[middle..],
            times,
            &chains[2..],
            &mut next[cars..],
        );
    }
}

// The sum of trips × least time over all commodities.
pub fn least_times(
    nodes: usize,
    links: &[[u16; 6]],
    commodities: &[u16],
    trips: &[u16],
    times: &[u32; 512],
) -> u64
    requires { Ready (study_of nodes links.now commodities.now trips.now) × TimesFit (length links.now) times.now }
    ensures { result ≡ least_over nodes links.now commodities.now trips.now times.now }
{
    let cars = car_count(commodities);
    let middle = cars * nodes;
    let into = search::into_chain(links, false);
    let least = search::least_times(
        nodes,
        links,
        &commodities[..cars],
        &trips[..middle],
        times,
        &into,
    );
    if commodities.len() <= cars {
        return least;
    }
    let into = search::into_chain(links, true);
    let others = search::least_times(
        nodes,
        links,
        &commodities[cars..],
        &trips[middle..],
        times,
        &into,
    );
    least + others
}
