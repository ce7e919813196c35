// The powers of the steps, computed once a call. Each list has a number for every step r from 0 to 256; list i is that of power 4 - i, in
// parts of 64⁴, so that one division serves every power.
ghost use Rattle.std.specs.Prelude.{◌≡◌, ◌+◌, ◌-◌, ◌*◌, ◌≤◌, length};
ghost use Rattle.travel.specs.Ranges.{Powers, ListTo, ListRoom};

// Where the lists begin, after the reciprocals of the links' capacities.
const LISTS: usize = 512;

// The steps 0 to 256, one number each.
const STEPS: usize = 257;

// The places of the reciprocals and one list, that of power 4, or all four.
pub const ONE_LIST: usize = 769;

pub const ALL_LISTS: usize = 1540;

// Writes the lists that there is room for: the one of power 4, or all four.
pub fn put_powers(curves: &mut [u64])
    requires { ListRoom (length curves.old) }
    ensures { Powers curves.new × (length curves.new ≡ length curves.old) }
{
    put_list(&mut curves[LISTS..ONE_LIST], 0);
    if curves.len() == ALL_LISTS {
        for i in 1..4 {
            let start = LISTS + STEPS * i as usize;
            put_list(&mut curves[start..start + STEPS], i);
        }
    }
}

// Writes list i, r^q · 64^i with q = 4 - i for every step r: that of step 0, then those of an odd step, 2k - 1, and of the even one after it, 2k, which
// is that of step k times 2^q.
fn put_list(list: &mut [u64], i: u32)
    requires { (i ≤ 3) × (length list.old ≡ 257) }
    ensures { ListTo 257 i list.new }
{
    let q = 4 - i;
    let parts = 64u64.pow(i);
    let doubled = 2u64.pow(q);
    list[0] = 0;
    for k in 1..129 {
        let odd = 2 * k - 1;
        list[odd] = (odd as u64).pow(q) * parts;
        list[2 * k] = doubled * list[k];
    }
}

// Where the list of a power begins, in curves of so many places or more: a number that says which lists there are, as the contract has it.
// Where there is one list it is that of power 4: a loop over links then need not look at their powers.
pub fn list_start(power: u16, places: usize) -> usize
    requires { (power ≤ 4) × (1797 ≤ places + 257 * power) }
    ensures { result ≡ 512 + 257 * (4 - power) }
{
    if places == ONE_LIST {
        return LISTS;
    }
    ALL_LISTS - STEPS * usize::from(power)
}
