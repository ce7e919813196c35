// The eight seats, by number.
ghost use Rattle.std.specs.Prelude.{◌≡◌, ◌<◌};
ghost use Rattle.calls.specs.Desks.{desk_at, desk_answer};
ghost use Rattle.desks.specs.Seats.{desks_of, served_at, references, Open};

use crate::Desk;
use crate::serving::serve_desk;
use calls::RunAnswer;

// Serves the desk at one seat; the others stay as they are.
pub fn serve_seat(
    seat_0: &mut Desk<'_>,
    seat_1: &mut Desk<'_>,
    seat_2: &mut Desk<'_>,
    seat_3: &mut Desk<'_>,
    seat_4: &mut Desk<'_>,
    seat_5: &mut Desk<'_>,
    seat_6: &mut Desk<'_>,
    seat_7: &mut Desk<'_>,
    seat: usize,
    answer: RunAnswer,
    until: u32,
) -> RunAnswer
    requires seat_is { seat < 8 }
    requires open { Open (desk_at (desks_of seat_0.old seat_1.old seat_2.old seat_3.old seat_4.old seat_5.old seat_6.old seat_7.old) seat) answer until }
    ensures same_references { references seat_0.new seat_1.new seat_2.new seat_3.new seat_4.new seat_5.new seat_6.new seat_7.new ≡ references seat_0.old seat_1.old seat_2.old seat_3.old seat_4.old seat_5.old seat_6.old seat_7.old }
    ensures value { result ≡ desk_answer (desk_at (desks_of seat_0.old seat_1.old seat_2.old seat_3.old seat_4.old seat_5.old seat_6.old seat_7.old) seat) until }
    ensures desks_after { desks_of seat_0.new seat_1.new seat_2.new seat_3.new seat_4.new seat_5.new seat_6.new seat_7.new ≡ served_at (desks_of seat_0.old seat_1.old seat_2.old seat_3.old seat_4.old seat_5.old seat_6.old seat_7.old) seat until }
{
    match seat {
        0 => serve_desk(seat_0, answer, until),
        1 => serve_desk(seat_1, answer, until),
        2 => serve_desk(seat_2, answer, until),
        3 => serve_desk(seat_3, answer, until),
        4 => serve_desk(seat_4, answer, until),
        5 => serve_desk(seat_5, answer, until),
        6 => serve_desk(seat_6, answer, until),
        _ => serve_desk(seat_7, answer, until),
    }
}
